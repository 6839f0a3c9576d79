ghost use Rattle.std.specs.Prelude.{◌↔◌, IsTrue, All};
ghost use Rattle.ras_sat.specs.Instances.{IsInstance};

use crate::instance::Instance;
use ras_logic::{Cube, Problem, Shared};
use ras_refute::are_rows_of;

/// Whether this is a formula of the list under rows of the premise that are the formula's.
fn is_instance(premise: &Problem, formulas: &[Shared<Cube>], instance: &Instance) -> bool
    ensures { IsTrue result ↔ IsInstance premise.now.rows formulas.now instance.now }
{
    match formulas.get(instance.formula as usize) {
        Some(formula) => are_rows_of(
            premise.rows.as_slice(),
            formula.get().rows(),
            instance.rows.as_slice(),
        ),
        None => false,
    }
}

/// Whether each is a formula of the list under rows of the premise that are the formula's, as `decide` requires.
pub fn are_instances(premise: &Problem, formulas: &[Shared<Cube>], instances: &[Instance]) -> bool
    ensures { IsTrue result ↔ All (IsInstance premise.now.rows formulas.now) instances.now }
{
    for instance in instances {
        if !is_instance(premise, formulas, instance) {
            return false;
        }
    }
    true
}
