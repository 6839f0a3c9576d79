ghost use Rattle.std.specs.Prelude.{◌≤◌, length};
ghost use Rattle.std.specs.List.{zip};
ghost use Rattle.ras_system.specs.SystemFaults.{Answers, for_each, constant_checks, initial_checks};

use super::fault;
use super::known::is_one_sort;
use crate::system_fault::{SystemFault, SystemKind, SystemPlace};
use ras_logic::{ConstId, Schema, Shape, SortId};

/// The first fault of the initial constant of a variable.
fn check_constant(
    schema: &Schema,
    k: u16,
    sort: SortId,
    constant: Option<ConstId>,
) -> Result<(), SystemFault>
    ensures { Answers (constant_checks schema.now k (sort, constant)) result }
{
    let place = SystemPlace::Initial(k);
    let Some(c) = constant else {
        return Ok(());
    };
    let declared = schema.constants().get(c.n as usize).copied();
    if declared.is_none() {
        return fault(place, SystemKind::Range);
    }
    if !is_one_sort(Some(sort), declared) {
        return fault(place, SystemKind::Sort);
    }
    Ok(())
}

/// The first fault of the initial constants that belong to a variable.
fn check_constants(
    schema: &Schema,
    vars: &[SortId],
    constants: &[Option<ConstId>],
) -> Result<(), SystemFault>
    requires { length vars.now ≤ 64 }
    ensures { Answers (for_each (constant_checks schema.now) (zip vars.now constants.now)) result }
{
    for k in 0..vars.len().min(constants.len()) {
        check_constant(schema, k as u16, vars[k], constants[k])?;
    }
    Ok(())
}

/// The first fault of the initial constants, one for each variable.
pub fn check_initial(shape: &Shape, constants: &[Option<ConstId>]) -> Result<(), SystemFault>
    ensures { Answers (initial_checks shape.now constants.now) result }
{
    shape.known();
    let vars = shape.vars();
    check_constants(shape.schema(), vars, constants)?;
    if vars.len() != constants.len() {
        let both = vars.len().min(constants.len());
        return fault(SystemPlace::Initial(both as u16), SystemKind::Range);
    }
    Ok(())
}
