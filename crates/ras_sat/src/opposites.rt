ghost use Rattle.std.specs.Prelude.{◌≡◌, ◌<◌, ◌^◌, All, IfOk, length};
ghost use Rattle.ras_logic.specs.Formulas.{Fits, negated, replace};
ghost use Rattle.ras_logic.specs.Refutations.{chosen_row};
ghost use Rattle.ras_sat.specs.Instances.{IsInstance};
ghost use Rattle.ras_sat.specs.Tasks.{opposites_of_literals, AreOpposites, AreFirstOpposites};

use crate::instance::Instance;
use ras_logic::{Cube, List, Literal, Problem, Shape, Shared};
use std::alloc::{AllocError, Global};

/// The opposite of a formula's literal, with its rows replaced by the chosen ones.
fn opposite(alloc: Global, literal: &Literal, chosen: &[u32]) -> Result<Literal, AllocError>
    requires { All (λ k. k < 2 ^ 16) chosen.now }
    ensures { IfOk result (λ l. l ≡ negated (replace (chosen_row chosen.now) literal.now)) }
{
    let literal = literal.with_rows(alloc, chosen)?;
    Ok(literal.opposite())
}

/// The opposites of a formula's literals, with its rows replaced by the chosen ones.
fn opposites(
    alloc: Global,
    literals: &[Literal],
    chosen: &[u32],
) -> Result<List<Literal>, AllocError>
    requires { All (λ k. k < 2 ^ 16) chosen.now }
    ensures { IfOk result (λ ls. ls ≡ opposites_of_literals chosen.now literals.now) }
{
    let mut opposites = List::new(alloc);
    for literal in literals {
        opposites.push(opposite(alloc, literal, chosen)?)?;
    }
    Ok(opposites)
}

/// The opposites of an instance's literals.
fn opposites_of(
    alloc: Global,
    shape: &Shape,
    premise: &Problem,
    formulas: &[Shared<Cube>],
    instance: &Instance,
) -> Result<List<Literal>, AllocError>
    requires fits { All (Fits shape.now) formulas.now }
    requires instance { IsInstance premise.now.rows formulas.now instance.now }
    ensures { IfOk result (AreOpposites shape.now premise.now formulas.now instance.now) }
{
    // its contract says how many rows there are at most
    let _rows = premise.rows.len();
    let formula = formulas[instance.formula as usize].get();
    formula.known();
    opposites(alloc, formula.literals(), instance.rows.as_slice())
}

/// For each instance the opposites of its literals.
pub fn all_opposites(
    alloc: Global,
    shape: &Shape,
    premise: &Problem,
    formulas: &[Shared<Cube>],
    instances: &[Instance],
) -> Result<Vec<List<Literal>>, AllocError>
    requires fits { All (Fits shape.now) formulas.now }
    requires instances { All (IsInstance premise.now.rows formulas.now) instances.now }
    ensures as_many { IfOk result (λ r. length r.items ≡ length instances.now) }
    ensures opposites { IfOk result (λ r. AreFirstOpposites shape.now premise.now formulas.now instances.now r.items) }
{
    let mut all = Vec::new(alloc);
    for instance in instances {
        all.push(opposites_of(alloc, shape, premise, formulas, instance)?)?;
    }
    Ok(all)
}
