ghost use Rattle.std.specs.Prelude.{◌≡◌, ◌↔◌, ◌⊎◌, ◌+◌, ◌<◌, [], length, slice_get, Some, All, IfOk, OnOk, IsTrue};
ghost use Rattle.std.specs.Bool.{OnTrue, OnFalse};
ghost use Rattle.ras_logic.specs.declared.literal.Literal.{Literal};
ghost use Rattle.ras_logic.specs.Formulas.{Fits, HasNoParam, IsCube};
ghost use Rattle.ras_split.specs.Among.{IsAmong};
ghost use Rattle.ras_cubes.specs.Reduced.{IsFrom, IsLeft, Follows, IsReduced, IsReducedTo, IsReducedCube};

use ras_closure::Closure;
use ras_logic::{Cube, List, Literal, Plain, Problem, Rows, Shape};
use std::alloc::{AllocError, Global};

/// Adds the literals from a place on.
fn add_from(
    alloc: Global,
    facts: &mut List<Literal>,
    literals: &[Literal],
    from: usize,
) -> Result<(), AllocError>
    ensures { OnOk result ((l : Literal) → IsAmong facts.new l ↔ (IsAmong facts.old l ⊎ IsFrom literals.now from l)) }
{
    for k in from..literals.len() {
        let literal = literals[k].copy(alloc)?;
        facts.push(literal)?;
    }
    Ok(())
}

/// Whether a literal of a problem is seen to follow from those that were kept and those behind it.
fn follows(
    alloc: Global,
    shape: &Shape,
    problem: &Problem,
    kept: &[Literal],
    place: usize,
) -> Result<bool, AllocError>
    requires fits { Fits shape.now problem.now }
    requires place { place < length problem.now.literals }
    requires kept { (l : Literal) → IsAmong kept.now l → IsAmong problem.now.literals l }
    ensures follows { IfOk result (λ b. OnTrue b ((l : Literal) → slice_get problem.now.literals place ≡ Some l → Follows shape.now problem.now (IsLeft kept.now problem.now.literals (place + 1)) l)) }
    ensures different { IfOk result (λ b. OnFalse b ((l : Literal) → slice_get problem.now.literals place ≡ Some l → IsAmong kept.now l → ⊥)) }
{
    shape.known();
    let literals = problem.literals.as_slice();
    let mut facts = List::new(alloc);
    add_from(alloc, &mut facts, kept, 0)?;
    add_from(alloc, &mut facts, literals, place + 1)?;
    let literal = literals[place].copy(alloc)?;
    facts.push(literal.opposite())?;
    let rows = problem.rows.copy(alloc)?;
    let params = problem.params.copy(alloc)?;
    let against = Problem {
        rows,
        params,
        literals: facts,
    };
    let closure = Closure::of(alloc, shape, &against)?;
    match closure {
        None => Ok(true),
        Some(closure) => {
            closure.known();
            Ok(false)
        }
    }
}

/// Keeps a literal of a problem, unless it follows from what is left.
fn keep_needed(
    alloc: Global,
    shape: &Shape,
    problem: &Problem,
    kept: &mut List<Literal>,
    place: usize,
) -> Result<(), AllocError>
    requires fits { Fits shape.now problem.now }
    requires place { place < length problem.now.literals }
    requires so_far { IsReducedTo shape.now problem.now place kept.old }
    ensures { OnOk result (IsReducedTo shape.now problem.now (place + 1) kept.new) }
{
    if follows(alloc, shape, problem, kept.as_slice(), place)? {
        return Ok(());
    }
    let literal = problem.literals.as_slice()[place].copy(alloc)?;
    kept.push(literal)?;
    Ok(())
}

/// The literals of a problem without those that follow from the others: each is tried against what is left.
pub fn reduce(alloc: Global, shape: &Shape, problem: &Problem) -> Result<List<Literal>, AllocError>
    requires { Fits shape.now problem.now }
    ensures { IfOk result (IsReduced shape.now problem.now) }
{
    let mut kept = List::new(alloc);
    for place in 0..problem.literals.len() {
        keep_needed(alloc, shape, problem, &mut kept, place)?;
    }
    Ok(kept)
}

/// A cube of literals without data parameters.
fn cube_with(rows: Rows, literals: List<Literal>) -> Cube
    requires { All HasNoParam literals }
    ensures { result ≡ record { rows = rows; params = []; literals = literals } }
{
    match Cube::new(rows, literals) {
        Ok(cube) => cube,
        Err(_) => unreachable!(),
    }
}

/// A cube without the literals that follow from the others.
pub fn reduced_cube(alloc: Global, shape: &Shape, full: &Problem) -> Result<Cube, AllocError>
    requires fits { Fits shape.now full.now }
    requires cube { IsCube full.now }
    ensures { IfOk result (IsReducedCube shape.now full.now) }
{
    let literals = reduce(alloc, shape, full)?;
    let rows = full.rows.copy(alloc)?;
    Ok(cube_with(rows, literals))
}
