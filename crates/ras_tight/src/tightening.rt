ghost use Rattle.std.specs.Prelude.{◌≡◌, ◌+◌, ◌<◌, ◌≤◌, ◌++◌, length, drop, All, IfOk, OnOk};
ghost use Rattle.std.specs.Bool.{OnTrue, OnFalse};
ghost use Rattle.ras_logic.specs.Formulas.{Fits};
ghost use Rattle.ras_entail.specs.Entailment.{IsAmong};
ghost use Rattle.ras_tight.specs.Tightened.{IsTightened, SomeEscapes};
ghost use Rattle.ras_tight.specs.Tightening.{IsTightUpTo, left_of};

use ras_entail::{Entail, entails};
use ras_logic::{Cube, List, Literal, Plain, Problem, Shape, Shared};
use std::alloc::{AllocError, Global};

/// Adds copies of the literals from a place on.
fn add_from(
    alloc: Global,
    literals: &[Literal],
    place: usize,
    all: &mut List<Literal>,
) -> Result<(), AllocError>
    requires { place ≤ length literals.now }
    ensures { OnOk result (all.new ≡ all.old ++ drop place literals.now) }
{
    for literal in &literals[place..] {
        all.push(literal.copy(alloc)?)?;
    }
    Ok(())
}

/// The formula with the literals that were kept, and its own from a place on.
fn rest_of(
    alloc: Global,
    whole: &Problem,
    kept: &List<Literal>,
    place: usize,
) -> Result<Problem, AllocError>
    requires { place ≤ length whole.now.literals }
    ensures { IfOk result (λ p. p ≡ left_of whole.now kept.now place) }
{
    let mut literals = kept.copy(alloc)?;
    add_from(alloc, whole.literals.as_slice(), place, &mut literals)?;
    Ok(Problem {
        rows: whole.rows.copy(alloc)?,
        params: whole.params.copy(alloc)?,
        literals,
    })
}

/// Whether the literal before a place can be left out: the states of what remains are among the list.
fn is_idle(
    alloc: Global,
    shape: &Shape,
    rest: &Problem,
    list: &[Shared<Cube>],
) -> Result<bool, AllocError>
    requires rest { Fits shape.now rest.now }
    requires list { All (Fits shape.now) list.now }
    requires few { length list.now ≤ 4294967295 }
    ensures idle { IfOk result (λ b. OnTrue b (IsAmong shape.now rest.now list.now)) }
    ensures needed { IfOk result (λ b. OnFalse b (SomeEscapes shape.now rest.now list.now)) }
{
    match entails(alloc, shape, rest, list)? {
        Entail::Yes(_) => Ok(true),
        Entail::Escape(_) => Ok(false),
    }
}

/// Keeps the literal at a place, unless it can be left out.
fn keep_needed(
    alloc: Global,
    shape: &Shape,
    whole: &Problem,
    list: &[Shared<Cube>],
    place: usize,
    kept: &mut List<Literal>,
) -> Result<(), AllocError>
    requires fits { Fits shape.now whole.now }
    requires list { All (Fits shape.now) list.now }
    requires few { length list.now ≤ 4294967295 }
    requires place { place < length whole.now.literals }
    requires so_far { IsTightUpTo shape.now whole.now list.now place kept.old }
    ensures { OnOk result (IsTightUpTo shape.now whole.now list.now (place + 1) kept.new) }
{
    let literals = whole.literals.as_slice();
    let literal = &literals[place];
    let rest = rest_of(alloc, whole, kept, place + 1)?;
    if is_idle(alloc, shape, &rest, list)? {
        return Ok(());
    }
    kept.push(literal.copy(alloc)?)?;
    Ok(())
}

/// The literals of a formula without those that can be left out, one after the other.
fn needed_literals(
    alloc: Global,
    shape: &Shape,
    whole: &Problem,
    list: &[Shared<Cube>],
) -> Result<List<Literal>, AllocError>
    requires fits { Fits shape.now whole.now }
    requires list { All (Fits shape.now) list.now }
    requires few { length list.now ≤ 4294967295 }
    requires among { IsAmong shape.now whole.now list.now }
    ensures { IfOk result (IsTightUpTo shape.now whole.now list.now (length whole.now.literals)) }
{
    let mut kept = List::new(alloc);
    for place in 0..whole.literals.len() {
        keep_needed(alloc, shape, whole, list, place, &mut kept)?;
    }
    Ok(kept)
}

/// The cube without the literals that can be left out. The states of the cube are among those of the list, and so are those of
/// what remains; whichever literal of that is left out, some state is not. Each literal is tried once, in order, by a
/// question of entailment.
pub fn tighten(
    alloc: Global,
    shape: &Shape,
    cube: &Cube,
    list: &[Shared<Cube>],
) -> Result<Cube, AllocError>
    requires fits { Fits shape.now cube.now }
    requires list { All (Fits shape.now) list.now }
    requires few { length list.now ≤ 4294967295 }
    requires among { IsAmong shape.now cube.now list.now }
    ensures { IfOk result (IsTightened shape.now cube.now list.now) }
{
    cube.known();
    let whole = cube.problem(alloc)?;
    let literals = needed_literals(alloc, shape, &whole, list)?;
    match Cube::new(whole.rows, literals) {
        Ok(tight) => Ok(tight),
        Err(_) => unreachable!(),
    }
}
