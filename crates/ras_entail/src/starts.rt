ghost use Rattle.std.specs.Prelude.{IfOk, IfSome, IfNone};
ghost use Rattle.ras_logic.specs.Formulas.{Fits};
ghost use Rattle.ras_closure.specs.Closings.{IsClosureOf};
ghost use Rattle.ras_entail.specs.Starts.{IsModelState, MeetsAtStart, NoneMeetsAtStart};

use crate::witnesses::witness_of;
use ras_closure::Closure;
use ras_logic::{Cube, Problem, Shape};
use ras_obligations::initial_premise;
use ras_steps::Witness;
use ras_system::System;
use std::alloc::{AllocError, Global};

/// A database and a state with just the problem's rows, by values that satisfy the problem.
fn model_state(
    alloc: Global,
    shape: &Shape,
    problem: &Problem,
    closure: &Closure,
) -> Result<Witness, AllocError>
    requires fits { Fits shape.now problem.now }
    requires closure { IsClosureOf shape.now problem.now closure.now }
    ensures { IfOk result (IsModelState shape.now problem.now) }
{
    let model = closure.model(alloc)?;
    witness_of(alloc, shape, problem, model)
}

/// An initial state, with a database, that meets the cube; none where in no database an initial state does. The state has
/// just the cube's rows. It is found without a search: by the closure of the cube's literals with the initial values and
/// undef cells.
pub fn initial_meets(
    alloc: Global,
    system: &System,
    cube: &Cube,
) -> Result<Option<Witness>, AllocError>
    requires { Fits system.now.shape cube.now }
    ensures some { IfOk result (λ o. IfSome o (MeetsAtStart system.now cube.now)) }
    ensures none { IfOk result (λ o. IfNone o (NoneMeetsAtStart system.now cube.now)) }
{
    system.known();
    let premise = initial_premise(alloc, system, cube)?;
    match Closure::of(alloc, system.shape(), &premise)? {
        None => Ok(None),
        Some(closure) => {
            let witness = model_state(alloc, system.shape(), &premise, &closure)?;
            Ok(Some(witness))
        }
    }
}
