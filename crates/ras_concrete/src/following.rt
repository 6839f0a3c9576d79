ghost use Rattle.std.specs.Prelude.{◌≡◌, ◌<◌, length, slice_get, Some, IfOk};
ghost use Rattle.ras_logic.specs.Formulas.{Fits};
ghost use Rattle.ras_system.specs.declared.state.State.{State};
ghost use Rattle.ras_system.specs.declared.transition.Transition.{Transition};
ghost use Rattle.ras_system.specs.Steps.{IsStep};
ghost use Rattle.ras_extension.specs.Reaching.{IsStateIn, Leads};
ghost use Rattle.ras_backwards.specs.Leading.{choice_by};
ghost use Rattle.ras_concrete.specs.Concretes.{IsStepBy, IsLed};

use crate::extending::{There, met_there};
use crate::here::{StepHere, led_here};
use crate::values::listed;
use ras_backwards::a_problem_gives_its_step;
use ras_database::Database;
use ras_extension::extensions_compose;
use ras_logic::{Cube, List};
use ras_preimage::pre;
use ras_steps::{StepFault, a_fault_is_no_step, step};
use ras_system::{Choice, State, System};
use std::alloc::{AllocError, Global};

/// A step from a state in a database that extends its own, and the state that it leads to.
#[derive(Drop)]
pub struct Led {
    pub db: Database,
    pub choice: Choice,
    pub next: State,
}

/// The choice of the first of the rows, as many as the transition has row parameters, and of the elements.
fn choice_of(
    alloc: Global,
    system: &System,
    transition: u16,
    rows: &[u32],
    values: List<u32>,
) -> Result<Choice, AllocError>
    requires { transition < length system.now.transitions }
    ensures { IfOk result (λ c. (t : Transition) → slice_get system.now.transitions transition ≡ Some t → c ≡ choice_by transition t rows.now values) }
{
    let count = system.transitions()[transition as usize].rows.len();
    let rows = rows.get(..count).unwrap_or(rows);
    Ok(Choice {
        transition,
        rows: listed(alloc, rows)?,
        values,
    })
}

/// The state after a step that there is.
fn state_after(
    alloc: Global,
    system: &System,
    db: &Database,
    state: &State,
    choice: &Choice,
) -> Result<State, AllocError>
    requires { (next : State) × IsStep system.now db.now state.now choice.now next }
    ensures { IfOk result (IsStep system.now db.now state.now choice.now) }
{
    a_fault_is_no_step();
    match step(alloc, db, system, state, choice) {
        Ok(next) => Ok(next),
        Err(StepFault::Memory(error)) => Err(error),
        Err(_) => unreachable!(),
    }
}

/// The step of a transition by the rows and elements by which the state meets a problem of a preimage.
fn led_there(
    alloc: Global,
    system: &System,
    state: &State,
    transition: u16,
    there: There,
) -> Result<Led, AllocError>
    requires transition { transition < length system.now.transitions }
    requires step { IsStepBy system.now there.db state.now transition there.rows there.params }
    ensures db { IfOk result (λ led. led.db ≡ there.db) }
    ensures by { IfOk result (λ led. led.choice.transition ≡ transition) }
    ensures step { IfOk result (λ led. IsStep system.now there.db state.now led.choice led.next) }
    ensures choice { IfOk result (λ led. (t : Transition) → slice_get system.now.transitions transition ≡ Some t → led.choice ≡ choice_by transition t there.rows there.params) }
{
    let There { db, rows, params } = there;
    let choice = choice_of(alloc, system, transition, rows.as_slice(), params)?;
    let next = state_after(alloc, system, &db, state, &choice)?;
    Ok(Led { db, choice, next })
}

/// A step by the transition from the state to one that meets the cube. It is made in the state's own database where it is found
/// there, and else in one that extends it.
pub fn lead(
    alloc: Global,
    system: &System,
    db: Database,
    state: &State,
    transition: u16,
    cube: &Cube,
) -> Result<Led, AllocError>
    requires fits { Fits system.now.shape cube.now }
    requires state { IsStateIn system.now db state.now }
    requires leads { Leads system.now db state.now transition cube.now }
    ensures { IfOk result (IsLed system.now db state.now transition cube.now) }
{
    system.known();
    cube.known();
    a_problem_gives_its_step();
    extensions_compose();
    let problems = pre(alloc, system, transition, cube)?;
    if let Some(StepHere { choice, next }) = led_here(
        alloc,
        system,
        &db,
        state,
        transition,
        problems.as_slice(),
        cube,
    )? {
        return Ok(Led { db, choice, next });
    }
    for problem in problems.as_slice() {
        if let Some(there) = met_there(alloc, system.shape(), &db, state, problem)? {
            return led_there(alloc, system, state, transition, there);
        }
    }
    unreachable!()
}
