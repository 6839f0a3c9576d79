ghost use Rattle.std.specs.Prelude.{IfOk, IfErr};
ghost use Rattle.ras_system.specs.Steps.{IsStep};
ghost use Rattle.ras_steps.specs.StepFaults.{IsStepFault};

use crate::refusal::refusal;
use crate::rows::state_after;
use crate::step_fault::StepFault;
use ras_database::Database;
use ras_system::{Choice, State, System};
use std::alloc::Global;

/// The state after the step by a choice, or the first fault. A choice names a transition of the system, for each of its row
/// parameters a row of the parameter's relation, no row twice, and for each data parameter an element of its sort, undef
/// included; and some disjunct of the guard holds. All terms have their values in the old state. Neither the database nor
/// the state need fit the system: what a term lacks counts as undef. Each row of the state is looked at once.
pub fn step(
    alloc: Global,
    db: &Database,
    system: &System,
    state: &State,
    choice: &Choice,
) -> Result<State, StepFault>
    ensures step { IfOk result (IsStep system.now db.now state.now choice.now) }
    ensures fault { IfErr result (IsStepFault system.now db.now state.now choice.now) }
{
    let Some(transition) = system.transitions().get(choice.transition as usize) else {
        return Err(StepFault::NoTransition);
    };
    if let Some(fault) = refusal(db, transition, state, choice) {
        return Err(fault);
    }
    match state_after(alloc, db, transition, state, choice) {
        Ok(after) => Ok(after),
        Err(error) => Err(StepFault::Memory(error)),
    }
}
