ghost use Rattle.std.specs.Prelude.{◌≡◌, unwrap_or, IfOk, IfErr};
ghost use Rattle.ras_system.specs.Runs.{IsRun};
ghost use Rattle.ras_steps.specs.ReplayFaults.{IsReplayFault};

use crate::replay_fault::ReplayFault;
use crate::run::Run;
use crate::step_fault::StepFault;
use crate::stepping::step;
use ras_database::Database;
use ras_logic::Plain;
use ras_system::{State, System};
use std::alloc::Global;

/// The state that the steps so far led to.
fn reached<'a>(last: &'a Option<State>, start: &'a State) -> &'a State
    ensures { result.now ≡ unwrap_or last.now start.now }
{
    match last {
        Some(state) => state,
        None => start,
    }
}

/// The last state of a run, or the first step that is refused. The steps are those of `step`, from the run's first state on.
/// Where memory for the answer of a run without steps is wanting, the number of the step is 0.
pub fn replay(
    alloc: Global,
    db: &Database,
    system: &System,
    run: &Run,
) -> Result<State, ReplayFault>
    ensures last { IfOk result (IsRun system.now db.now run.now.start run.now.choices) }
    ensures fault { IfErr result (IsReplayFault system.now db.now run.now.start run.now.choices) }
{
    let choices = run.choices.as_slice();
    let mut last: Option<State> = None;
    for at in 0..choices.len() {
        match step(alloc, db, system, reached(&last, &run.start), &choices[at]) {
            Ok(state) => last = Some(state),
            Err(fault) => {
                return Err(ReplayFault {
                    at: at as u32,
                    fault,
                });
            }
        }
    }
    match last {
        Some(state) => Ok(state),
        None => match run.start.copy(alloc) {
            Ok(state) => Ok(state),
            Err(error) => Err(ReplayFault {
                at: 0,
                fault: StepFault::Memory(error),
            }),
        },
    }
}
