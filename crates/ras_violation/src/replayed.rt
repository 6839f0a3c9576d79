ghost use Rattle.std.specs.Prelude.{◌≡◌, unwrap_or, IfOk, IfErr, OnOk};
ghost use Rattle.ras_logic.specs.Databases.{IsDatabase};
ghost use Rattle.ras_system.specs.States.{IsInitial, MeetsAny};
ghost use Rattle.ras_violation.specs.Violations.{IsGoodViolation, MeetsNone};
ghost use Rattle.ras_violation.specs.ViolationFaults.{IsViolationFault, OnFault, OnEnd};
ghost use Rattle.ras_violation.specs.ReplayTexts.{AreWritten, IsGoalWritten, IsReplayText};

use crate::judging::{database, goal_met, next_state};
use crate::violation_fault::ViolationError;
use crate::writing::{put_goal, put_state};
use ras_database::Database;
use ras_logic::RawDb;
use ras_steps::Run;
use ras_system::{State, System};
use std::alloc::Global;

/// The state that the steps so far led to.
fn reached<'a>(last: &'a Option<State>, start: &'a State) -> &'a State
    ensures { result.now ≡ unwrap_or last.now start.now }
{
    match last {
        Some(state) => state,
        None => start,
    }
}

/// The lines of the states of a run. The last of them is the answer, or none where the run has no steps.
fn put_states(
    out: &mut Vec<u8>,
    alloc: Global,
    db: &Database,
    system: &System,
    run: &Run,
) -> Result<Option<State>, ViolationError>
    requires database { IsDatabase system.now.shape.schema db.now }
    requires initial { IsInitial system.now db.now run.now.start }
    ensures states { IfOk result (λ last. AreWritten system.now db.now run.now.start run.now.choices (unwrap_or last run.now.start) out.old.items out.new.items) }
    ensures fault { IfErr result (λ e. OnFault e (IsViolationFault system.now db.now run.now)) }
{
    put_state(out, 0, &run.start)?;
    let choices = run.choices.as_slice();
    let mut last: Option<State> = None;
    for at in 0..choices.len() {
        let before = reached(&last, &run.start);
        let next = next_state(alloc, db, system, before, &choices[at], at as u32)?;
        put_state(out, at + 1, &next)?;
        last = Some(next);
    }
    Ok(last)
}

/// The line of the first goal that a state meets.
fn put_goal_met(
    out: &mut Vec<u8>,
    alloc: Global,
    db: &Database,
    system: &System,
    state: &State,
) -> Result<(), ViolationError>
    ensures goal { OnOk result (IsGoalWritten system.now db.now state.now out.old.items out.new.items) }
    ensures met { OnOk result (MeetsAny db.now state.now system.now.goals) }
    ensures end { IfErr result (λ e. OnEnd e (MeetsNone db.now state.now system.now.goals)) }
{
    let met = goal_met(alloc, db, system, state)?;
    put_goal(out, met.number, met.found.rows())?;
    Ok(())
}

/// The text of a violation: each state of the run, and the first goal that the last one meets. What is no violation is told
/// as by `check_violation`. One state beyond the first is kept, and another one while a step is made.
pub fn replay_text(
    alloc: Global,
    system: &System,
    db: &RawDb,
    run: &Run,
) -> Result<Vec<u8>, ViolationError>
    ensures text { IfOk result (λ text. IsReplayText system.now db.now run.now text.items) }
    ensures good { OnOk result (IsGoodViolation system.now db.now run.now) }
    ensures fault { IfErr result (λ e. OnFault e (IsViolationFault system.now db.now run.now)) }
{
    let db = database(alloc, system, db, run)?;
    let mut text = Vec::new(alloc);
    let last = put_states(&mut text, alloc, &db, system, run)?;
    put_goal_met(&mut text, alloc, &db, system, reached(&last, &run.start))?;
    Ok(text)
}
