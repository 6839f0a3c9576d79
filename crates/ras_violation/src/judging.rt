ghost use Rattle.std.specs.Prelude.{◌≡◌, IfOk, IfErr, OnOk};
ghost use Rattle.ras_logic.specs.Databases.{IsDatabase};
ghost use Rattle.ras_system.specs.States.{IsInitial, MeetsAny};
ghost use Rattle.ras_system.specs.Steps.{IsStep};
ghost use Rattle.ras_system.specs.Runs.{IsRun};
ghost use Rattle.ras_steps.specs.StepFaults.{IsStepFault};
ghost use Rattle.ras_steps.specs.ReplayFaults.{IsMemory};
ghost use Rattle.ras_violation.specs.Violations.{IsGoodViolation, IsFirstMet, MeetsNone};
ghost use Rattle.ras_violation.specs.ViolationFaults.{IsViolationFault, OnFault, OnRefusal, OnEnd};

use crate::violation_fault::{ViolationError, ViolationFault};
use ras_database::Database;
use ras_logic::{Plain, RawDb};
use ras_steps::{
    ReplayFault, RowBuffer, Run, StepFault, is_initial, meets, replay, state_fits, step,
};
use ras_system::{Choice, State, System};
use std::alloc::Global;

/// The number of rows that a goal has at most.
const GOAL_ROWS: u32 = 8;

/// The first goal that a state meets, and the first rows by which it does.
#[derive(Drop)]
pub struct GoalMet {
    pub(crate) number: u32,
    pub(crate) found: RowBuffer,
}

/// The database of the numbers, where it is one and the run begins in it with an initial state.
pub(crate) fn database(
    alloc: Global,
    system: &System,
    db: &RawDb,
    run: &Run,
) -> Result<Database, ViolationError>
    ensures value { IfOk result (λ d. d ≡ db.now) }
    ensures database { OnOk result (IsDatabase system.now.shape.schema db.now) }
    ensures initial { OnOk result (IsInitial system.now db.now run.now.start) }
    ensures fault { IfErr result (λ e. OnFault e (IsViolationFault system.now db.now run.now)) }
{
    let db = match Database::new(system.shape().schema(), db.copy(alloc)?) {
        Ok(db) => db,
        Err(fault) => return Err(ViolationError::Fault(ViolationFault::Database(fault))),
    };
    if !state_fits(system, &db, &run.start) {
        return Err(ViolationError::Fault(ViolationFault::StartNotFitting));
    }
    if !is_initial(system, &run.start, &db) {
        return Err(ViolationError::Fault(ViolationFault::StartNotInitial));
    }
    Ok(db)
}

/// The error of a run with a step that is refused.
fn refused(fault: ReplayFault) -> ViolationError
    ensures { OnRefusal result (λ f. (f ≡ fault) × (¬ IsMemory fault.fault)) }
{
    match fault.fault {
        StepFault::Memory(error) => ViolationError::Memory(error),
        _ => ViolationError::Fault(ViolationFault::Step(fault)),
    }
}

/// The state after a step, the step of the run of that number.
pub(crate) fn next_state(
    alloc: Global,
    db: &Database,
    system: &System,
    state: &State,
    choice: &Choice,
    at: u32,
) -> Result<State, ViolationError>
    ensures step { IfOk result (IsStep system.now db.now state.now choice.now) }
    ensures fault { IfErr result (λ e. OnRefusal e (λ f. (f.at ≡ at) × IsStepFault system.now db.now state.now choice.now f.fault × (¬ IsMemory f.fault))) }
{
    match step(alloc, db, system, state, choice) {
        Ok(next) => Ok(next),
        Err(fault) => Err(refused(ReplayFault { at, fault })),
    }
}

/// The last state of a run.
fn last_state(
    alloc: Global,
    db: &Database,
    system: &System,
    run: &Run,
) -> Result<State, ViolationError>
    requires database { IsDatabase system.now.shape.schema db.now }
    requires initial { IsInitial system.now db.now run.now.start }
    ensures last { IfOk result (IsRun system.now db.now run.now.start run.now.choices) }
    ensures fault { IfErr result (λ e. OnFault e (IsViolationFault system.now db.now run.now)) }
{
    match replay(alloc, db, system, run) {
        Ok(last) => Ok(last),
        Err(fault) => Err(refused(fault)),
    }
}

/// The first goal that a state meets.
pub fn goal_met(
    alloc: Global,
    db: &Database,
    system: &System,
    state: &State,
) -> Result<GoalMet, ViolationError>
    ensures met { IfOk result (λ g. IsFirstMet db.now state.now system.now.goals g.number g.found.rows) }
    ensures goal { OnOk result (MeetsAny db.now state.now system.now.goals) }
    ensures end { IfErr result (λ e. OnEnd e (MeetsNone db.now state.now system.now.goals)) }
{
    system.known();
    let mut found = RowBuffer::new(alloc, GOAL_ROWS)?;
    for (number, goal) in system.goals().iter().enumerate() {
        if meets(db, state, goal, &mut found) {
            return Ok(GoalMet {
                number: number as u32,
                found,
            });
        }
    }
    Err(ViolationError::Fault(ViolationFault::EndNotUnsafe))
}

/// Whether a database and a run are a violation of a system; or what is wrong with them first.
pub fn check_violation(
    alloc: Global,
    system: &System,
    db: &RawDb,
    run: &Run,
) -> Result<(), ViolationError>
    ensures good { OnOk result (IsGoodViolation system.now db.now run.now) }
    ensures fault { IfErr result (λ e. OnFault e (IsViolationFault system.now db.now run.now)) }
{
    let db = database(alloc, system, db, run)?;
    let last = last_state(alloc, &db, system, run)?;
    goal_met(alloc, &db, system, &last)?;
    Ok(())
}
