ghost use Rattle.std.specs.Prelude.{◌≤◌, ◌↔◌, length, IsTrue, IfOk, IfErr, OnOk, IfSome, IfNone};
ghost use Rattle.ras_logic.specs.Formulas.{Fits};
ghost use Rattle.ras_system.specs.States.{Meets, MeetsAny};
ghost use Rattle.ras_spent.specs.Entries.{MeetsNoEntry, IsMetAtStart, LeadsToGoal, IsGoodEntry, IsGoodSpent};
ghost use Rattle.ras_spent.specs.EntryFaults.{IsFirstMetEntry, IsRefusal, IsRunFault, IsEntryFault, IsSpentFault, OnFault};

use crate::spent_fault::{EntryFault, SpentError, SpentFault};
use ras_database::Database;
use ras_entail::initial_meets;
use ras_evidence::Entry;
use ras_logic::{Cube, List, Plain, cube_fits};
use ras_steps::{ReplayFault, RowBuffer, Run, StepFault, meets, replay, state_fits};
use ras_system::{State, System};
use ras_violation::{ViolationError, goal_met};
use std::alloc::{AllocError, Global};

/// Whether an initial state of some database meets a formula.
fn is_met_at_start(alloc: Global, system: &System, cube: &Cube) -> Result<bool, AllocError>
    requires { Fits system.now.shape cube.now }
    ensures { IfOk result (λ met. IsTrue met ↔ IsMetAtStart system.now cube.now) }
{
    let Some(_) = initial_meets(alloc, system, cube)? else {
        return Ok(false);
    };
    Ok(true)
}

/// Whether a state meets a formula of any number of rows.
fn is_met(alloc: Global, db: &Database, state: &State, cube: &Cube) -> Result<bool, AllocError>
    ensures { IfOk result (λ met. IsTrue met ↔ Meets db.now state.now cube.now) }
{
    cube.known();
    let mut found = RowBuffer::new(alloc, cube.rows().len() as u32)?;
    Ok(meets(db, state, cube, &mut found))
}

/// The first of the entries whose formula a state meets.
fn first_met(
    alloc: Global,
    db: &Database,
    state: &State,
    entries: &[Entry],
) -> Result<Option<u32>, AllocError>
    requires { length entries.now ≤ 4294967295 }
    ensures first { IfOk result (λ o. IfSome o (IsFirstMetEntry db.now state.now entries.now)) }
    ensures none { IfOk result (λ o. IfNone o (MeetsNoEntry db.now state.now entries.now)) }
{
    for (number, entry) in entries.iter().enumerate() {
        if is_met(alloc, db, state, entry.cube.get())? {
            return Ok(Some(number as u32));
        }
    }
    Ok(None)
}

/// The fault of a run whose step is refused. Want of memory is none, and is handed on.
fn refused(fault: ReplayFault) -> Result<EntryFault, AllocError>
    ensures { IfOk result (λ f. IsRefusal fault f) }
{
    match fault.fault {
        StepFault::Memory(error) => Err(error),
        _ => Ok(EntryFault::Step(fault)),
    }
}

/// Whether a state meets a goal.
fn meets_goal(
    alloc: Global,
    system: &System,
    db: &Database,
    state: &State,
) -> Result<bool, AllocError>
    ensures { IfOk result (λ met. IsTrue met ↔ MeetsAny db.now state.now system.now.goals) }
{
    match goal_met(alloc, db, system, state) {
        Ok(_) => Ok(true),
        Err(ViolationError::Fault(_)) => Ok(false),
        Err(ViolationError::Memory(error)) => Err(error),
    }
}

/// What is wrong with a run first: a step that is refused, or that its last state meets no goal.
fn run_fault(
    alloc: Global,
    system: &System,
    db: &Database,
    run: &Run,
) -> Result<Option<EntryFault>, AllocError>
    ensures none { IfOk result (λ o. IfNone o (LeadsToGoal system.now db.now run.now)) }
    ensures fault { IfOk result (λ o. IfSome o (IsRunFault system.now db.now run.now)) }
{
    match replay(alloc, db, system, run) {
        Ok(last) => {
            if meets_goal(alloc, system, db, &last)? {
                Ok(None)
            } else {
                Ok(Some(EntryFault::EndNotUnsafe))
            }
        }
        Err(fault) => Ok(Some(refused(fault)?)),
    }
}

/// What is wrong with an entry first, behind these entries.
fn entry_fault(
    alloc: Global,
    system: &System,
    earlier: &[Entry],
    entry: &Entry,
) -> Result<Option<EntryFault>, AllocError>
    requires { length earlier.now ≤ 4294967295 }
    ensures good { IfOk result (λ o. IfNone o (IsGoodEntry system.now earlier.now entry.now)) }
    ensures fault { IfOk result (λ o. IfSome o (IsEntryFault system.now earlier.now entry.now)) }
{
    let cube = entry.cube.get();
    let start = &entry.run.start;
    if !cube_fits(system.shape(), cube) {
        return Ok(Some(EntryFault::NotFitting));
    }
    if is_met_at_start(alloc, system, cube)? {
        return Ok(Some(EntryFault::Initial));
    }
    let db = match Database::new(system.shape().schema(), entry.db.copy(alloc)?) {
        Ok(db) => db,
        Err(fault) => return Ok(Some(EntryFault::Database(fault))),
    };
    if !state_fits(system, &db, start) {
        return Ok(Some(EntryFault::StartNotFitting));
    }
    if !is_met(alloc, &db, start, cube)? {
        return Ok(Some(EntryFault::Outside));
    }
    if let Some(number) = first_met(alloc, &db, start, earlier)? {
        return Ok(Some(EntryFault::Earlier { number }));
    }
    run_fault(alloc, system, &db, &entry.run)
}

/// Whether the entries that spent a budget and the spill, which came after them, are good for a system; or what is wrong with
/// the first that is not. They are judged alike, one after the other; the formulas before an entry are looked up where they
/// stand.
pub fn check_spent(
    alloc: Global,
    system: &System,
    entries: &List<Entry>,
    spill: &Entry,
) -> Result<(), SpentError>
    ensures good { OnOk result (IsGoodSpent system.now entries.now spill.now) }
    ensures fault { IfErr result (λ e. OnFault e (IsSpentFault system.now entries.now spill.now)) }
{
    let entries = entries.as_slice();
    for number in 0..entries.len() {
        if let Some(fault) = entry_fault(alloc, system, &entries[..number], &entries[number])? {
            return Err(SpentError::Fault(SpentFault {
                entry: number as u32,
                fault,
            }));
        }
    }
    match entry_fault(alloc, system, entries, spill)? {
        None => Ok(()),
        Some(fault) => Err(SpentError::Fault(SpentFault {
            entry: entries.len() as u32,
            fault,
        })),
    }
}
