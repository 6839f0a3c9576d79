ghost use Rattle.std.specs.Prelude.{◌<◌, All, length, IfOk};
ghost use Rattle.ras_logic.specs.Trees.{IsWhole};
ghost use Rattle.ras_evidence.specs.declared.value.Evidence.TheVariants.{Safe, Unsafe, Unknown};
ghost use Rattle.ras_check.specs.Judging.{IsComplete, AnswersCheck};

use crate::verdict::{Invalid, Verdict};
use ras_evidence::{Entry, Evidence};
use ras_logic::{Cube, List, RawDb, Shared, Tree};
use ras_safety::{SafetyError, check_safe};
use ras_spent::{SpentError, check_spent};
use ras_steps::Run;
use ras_system::System;
use ras_violation::{ViolationError, check_violation};
use std::alloc::{AllocError, Global};

fn judged_safe(
    alloc: Global,
    system: &System,
    formulas: &List<Shared<Cube>>,
    trees: &List<Tree>,
) -> Result<Verdict, AllocError>
    requires { All IsWhole trees.now }
    ensures { IfOk result (AnswersCheck system.now (Safe formulas.now trees.now)) }
{
    match check_safe(alloc, system, formulas.as_slice(), trees.as_slice()) {
        Ok(()) => Ok(Verdict::Valid),
        Err(SafetyError::Fault(fault)) => Ok(Verdict::Invalid(Invalid::Safe(fault))),
        Err(SafetyError::Memory(error)) => Err(error),
    }
}

fn judged_unsafe(
    alloc: Global,
    system: &System,
    db: &RawDb,
    run: &Run,
) -> Result<Verdict, AllocError>
    ensures { IfOk result (AnswersCheck system.now (Unsafe db.now run.now)) }
{
    match check_violation(alloc, system, db, run) {
        Ok(()) => Ok(Verdict::Valid),
        Err(ViolationError::Fault(fault)) => Ok(Verdict::Invalid(Invalid::Violation(fault))),
        Err(ViolationError::Memory(error)) => Err(error),
    }
}

fn judged_unknown(
    alloc: Global,
    system: &System,
    entries: &List<Entry>,
    spill: &Entry,
) -> Result<Verdict, AllocError>
    requires { 0 < length entries.now }
    ensures { IfOk result (AnswersCheck system.now (Unknown entries.now spill.now)) }
{
    match check_spent(alloc, system, entries, spill) {
        Ok(()) => Ok(Verdict::Valid),
        Err(SpentError::Fault(fault)) => Ok(Verdict::Invalid(Invalid::Spent(fault))),
        Err(SpentError::Memory(error)) => Err(error),
    }
}

/// Whether an evidence is good for a system, or what is wrong with it first. Each tree is whole, and a budget that was spent is
/// at least one.
pub fn check(alloc: Global, system: &System, evidence: &Evidence) -> Result<Verdict, AllocError>
    requires { IsComplete evidence.now }
    ensures { IfOk result (AnswersCheck system.now evidence.now) }
{
    match evidence {
        Evidence::Safe { formulas, trees } => judged_safe(alloc, system, formulas, trees),
        Evidence::Unsafe { db, run } => judged_unsafe(alloc, system, db, run),
        Evidence::Unknown { entries, spill } => judged_unknown(alloc, system, entries, spill),
    }
}
