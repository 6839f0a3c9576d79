ghost use Rattle.std.specs.Prelude.{IfOk};
ghost use Rattle.ras_system.specs.Runs.{IsSafe};
ghost use Rattle.ras_evidence.specs.declared.value.Evidence.TheVariants.{Safe, Unsafe};
ghost use Rattle.ras_bundles.specs.declared.fault.BundleError.TheVariants as bundle;
ghost use Rattle.ras_check.specs.Judging.{IsComplete, IsGood};
ghost use Rattle.ras_cli.specs.Outcomes.{OfEvidenceFault, OfBundleError, Proves, IsVerdict, IsReplay, BundleComesTo};

use crate::outcome::{Outcome, Reason};
use ras_bundles::{BundleError, BundleKind, read_bundle};
use ras_check::{
    Invalid, Verdict, a_good_evidence_of_a_violation_suffices, a_good_evidence_of_safety_suffices,
    check, valid_line,
};
use ras_evidence::{Evidence, EvidenceFault};
use ras_logic::{Cube, List, RawDb, Shared, Tree};
use ras_steps::Run;
use ras_system::System;
use ras_violation::{ViolationError, replay_text};
use std::alloc::{AllocError, Global};

/// The refusal of bytes that are no text of an evidence.
pub fn of_fault<'a>(fault: EvidenceFault) -> Outcome<'a>
    ensures { OfEvidenceFault fault result }
{
    Outcome::NoEvidence {
        line: fault.line,
        reason: Reason::Fault(fault.kind),
    }
}

/// The refusal of a bundle whose system part denotes no system.
fn of_system_fault<'a>(line: u64, kind: BundleKind) -> Outcome<'a>
    ensures { OfBundleError (bundle.System line kind) result }
{
    Outcome::NoBundle { line, kind }
}

/// A certificate that is found good proves that the system is safe.
fn proves_safety(system: &System, formulas: &List<Shared<Cube>>, trees: &List<Tree>)
    requires { IsGood system.now (Safe formulas.now trees.now) }
    ensures { IsSafe system.now }
{
    system.known();
    a_good_evidence_of_safety_suffices();
}

/// A run that is found good proves that it is not.
fn proves_violation(system: &System, db: &RawDb, run: &Run)
    requires { IsGood system.now (Unsafe db.now run.now) }
    ensures { ¬ IsSafe system.now }
{
    a_good_evidence_of_a_violation_suffices();
}

/// An evidence that is found good proves what it says.
fn proves(system: &System, evidence: &Evidence)
    requires { IsGood system.now evidence.now }
    ensures { Proves evidence.now system.now }
{
    match evidence {
        Evidence::Safe { formulas, trees } => proves_safety(system, formulas, trees),
        Evidence::Unsafe { db, run } => proves_violation(system, db, run),
        Evidence::Unknown { .. } => {}
    }
}

/// The answer to an evidence that is found good.
fn valid<'a>(alloc: Global, system: &System, evidence: &Evidence) -> Result<Outcome<'a>, AllocError>
    requires { IsGood system.now evidence.now }
    ensures { IfOk result (IsVerdict system.now evidence.now) }
{
    proves(system, evidence);
    let text = Vec::from_slice(alloc, valid_line(evidence))?;
    Ok(Outcome::Done(text))
}

/// The verdict on an evidence.
pub fn judged<'a>(
    alloc: Global,
    system: &System,
    evidence: &Evidence,
) -> Result<Outcome<'a>, AllocError>
    requires { IsComplete evidence.now }
    ensures { IfOk result (IsVerdict system.now evidence.now) }
{
    match check(alloc, system, evidence)? {
        Verdict::Valid => valid(alloc, system, evidence),
        Verdict::Invalid(invalid) => Ok(Outcome::Invalid(invalid)),
    }
}

/// What the bytes of a bundle come to.
pub fn judged_bundle<'a>(alloc: Global, bytes: &[u8]) -> Result<Outcome<'a>, AllocError>
    ensures { IfOk result (BundleComesTo bytes.now) }
{
    match read_bundle(alloc, bytes) {
        Ok(bundle) => judged(alloc, &bundle.system, &bundle.evidence),
        Err(BundleError::System { line, kind }) => Ok(of_system_fault(line, kind)),
        Err(BundleError::Evidence(fault)) => Ok(of_fault(fault)),
        Err(BundleError::Memory(error)) => Err(error),
    }
}

fn replayed_run<'a>(
    alloc: Global,
    system: &System,
    db: &RawDb,
    run: &Run,
) -> Result<Outcome<'a>, AllocError>
    ensures { IfOk result (IsReplay system.now (Unsafe db.now run.now)) }
{
    match replay_text(alloc, system, db, run) {
        Ok(text) => Ok(Outcome::Done(text)),
        Err(ViolationError::Fault(fault)) => Ok(Outcome::Invalid(Invalid::Violation(fault))),
        Err(ViolationError::Memory(error)) => Err(error),
    }
}

/// What comes of the run of an evidence.
pub fn replayed<'a>(
    alloc: Global,
    system: &System,
    evidence: &Evidence,
) -> Result<Outcome<'a>, AllocError>
    ensures { IfOk result (IsReplay system.now evidence.now) }
{
    match evidence {
        Evidence::Unsafe { db, run } => replayed_run(alloc, system, db, run),
        Evidence::Safe { .. } | Evidence::Unknown { .. } => Ok(Outcome::NoEvidence {
            line: 1,
            reason: Reason::NoRun,
        }),
    }
}
