ghost use Rattle.std.specs.Prelude.{◌≡◌, ◌++◌, IfOk, OnOk};
ghost use Rattle.ras_violation.specs.InvalidLines.{database_kind as the_kind, step_kind, database_text, step_text, fault_text, invalid_text};

use crate::violation_fault::ViolationFault;
use ras_database::DbFault;
use ras_steps::{ReplayFault, StepFault};
use ras_text::{put, put_word};
use std::alloc::{AllocError, Global};

fn database_kind(fault: DbFault) -> &'static [u8]
    ensures { result.now ≡ the_kind fault }
{
    match fault {
        DbFault::WrongLength { .. } => b"WRONG_LENGTH",
        DbFault::OutOfRange { .. } => b"OUT_OF_RANGE",
        DbFault::UndefImage { .. } => b"UNDEF_IMAGE",
        DbFault::ConstantClash { .. } => b"CONSTANT_CLASH",
    }
}

/// The word of a fault of a step. Want of memory has none, and is handed on.
fn put_step_kind(out: &mut Vec<u8>, fault: StepFault) -> Result<(), AllocError>
    ensures { OnOk result (out.new.items ≡ out.old.items ++ step_kind fault) }
{
    match fault {
        StepFault::NoTransition => put(out, b"NO_TRANSITION"),
        StepFault::WrongCount => put(out, b"WRONG_COUNT"),
        StepFault::RowOutside { .. } => put(out, b"ROW_OUTSIDE"),
        StepFault::RowRepeated { .. } => put(out, b"ROW_REPEATED"),
        StepFault::ValueOutside { .. } => put(out, b"VALUE_OUTSIDE"),
        StepFault::GuardFalse => put(out, b"GUARD_FALSE"),
        StepFault::Memory(error) => Err(error),
    }
}

/// ` step J KIND` and the end of the line.
pub fn put_step(out: &mut Vec<u8>, fault: ReplayFault) -> Result<(), AllocError>
    ensures { OnOk result (out.new.items ≡ out.old.items ++ step_text fault) }
{
    put(out, b" step")?;
    put_word(out, fault.at as u64)?;
    put(out, b" ")?;
    put_step_kind(out, fault.fault)?;
    put(out, b"\n")
}

/// ` database KIND` and the end of the line.
pub fn put_database(out: &mut Vec<u8>, fault: DbFault) -> Result<(), AllocError>
    ensures { OnOk result (out.new.items ≡ out.old.items ++ database_text fault) }
{
    put(out, b" database ")?;
    put(out, database_kind(fault))?;
    put(out, b"\n")
}

fn put_fault(out: &mut Vec<u8>, fault: ViolationFault) -> Result<(), AllocError>
    ensures { OnOk result (out.new.items ≡ out.old.items ++ fault_text fault) }
{
    match fault {
        ViolationFault::Database(fault) => put_database(out, fault),
        ViolationFault::StartNotFitting => put(out, b" start NOT_FITTING\n"),
        ViolationFault::StartNotInitial => put(out, b" start NOT_INITIAL\n"),
        ViolationFault::Step(fault) => put_step(out, fault),
        ViolationFault::EndNotUnsafe => put(out, b" end NOT_UNSAFE\n"),
    }
}

/// The line that tells a fault of an evidence. A step that is refused for want of memory, which is no such fault, has no line.
pub fn invalid_line(alloc: Global, fault: &ViolationFault) -> Result<Vec<u8>, AllocError>
    ensures { IfOk result (λ text. text.items ≡ invalid_text fault.now) }
{
    let mut text = Vec::new(alloc);
    put(&mut text, b"INVALID")?;
    put_fault(&mut text, *fault)?;
    Ok(text)
}
