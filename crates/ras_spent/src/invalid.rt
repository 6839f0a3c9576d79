ghost use Rattle.std.specs.Prelude.{◌≡◌, ◌++◌, IfOk, OnOk};
ghost use Rattle.ras_spent.specs.InvalidLines.{earlier_text, entry_text, invalid_text};

use crate::spent_fault::{EntryFault, SpentFault};
use ras_text::{put, put_word};
use ras_violation::{put_database, put_step};
use std::alloc::{AllocError, Global};

fn put_earlier(out: &mut Vec<u8>, number: u32) -> Result<(), AllocError>
    ensures { OnOk result (out.new.items ≡ out.old.items ++ earlier_text number) }
{
    put(out, b" start EARLIER")?;
    put_word(out, number as u64)?;
    put(out, b"\n")
}

fn put_entry_fault(out: &mut Vec<u8>, fault: EntryFault) -> Result<(), AllocError>
    ensures { OnOk result (out.new.items ≡ out.old.items ++ entry_text fault) }
{
    match fault {
        EntryFault::NotFitting => put(out, b" cube NOT_FITTING\n"),
        EntryFault::Initial => put(out, b" cube INITIAL\n"),
        EntryFault::Database(fault) => put_database(out, fault),
        EntryFault::StartNotFitting => put(out, b" start NOT_FITTING\n"),
        EntryFault::Outside => put(out, b" start OUTSIDE\n"),
        EntryFault::Earlier { number } => put_earlier(out, number),
        EntryFault::Step(fault) => put_step(out, fault),
        EntryFault::EndNotUnsafe => put(out, b" end NOT_UNSAFE\n"),
    }
}

fn put_fault(out: &mut Vec<u8>, fault: SpentFault) -> Result<(), AllocError>
    ensures { OnOk result (out.new.items ≡ out.old.items ++ invalid_text fault) }
{
    put(out, b"INVALID entry")?;
    put_word(out, fault.entry as u64)?;
    put_entry_fault(out, fault.fault)
}

/// The line that tells what is wrong with an evidence of a spent budget. A step that is refused for want of memory, which is
/// no such fault, has no line.
pub fn invalid_line(alloc: Global, fault: &SpentFault) -> Result<Vec<u8>, AllocError>
    ensures { IfOk result (λ text. text.items ≡ invalid_text fault.now) }
{
    let mut text = Vec::new(alloc);
    put_fault(&mut text, *fault)?;
    Ok(text)
}
