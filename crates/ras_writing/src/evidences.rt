ghost use Rattle.std.specs.Prelude.{◌≡◌, ◌++◌, List, IfOk, OnOk};
ghost use Rattle.ras_lines.specs.Lines.{written};
ghost use Rattle.std.specs.Option.{option_map};
ghost use Rattle.ras_evidence.specs.EvidenceTexts.{text_lines, IsWritableText, IsTextOf};
ghost use Rattle.ras_writing.specs.Pieces as piece;
ghost use Rattle.ras_writing.specs.EventPieces as event_piece;

use crate::put::{Written, put_section};
use crate::runs::{put_database, put_run};
use ras_core::Journal;
use ras_evidence::{Entry, Evidence};
use ras_logic::{Cube, List, RawDb, Shared, Tree};
use ras_steps::Run;
use ras_text::put;
use std::alloc::{AllocError, Global};

impl Written for Entry {
    ghost text = { piece.entry };

    fn write(&self, out: &mut Vec<u8>) -> Result<(), AllocError> {
        self.cube.write(out)?;
        put_database(out, &self.db)?;
        put_run(out, &self.run)
    }
}

fn put_safe(
    out: &mut Vec<u8>,
    formulas: &List<Shared<Cube>>,
    trees: &List<Tree>,
) -> Result<(), AllocError>
    ensures { OnOk result (out.new.items ≡ out.old.items ++ piece.safe formulas.now trees.now) }
{
    put(out, b"evidence 1 safe\n")?;
    put_section(out, b"formulas", formulas.as_slice())?;
    put_section(out, b"trees", trees.as_slice())?;
    put(out, b"end\n")
}

fn put_unsafe(out: &mut Vec<u8>, db: &RawDb, run: &Run) -> Result<(), AllocError>
    ensures { OnOk result (out.new.items ≡ out.old.items ++ piece.unsafe_run db.now run.now) }
{
    put(out, b"evidence 1 unsafe\n")?;
    put_database(out, db)?;
    put_run(out, run)?;
    put(out, b"end\n")
}

fn put_unknown(out: &mut Vec<u8>, entries: &List<Entry>, spill: &Entry) -> Result<(), AllocError>
    ensures { OnOk result (out.new.items ≡ out.old.items ++ piece.unknown entries.now spill.now) }
{
    put(out, b"evidence 1 unknown\n")?;
    put_section(out, b"budget", entries.as_slice())?;
    spill.write(out)?;
    put(out, b"end\n")
}

fn put_evidence(out: &mut Vec<u8>, evidence: &Evidence) -> Result<(), AllocError>
    ensures { OnOk result (out.new.items ≡ out.old.items ++ piece.evidence evidence.now) }
{
    match evidence {
        Evidence::Safe { formulas, trees } => put_safe(out, formulas, trees),
        Evidence::Unsafe { db, run } => put_unsafe(out, db, run),
        Evidence::Unknown { entries, spill } => put_unknown(out, entries, spill),
    }
}

/// The lines of a journal, or none.
fn put_journal(out: &mut Vec<u8>, journal: Option<&Journal>) -> Result<(), AllocError>
    ensures { OnOk result (out.new.items ≡ out.old.items ++ event_piece.journal (option_map (λ j. j.now.events) journal.entry)) }
{
    match journal {
        Some(journal) => put_section(out, b"journal", journal.events()),
        None => Ok(()),
    }
}

/// The lines of the evidence and of the journal behind it, each with its end. They are their text where it can be written: its
/// trees are whole, its lists have fewer than 2^32 items, and an evidence of UNKNOWN has at least one entry before the spill.
pub fn write_evidence(
    alloc: Global,
    evidence: &Evidence,
    journal: Option<&Journal>,
) -> Result<Vec<u8>, AllocError>
    ensures lines { IfOk result (λ bytes. bytes.items ≡ written (text_lines (evidence.now, option_map (λ j. j.now.events) journal.entry))) }
    ensures text { IfOk result (λ bytes. IsWritableText (evidence.now, option_map (λ j. j.now.events) journal.entry)
        → IsTextOf bytes.items (evidence.now, option_map (λ j. j.now.events) journal.entry)) }
{
    let mut out = Vec::new(alloc);
    put_evidence(&mut out, evidence)?;
    put_journal(&mut out, journal)?;
    Ok(out)
}
