ghost use Rattle.ras_lines.specs.Lines.{lines_of};
ghost use Rattle.ras_lines.specs.Fronts.{Reads};
ghost use Rattle.ras_evidence.specs.EvidenceReading as first;

use crate::entries::{entries, entry};
use crate::header::Verdict;
use crate::read::Read;
use crate::safe::{SafeEvidence, safe_parts};
use crate::value::Evidence;
use ras_journals::read_journal;
use ras_lines::{Lines, Spelled, Stop, Words, line_count};
use ras_runs::{read_database, read_run};
use std::alloc::Global;

/// `evidence 1 safe`, `evidence 1 unsafe` or `evidence 1 unknown`.
#[derive(Drop)]
pub struct FirstLine {
    pub verdict: Verdict,
}

impl Spelled for FirstLine {
    ghost first = { first.first_line };

    fn read(words: &mut Words<'_>, alloc: Global) -> Result<FirstLine, Stop> {
        words.fixed(b"evidence 1 ")?;
        let verdict = Verdict::read(words, alloc)?;
        Ok(FirstLine { verdict })
    }
}

fn safe_evidence(lines: &mut Lines<'_>, alloc: Global) -> Result<Evidence, Stop>
    ensures { Reads first.safe_evidence (lines_of lines.old.rest.now) (lines_of lines.new.rest.now) result }
{
    let SafeEvidence { formulas, trees } = safe_parts(lines, alloc)?;
    Ok(Evidence::Safe { formulas, trees })
}

fn unsafe_evidence(lines: &mut Lines<'_>, alloc: Global) -> Result<Evidence, Stop>
    ensures { Reads first.unsafe_evidence (lines_of lines.old.rest.now) (lines_of lines.new.rest.now) result }
{
    let db = read_database(lines, alloc)?;
    let run = read_run(lines, alloc)?;
    lines.fixed(b"end")?;
    Ok(Evidence::Unsafe { db, run })
}

fn unknown_evidence(lines: &mut Lines<'_>, alloc: Global) -> Result<Evidence, Stop>
    ensures { Reads first.unknown_evidence (lines_of lines.old.rest.now) (lines_of lines.new.rest.now) result }
{
    let entries = entries(lines, alloc)?;
    let spill = entry(lines, alloc)?;
    lines.fixed(b"end")?;
    Ok(Evidence::Unknown { entries, spill })
}

/// From the first line to `end`.
fn any_evidence(lines: &mut Lines<'_>, alloc: Global) -> Result<Evidence, Stop>
    ensures { Reads first.evidence (lines_of lines.old.rest.now) (lines_of lines.new.rest.now) result }
{
    let line: FirstLine = lines.value(alloc)?;
    match line.verdict {
        Verdict::Safe => safe_evidence(lines, alloc),
        Verdict::Unsafe => unsafe_evidence(lines, alloc),
        Verdict::Unknown => unknown_evidence(lines, alloc),
    }
}

/// An evidence, and a journal behind it or no whole line.
pub fn whole_text(lines: &mut Lines<'_>, alloc: Global) -> Result<Read, Stop>
    ensures { Reads first.whole (lines_of lines.old.rest.now) (lines_of lines.new.rest.now) (first.read_as result) }
{
    let evidence = any_evidence(lines, alloc)?;
    if line_count(lines.rest) == 0 {
        return Ok(Read {
            evidence,
            journal: None,
        });
    }
    let journal = read_journal(lines, alloc)?;
    if line_count(lines.rest) > 0 {
        return Err(Stop::Misfit);
    }
    Ok(Read {
        evidence,
        journal: Some(journal),
    })
}
