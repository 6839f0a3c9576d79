ghost use Rattle.ras_lines.specs.Lines.{lines_of};
ghost use Rattle.ras_lines.specs.Fronts.{Reads, times};
ghost use Rattle.ras_journals.specs.JournalReading as first;

use crate::event_line::EventLine;
use ras_core::Journal;
use ras_lines::{Lines, Stop};
use std::alloc::Global;

/// As many events as are announced. What is only announced takes no room.
#[tactic(auto, using(ras_lines::proofs::Loops::times_laws))]
fn events(lines: &mut Lines<'_>, alloc: Global, count: u32) -> Result<Journal, Stop>
    ensures { Reads (times first.next_event count) (lines_of lines.old.rest.now) (lines_of lines.new.rest.now) (first.events_of result) }
{
    let mut journal = Journal::new(alloc);
    for _ in 0..count {
        let line: EventLine = lines.value(alloc)?;
        journal.make_room(1)?;
        journal.add(line.event);
    }
    Ok(journal)
}

/// `journal N`, and N events.
pub fn read_journal(lines: &mut Lines<'_>, alloc: Global) -> Result<Journal, Stop>
    ensures { Reads first.journal (lines_of lines.old.rest.now) (lines_of lines.new.rest.now) (first.events_of result) }
{
    let count = lines.count(b"journal")?;
    events(lines, alloc, count)
}
