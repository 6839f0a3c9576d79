ghost use Rattle.ras_lines.specs.Lines.{lines_of};
ghost use Rattle.ras_lines.specs.Fronts.{Reads, times};
ghost use Rattle.ras_evidence.specs.EvidenceReading as first;

use crate::value::Entry;
use ras_lines::{Lines, Spelled, Stop, Words};
use ras_logic::{Cube, List, Shared};
use ras_runs::{read_database, read_run};
use std::alloc::Global;

/// `budget B`: how many formulas were kept, at least one.
#[derive(Drop)]
pub struct Budget {
    pub count: u32,
}

impl Spelled for Budget {
    ghost first = { first.budget };

    fn read(words: &mut Words<'_>, _alloc: Global) -> Result<Budget, Stop> {
        words.fixed(b"budget")?;
        let count = words.next_number()?;
        if count == 0 {
            return Err(Stop::Misfit);
        }
        Ok(Budget { count })
    }
}

/// A cube line, a database and a run.
pub fn entry(lines: &mut Lines<'_>, alloc: Global) -> Result<Entry, Stop>
    ensures { Reads first.entry (lines_of lines.old.rest.now) (lines_of lines.new.rest.now) result }
{
    let cube: Shared<Cube> = lines.value(alloc)?;
    let db = read_database(lines, alloc)?;
    let run = read_run(lines, alloc)?;
    Ok(Entry { cube, db, run })
}

/// As many entries as are announced. What is only announced takes no room.
#[tactic(auto, using(ras_lines::proofs::Loops::times_laws))]
fn several(lines: &mut Lines<'_>, alloc: Global, count: u32) -> Result<List<Entry>, Stop>
    ensures { Reads (times first.entry count) (lines_of lines.old.rest.now) (lines_of lines.new.rest.now) result }
{
    let mut items = List::new(alloc);
    for _ in 0..count {
        let item = entry(lines, alloc)?;
        items.push(item)?;
    }
    Ok(items)
}

/// The budget, and as many entries.
pub fn entries(lines: &mut Lines<'_>, alloc: Global) -> Result<List<Entry>, Stop>
    ensures { Reads first.entries (lines_of lines.old.rest.now) (lines_of lines.new.rest.now) result }
{
    let budget: Budget = lines.value(alloc)?;
    several(lines, alloc, budget.count)
}
