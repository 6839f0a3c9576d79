ghost use Rattle.ras_lines.specs.Lines.{lines_of};
ghost use Rattle.ras_lines.specs.Fronts.{Reads, times};
ghost use Rattle.ras_lines.specs.Sections.{at_line, numbers, section};

use ras_lines::{Lines, Stop};
use ras_logic::List;
use std::alloc::Global;

/// As many lines of numbers as are announced. What is only announced takes no room.
#[tactic(auto, using(ras_lines::proofs::Loops::times_laws))]
fn several(
    lines: &mut Lines<'_>,
    alloc: Global,
    word: &[u8],
    count: u32,
) -> Result<List<List<u32>>, Stop>
    ensures { Reads (times (at_line (numbers word.now)) count) (lines_of lines.old.rest.now) (lines_of lines.new.rest.now) result }
{
    let mut items = List::new(alloc);
    for _ in 0..count {
        let item = lines.numbers(alloc, word)?;
        items.push(item)?;
    }
    Ok(items)
}

/// A line with a count, and as many lines of a word and numbers.
pub fn number_lines(
    lines: &mut Lines<'_>,
    alloc: Global,
    head: &[u8],
    word: &[u8],
) -> Result<List<List<u32>>, Stop>
    ensures { Reads (section head.now (at_line (numbers word.now))) (lines_of lines.old.rest.now) (lines_of lines.new.rest.now) result }
{
    let count = lines.count(head)?;
    several(lines, alloc, word, count)
}
