ghost use Rattle.ras_lines.specs.Lines.{lines_of};
ghost use Rattle.ras_lines.specs.Fronts.{Reads, times};
ghost use Rattle.ras_runs.specs.Reading as first;

use crate::number_lines::number_lines;
use crate::step_line::StepLine;
use ras_lines::{Lines, Stop};
use ras_logic::List;
use ras_steps::Run;
use ras_system::{Choice, State};
use std::alloc::Global;

/// The rows of as many relations as are announced. What is only announced takes no room.
#[tactic(auto, using(ras_lines::proofs::Loops::times_laws))]
fn relations(
    lines: &mut Lines<'_>,
    alloc: Global,
    count: u32,
) -> Result<List<List<List<u32>>>, Stop>
    ensures { Reads (times first.rows count) (lines_of lines.old.rest.now) (lines_of lines.new.rest.now) result }
{
    let mut items = List::new(alloc);
    for _ in 0..count {
        let item = number_lines(lines, alloc, b"rows", b"row")?;
        items.push(item)?;
    }
    Ok(items)
}

/// As many steps as are announced. What is only announced takes no room.
#[tactic(auto, using(ras_lines::proofs::Loops::times_laws))]
fn steps(lines: &mut Lines<'_>, alloc: Global, count: u32) -> Result<List<Choice>, Stop>
    ensures { Reads (times first.step count) (lines_of lines.old.rest.now) (lines_of lines.new.rest.now) result }
{
    let mut items = List::new(alloc);
    for _ in 0..count {
        let line: StepLine = lines.value(alloc)?;
        items.push(line.choice)?;
    }
    Ok(items)
}

/// From the values of the variables to the last step.
pub fn read_run(lines: &mut Lines<'_>, alloc: Global) -> Result<Run, Stop>
    ensures { Reads first.run (lines_of lines.old.rest.now) (lines_of lines.new.rest.now) result }
{
    let vars = lines.numbers(alloc, b"vars")?;
    let relation_count = lines.count(b"relations")?;
    let relations = relations(lines, alloc, relation_count)?;
    let step_count = lines.count(b"steps")?;
    let choices = steps(lines, alloc, step_count)?;
    let start = State { vars, relations };
    Ok(Run { start, choices })
}
