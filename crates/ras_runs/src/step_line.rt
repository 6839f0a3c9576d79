ghost use Rattle.ras_runs.specs.Reading as first;

use ras_lines::{Spelled, Stop, Words, counted};
use ras_logic::List;
use ras_system::Choice;
use std::alloc::Global;

/// `step T K r1 .. rK M e1 .. eM`: what a step chooses.
#[derive(Drop)]
pub struct StepLine {
    pub choice: Choice,
}

impl Spelled for StepLine {
    ghost first = { first.step_line };

    fn read(words: &mut Words<'_>, alloc: Global) -> Result<StepLine, Stop> {
        words.fixed(b"step ")?;
        let transition = words.small_number()?;
        let rows: List<u32> = counted(words, alloc)?;
        let values: List<u32> = counted(words, alloc)?;
        let choice = Choice {
            transition,
            rows,
            values,
        };
        Ok(StepLine { choice })
    }
}
