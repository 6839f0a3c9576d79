ghost use Rattle.ras_lines.specs.Fronts.{Reads};
ghost use Rattle.ras_journals.specs.JournalReading as first;

use ras_core::Origin;
use ras_lines::{Stop, Words};

/// `goal J` or `step E T`.
pub fn origin(words: &mut Words<'_>) -> Result<Origin, Stop>
    ensures { Reads first.origin words.old.rest.now words.new.rest.now result }
{
    if words.has(b"goal ") {
        let disjunct = words.small_number()?;
        return Ok(Origin::Goal { disjunct });
    }
    if words.has(b"step ") {
        let entry = words.number()?;
        words.fixed(b" ")?;
        let transition = words.small_number()?;
        return Ok(Origin::Step { entry, transition });
    }
    Err(Stop::Misfit)
}
