ghost use Rattle.ras_lines.specs.Lines.{lines_of};
ghost use Rattle.ras_lines.specs.Fronts.{Reads};
ghost use Rattle.ras_evidence.specs.SafeReading.{safe_parts as parts_first};

use ras_lines::{Lines, Stop};
use ras_logic::{Cube, List, Shared, Tree};
use std::alloc::Global;

/// An evidence of safety: formulas, and a refutation by cases for each obligation.
#[derive(Drop)]
pub struct SafeEvidence {
    pub formulas: List<Shared<Cube>>,
    pub trees: List<Tree>,
}

/// From the formulas to `end`.
pub fn safe_parts(lines: &mut Lines<'_>, alloc: Global) -> Result<SafeEvidence, Stop>
    ensures { Reads parts_first (lines_of lines.old.rest.now) (lines_of lines.new.rest.now) result }
{
    let formulas: List<Shared<Cube>> = lines.section(alloc, b"formulas")?;
    let trees: List<Tree> = lines.section(alloc, b"trees")?;
    lines.fixed(b"end")?;
    Ok(SafeEvidence { formulas, trees })
}
