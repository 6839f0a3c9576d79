ghost use Rattle.ras_lines.specs.Lines.{lines_of};
ghost use Rattle.ras_lines.specs.Fronts.{Reads};
ghost use Rattle.ras_runs.specs.Reading as first;

use crate::number_lines::number_lines;
use ras_lines::{Lines, Stop};
use ras_logic::RawDb;
use std::alloc::Global;

/// From the sizes of the sorts to the constants.
pub fn read_database(lines: &mut Lines<'_>, alloc: Global) -> Result<RawDb, Stop>
    ensures { Reads first.database (lines_of lines.old.rest.now) (lines_of lines.new.rest.now) result }
{
    let sizes = lines.numbers(alloc, b"sizes")?;
    let tables = number_lines(lines, alloc, b"tables", b"table")?;
    let constants = lines.numbers(alloc, b"constants")?;
    Ok(RawDb {
        sizes,
        tables,
        constants,
    })
}
