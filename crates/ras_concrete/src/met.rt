ghost use Rattle.std.specs.Prelude.{All, IfOk, IfSome, IfNone};
ghost use Rattle.ras_system.specs.States.{Meets};
ghost use Rattle.ras_concrete.specs.Meeting.{IsMetBySome};

use crate::values::listed;
use ras_database::Database;
use ras_logic::{Cube, List};
use ras_steps::{RowBuffer, meets};
use ras_system::State;
use std::alloc::{AllocError, Global};

/// The rows by which a state meets the first of the cubes that it meets.
pub fn rows_met(
    alloc: Global,
    db: &Database,
    state: &State,
    cubes: &[Cube],
) -> Result<Option<List<u32>>, AllocError>
    ensures some { IfOk result (λ o. IfSome o (IsMetBySome db.now state.now cubes.now)) }
    ensures none { IfOk result (λ o. IfNone o (All (λ c. ¬ Meets db.now state.now c) cubes.now)) }
{
    for cube in cubes {
        cube.known();
        let mut found = RowBuffer::new(alloc, cube.rows().len() as u32)?;
        if meets(db, state, cube, &mut found) {
            return Ok(Some(listed(alloc, found.rows())?));
        }
    }
    Ok(None)
}
