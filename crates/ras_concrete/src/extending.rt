ghost use Rattle.std.specs.Prelude.{IfOk, IfSome, IfNone};
ghost use Rattle.ras_logic.specs.Formulas.{Fits};
ghost use Rattle.ras_logic.specs.Databases.{IsDatabase};
ghost use Rattle.ras_system.specs.States.{IsState};
ghost use Rattle.ras_concrete.specs.Meeting.{IsMetThere, CannotMeet};

use crate::met::rows_met;
use crate::values::values_of;
use ras_closure::Model;
use ras_cover::{CoverCount, a_cover_is_met_where_there_is_an_extension, cover};
use ras_database::{Database, a_fault_is_no_database};
use ras_enlarge::extend;
use ras_logic::{List, Problem, Shape};
use ras_system::State;
use std::alloc::{AllocError, Global};

/// A database, and rows and elements by which a state meets a problem there.
#[derive(Drop)]
pub struct There {
    pub db: Database,
    pub rows: List<u32>,
    pub params: List<u32>,
}

/// A database that extends this one in which the state meets the problem, and by what it does; none exactly where there is no
/// such database. A cover of the problem tells the rows.
pub fn met_there(
    alloc: Global,
    shape: &Shape,
    db: &Database,
    state: &State,
    problem: &Problem,
) -> Result<Option<There>, AllocError>
    requires fits { Fits shape.now problem.now }
    requires database { IsDatabase shape.now.schema db.now }
    requires state { IsState shape.now db.now state.now }
    ensures some { IfOk result (λ o. IfSome o (IsMetThere shape.now db.now state.now problem.now)) }
    ensures none { IfOk result (λ o. IfNone o (CannotMeet shape.now db.now state.now problem.now)) }
{
    a_cover_is_met_where_there_is_an_extension();
    let mut count = CoverCount { n: 0 };
    let cubes = cover(alloc, shape, problem, &mut count)?;
    let Some(rows) = rows_met(alloc, db, state, cubes.as_slice())? else {
        return Ok(None);
    };
    let values = values_of(alloc, state, problem.rows.as_slice(), rows.as_slice())?;
    match extend(alloc, shape, problem, db, &values)? {
        None => unreachable!(),
        Some(Model { db, values }) => {
            a_fault_is_no_database();
            let db = Database::new(shape.schema(), db).unwrap();
            Ok(Some(There {
                db,
                rows,
                params: values.params,
            }))
        }
    }
}
