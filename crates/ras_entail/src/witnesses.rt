ghost use Rattle.std.specs.Prelude.{◌≡◌, IfOk};
ghost use Rattle.ras_logic.specs.Databases.{IsDatabase};
ghost use Rattle.ras_logic.specs.Formulas.{Fits};
ghost use Rattle.ras_logic.specs.Truth.{Satisfies};
ghost use Rattle.ras_entail.specs.EscapeStates.{IsStateOfRows};

use crate::states::state_of;
use ras_closure::Model;
use ras_database::{Database, a_fault_is_no_database};
use ras_logic::{Problem, Shape};
use ras_steps::Witness;
use std::alloc::{AllocError, Global};

/// The database of a model of a problem, and the state that has just the problem's rows.
pub fn witness_of(
    alloc: Global,
    shape: &Shape,
    problem: &Problem,
    model: Model,
) -> Result<Witness, AllocError>
    requires fits { Fits shape.now problem.now }
    requires database { IsDatabase shape.now.schema model.db }
    requires satisfies { Satisfies shape.now model.db model.values problem.now }
    ensures database { IfOk result (λ w. w.db ≡ model.db) }
    ensures state { IfOk result (λ w. IsStateOfRows shape.now problem.now.rows model.values w.state) }
{
    let Model { db, values } = model;
    let state = state_of(alloc, shape, problem.rows.as_slice(), values)?;
    a_fault_is_no_database();
    let db = Database::new(shape.schema(), db).unwrap();
    Ok(Witness { db, state })
}
