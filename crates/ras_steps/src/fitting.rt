//! Whether numbers are a state of a database, and whether a state is initial.
ghost use Rattle.std.specs.Prelude.{◌≡◌, ◌↔◌, ◌<◌, ℕ, Option, Some, length, get_or, slice_get, All, IsTrue};
ghost use Rattle.ras_logic.specs.declared.ids.ConstId.{ConstId};
ghost use Rattle.ras_logic.specs.Truth.{AreElements, IsRow};
ghost use Rattle.ras_logic.specs.Shapes.{IsRelation};
ghost use Rattle.ras_logic.specs.declared.ids.RelId.{RelId};
ghost use Rattle.ras_system.specs.States.{IsState, IsInitial, initial_value as the_initial_value, rows_of as the_rows};

use crate::sight::rows_of;
use ras_database::Database;
use ras_logic::{ConstId, List, RelId, Shape, SortId, VarId, constant_value, number_at};
use ras_system::{State, System};

/// Whether numbers are elements of these sorts, one for each.
fn are_elements(db: &Database, sorts: &[SortId], numbers: &[u32]) -> bool
    ensures { IsTrue result ↔ AreElements db.now sorts.now numbers.now }
{
    if numbers.len() != sorts.len() {
        return false;
    }
    let sizes = db.raw().sizes.as_slice();
    for k in 0..sorts.len() {
        if numbers[k] > number_at(sizes, sorts[k].n as usize) {
            return false;
        }
    }
    true
}

/// Whether each row has elements of the sorts of the columns.
fn rows_fit(db: &Database, columns: &[SortId], rows: &[List<u32>]) -> bool
    ensures { IsTrue result ↔ All (AreElements db.now columns.now) rows.now }
{
    for cells in rows {
        if !are_elements(db, columns, cells.as_slice()) {
            return false;
        }
    }
    true
}

/// Whether the rows of each relation fit its columns.
fn relations_fit(db: &Database, shape: &Shape, state: &State) -> bool
    ensures { IsTrue result ↔ ((r : RelId) → IsRelation shape.now r → All (IsRow shape.now db.now r) (the_rows state.now r)) }
{
    for n in 0..shape.relation_count() {
        let relation = RelId { n };
        if !rows_fit(db, shape.columns(relation), rows_of(state, relation)) {
            return false;
        }
    }
    true
}

/// Whether a state is one of a database: an element of its sort for each variable and for each cell of a row, and rows for
/// each relation of the system. It takes no memory.
pub fn state_fits(system: &System, db: &Database, state: &State) -> bool
    ensures { IsTrue result ↔ IsState system.now.shape db.now state.now }
{
    let shape = system.shape();
    state.relations.len() == shape.relation_count() as usize
        && are_elements(db, shape.vars(), state.vars.as_slice())
        && relations_fit(db, shape, state)
}

/// The initial element of a variable: that of its constant, or undef where none is declared.
fn initial_value(db: &Database, constant: Option<ConstId>) -> u32
    ensures { result ≡ the_initial_value db.now constant }
{
    match constant {
        Some(c) => constant_value(db.raw(), c),
        None => 0,
    }
}

/// Whether each variable has its initial element.
fn vars_are_initial(system: &System, db: &Database, vars: &[u32]) -> bool
    ensures { IsTrue result ↔ ((k : ℕ) (c : Option ConstId) → slice_get system.now.initial k ≡ Some c → get_or vars.now k 0 ≡ the_initial_value db.now c) }
{
    system.known();
    for n in 0..system.shape().var_count() {
        let constant = system.initial_of(VarId { n });
        if number_at(vars, n as usize) != initial_value(db, constant) {
            return false;
        }
    }
    true
}

/// Whether each cell is undef.
fn cells_are_undef(cells: &List<u32>) -> bool
    ensures { IsTrue result ↔ All (λ x. x ≡ 0) cells.now }
{
    cells.as_slice().iter().all(|x| *x == 0)
}

/// Whether each cell of each row is undef.
fn rows_are_undef(rows: &List<List<u32>>) -> bool
    ensures { IsTrue result ↔ All (All (λ x. x ≡ 0)) rows.now }
{
    for cells in rows.as_slice() {
        if !cells_are_undef(cells) {
            return false;
        }
    }
    true
}

/// Whether each cell of each relation is undef.
fn relations_are_undef(relations: &[List<List<u32>>]) -> bool
    ensures { IsTrue result ↔ All (All (All (λ x. x ≡ 0))) relations.now }
{
    for rows in relations {
        if !rows_are_undef(rows) {
            return false;
        }
    }
    true
}

/// Whether a state is an initial one: a state of the database in which each variable has its declared constant, or undef
/// where none is declared, and every cell is undef. It takes no memory.
pub fn is_initial(system: &System, state: &State, db: &Database) -> bool
    ensures { IsTrue result ↔ IsInitial system.now db.now state.now }
{
    state_fits(system, db, state)
        && vars_are_initial(system, db, state.vars.as_slice())
        && relations_are_undef(state.relations.as_slice())
}
