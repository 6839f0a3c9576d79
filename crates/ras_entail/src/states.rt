ghost use Rattle.std.specs.Prelude.{◌≡◌, ◌↔◌, ◌<◌, length, slice_get, Some, IfOk, IsTrue, All};
ghost use Rattle.ras_logic.specs.Shapes.{IsRelation};
ghost use Rattle.ras_entail.specs.EscapeStates.{AreRowsBelow, IsStateOfRows};

use ras_logic::{List, Plain, RelId, Shape, Values};
use ras_system::State;
use std::alloc::{AllocError, Global};

/// Whether a row is of the relation.
fn is_of(rows: &[RelId], row: usize, relation: RelId) -> bool
    requires { row < length rows.now }
    ensures { IsTrue result ↔ (slice_get rows.now row ≡ Some relation) }
{
    rows[row].n == relation.n
}

/// The cells of the rows that are of this relation, in the rows' order.
fn rows_in(
    alloc: Global,
    relation: RelId,
    rows: &[RelId],
    cells: &[List<u32>],
) -> Result<List<List<u32>>, AllocError>
    requires { length cells.now ≡ length rows.now }
    ensures { IfOk result (AreRowsBelow rows.now cells.now relation (length rows.now)) }
{
    let mut found = List::new(alloc);
    for row in 0..rows.len() {
        if is_of(rows, row, relation) {
            found.push(cells[row].copy(alloc)?)?;
        }
    }
    Ok(found)
}

/// The state with the values of the variables, and of each relation just the rows that are named, in their order.
pub fn state_of(
    alloc: Global,
    shape: &Shape,
    rows: &[RelId],
    values: Values,
) -> Result<State, AllocError>
    requires values { length values.rows ≡ length rows.now }
    requires rows { All (IsRelation shape.now) rows.now }
    ensures { IfOk result (IsStateOfRows shape.now rows.now values) }
{
    let mut relations = List::new(alloc);
    for n in 0..shape.relation_count() {
        relations.push(rows_in(alloc, RelId { n }, rows, values.rows.as_slice())?)?;
    }
    Ok(State {
        vars: values.vars,
        relations,
    })
}
