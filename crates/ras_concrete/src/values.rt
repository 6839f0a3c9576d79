//! Numbers that are copied: of rows, and of what stands in them.
ghost use Rattle.std.specs.Prelude.{◌≡◌, [], length, IfOk};
ghost use Rattle.ras_system.specs.States.{cells_of as the_cells, values_at};

use ras_logic::{List, Plain, RelId, Values};
use ras_steps::cells_of;
use ras_system::State;
use std::alloc::{AllocError, Global};

/// The numbers as a list.
pub fn listed(alloc: Global, numbers: &[u32]) -> Result<List<u32>, AllocError>
    ensures { IfOk result (λ list. list ≡ numbers.now) }
{
    let mut list = List::new(alloc);
    for number in numbers {
        list.push(*number)?;
    }
    Ok(list)
}

/// The cells of rows, each of its relation.
fn cells_of_rows(
    alloc: Global,
    state: &State,
    relations: &[RelId],
    chosen: &[u32],
) -> Result<List<List<u32>>, AllocError>
    requires { length chosen.now ≡ length relations.now }
    ensures { IfOk result (λ rows. rows ≡ the_cells state.now relations.now chosen.now) }
{
    let mut rows = List::new(alloc);
    for at in 0..relations.len() {
        rows.push(listed(alloc, cells_of(state, relations[at], chosen[at]))?)?;
    }
    Ok(rows)
}

/// What the variables of a state and the cells of its rows with these numbers stand for, without data parameters.
pub fn values_of(
    alloc: Global,
    state: &State,
    relations: &[RelId],
    chosen: &[u32],
) -> Result<Values, AllocError>
    requires { length chosen.now ≡ length relations.now }
    ensures { IfOk result (λ values. values ≡ values_at state.now relations.now chosen.now []) }
{
    Ok(Values {
        vars: state.vars.copy(alloc)?,
        rows: cells_of_rows(alloc, state, relations, chosen)?,
        params: List::new(alloc),
    })
}
