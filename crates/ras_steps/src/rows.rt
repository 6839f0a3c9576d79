//! The rows of the relations after a step.
ghost use Rattle.std.specs.Prelude.{◌≡◌, ◌&&◌, ℕ, List, None, nat_eq, map, IfOk};
ghost use Rattle.std.specs.List.{enumerate_from};
ghost use Rattle.ras_system.specs.Steps.{named_from, takes as the_taking, unnamed_row as the_unnamed_row, row_after as the_row_after, state_after as the_state_after};
ghost use Rattle.ras_steps.specs.Sights.{seen};

use crate::changes::{case_row, named_row, vars_after};
use crate::sight::{Sight, beside};
use crate::truth::all_hold;
use ras_database::Database;
use ras_logic::{List, Plain, RelId};
use ras_system::{Bulk, Choice, State, Transition};
use std::alloc::{AllocError, Global};

/// Whether a row parameter of this relation, with this row, names that row of that relation.
fn names(relation: RelId, row: u32, of_relation: usize, number: usize) -> bool
    ensures { result ≡ (nat_eq relation.n of_relation && nat_eq row number) }
{
    relation.n as usize == of_relation && row as usize == number
}

/// The first row parameter that names a row of a relation.
fn named_at(rows: &[RelId], chosen: &[u32], relation: usize, row: usize) -> Option<usize>
    ensures { result ≡ named_from 0 rows.now chosen.now relation row }
{
    for k in 0..rows.len().min(chosen.len()) {
        if names(rows[k], chosen[k], relation, row) {
            return Some(k);
        }
    }
    None
}

/// Whether a bulk case is of a relation and its condition holds of a row.
fn takes(db: &Database, sight: &Sight, relation: usize, cells: &[u32], case: &Bulk) -> bool
    requires { sight.now.row ≡ None }
    ensures { result ≡ the_taking db.now (seen sight.now) relation cells.now case.now }
{
    case.relation.n as usize == relation
        && all_hold(db, &beside(sight, cells), case.condition.as_slice())
}

/// The cells of a row that no row parameter names, after the first bulk case that takes it.
fn unnamed_row(
    alloc: Global,
    db: &Database,
    sight: &Sight,
    bulk: &[Bulk],
    relation: usize,
    cells: &List<u32>,
) -> Result<List<u32>, AllocError>
    requires { sight.now.row ≡ None }
    ensures { IfOk result (λ l. l ≡ the_unnamed_row db.now (seen sight.now) bulk.now relation cells.now) }
{
    let old = cells.as_slice();
    for case in bulk {
        if takes(db, sight, relation, old, case) {
            let more = beside(sight, old);
            return case_row(alloc, db, &more, case.assigns.as_slice(), old);
        }
    }
    cells.copy(alloc)
}

/// The cells of a row after a step.
fn row_after(
    alloc: Global,
    db: &Database,
    sight: &Sight,
    transition: &Transition,
    relation: usize,
    row: usize,
    cells: &List<u32>,
) -> Result<List<u32>, AllocError>
    requires { sight.now.row ≡ None }
    ensures { IfOk result (λ l. l ≡ the_row_after db.now (seen sight.now) transition.now sight.now.chosen.now relation row cells.now) }
{
    match named_at(transition.rows.as_slice(), sight.chosen, relation, row) {
        Some(p) => named_row(
            alloc,
            db,
            sight,
            transition.updates.as_slice(),
            p,
            cells.as_slice(),
        ),
        None => unnamed_row(
            alloc,
            db,
            sight,
            transition.bulk.as_slice(),
            relation,
            cells,
        ),
    }
}

/// The rows of a relation after a step.
fn rows_after(
    alloc: Global,
    db: &Database,
    sight: &Sight,
    transition: &Transition,
    relation: usize,
    rows: &[List<u32>],
) -> Result<List<List<u32>>, AllocError>
    requires { sight.now.row ≡ None }
    ensures { IfOk result (λ l. l ≡ map (λ (p : ℕ × List ℕ). the_row_after db.now (seen sight.now) transition.now sight.now.chosen.now relation p.0 p.1) (enumerate_from 0 rows.now)) }
{
    let mut after = List::new(alloc);
    for row in 0..rows.len() {
        let cells = row_after(alloc, db, sight, transition, relation, row, &rows[row])?;
        after.push(cells)?;
    }
    Ok(after)
}

/// The rows of each relation after a step.
fn relations_after(
    alloc: Global,
    db: &Database,
    sight: &Sight,
    transition: &Transition,
    relations: &[List<List<u32>>],
) -> Result<List<List<List<u32>>>, AllocError>
    requires { sight.now.row ≡ None }
    ensures { IfOk result (λ l. l ≡ map (λ (q : ℕ × List (List ℕ)). map (λ (p : ℕ × List ℕ). the_row_after db.now (seen sight.now) transition.now sight.now.chosen.now q.0 p.0 p.1) (enumerate_from 0 q.1)) (enumerate_from 0 relations.now)) }
{
    let mut after = List::new(alloc);
    for relation in 0..relations.len() {
        let old = relations[relation].as_slice();
        let rows = rows_after(alloc, db, sight, transition, relation, old)?;
        after.push(rows)?;
    }
    Ok(after)
}

/// The state after a step: all terms have their values in the old state.
pub fn state_after(
    alloc: Global,
    db: &Database,
    transition: &Transition,
    state: &State,
    choice: &Choice,
) -> Result<State, AllocError>
    ensures { IfOk result (λ s. s ≡ the_state_after db.now transition.now state.now choice.now) }
{
    let chosen = choice.rows.as_slice();
    let sight = Sight::new(
        state,
        transition.rows.as_slice(),
        chosen,
        choice.values.as_slice(),
    );
    let updates = transition.updates.as_slice();
    let vars = vars_after(alloc, db, &sight, updates, state.vars.as_slice())?;
    let old = state.relations.as_slice();
    let relations = relations_after(alloc, db, &sight, transition, old)?;
    Ok(State { vars, relations })
}
