//! What terms are read in: a state, rows that are named in it, data parameters, and in a bulk case the updated row.
ghost use Rattle.std.specs.Prelude.{◌≡◌, ◌≤◌, length, [], None, Some, get_or};
ghost use Rattle.ras_logic.specs.Truth.{value as the_value, holds as the_truth};
ghost use Rattle.ras_steps.specs.Sights.{seen};
ghost use Rattle.ras_system.specs.States.{rows_of as the_rows, values_at};
ghost use Rattle.ras_system.specs.Steps.{with_row};

use ras_database::Database;
use ras_logic::{List, Literal, RelId, Term, Valued, number_at};
use ras_system::State;

/// The values of the variables of a state, of named rows and of data parameters, read where they stand: nothing is copied.
#[derive(Clone, Copy)]
pub struct Sight<'a> {
    pub state: &'a State,
    pub relations: &'a [RelId],
    pub chosen: &'a [u32],
    pub params: &'a [u32],
    pub row: Option<&'a [u32]>,
}

/// The rows of a relation, none where there is no such relation.
pub fn rows_of(state: &State, relation: RelId) -> &[List<u32>]
    ensures rows { result.now ≡ the_rows state.now relation }
    ensures room { length result.now ≤ 4294967295 }
{
    match state.relations.as_slice().get(relation.n as usize) {
        Some(rows) => rows.as_slice(),
        None => &[],
    }
}

/// The cells of a row of a relation, none where there is no such row.
pub fn cells_of(state: &State, relation: RelId, row: u32) -> &[u32]
    ensures { result.now ≡ get_or (the_rows state.now relation) row [] }
{
    match rows_of(state, relation).get(row as usize) {
        Some(cells) => cells.as_slice(),
        None => &[],
    }
}

impl<'a> Sight<'a> {
    /// The rows with these numbers, each of the relation at its place.
    pub fn new(
        state: &'a State,
        relations: &'a [RelId],
        chosen: &'a [u32],
        params: &'a [u32],
    ) -> Sight<'a>
        ensures values { seen result ≡ values_at state.now relations.now chosen.now params.now }
        ensures row { result.row ≡ None }
        ensures chosen { result.chosen.now ≡ chosen.now }
    {
        Sight {
            state,
            relations,
            chosen,
            params,
            row: None,
        }
    }
}

impl Valued for Sight<'_> {
    ghost seen = { seen };

    fn var(&self, number: usize) -> u32 {
        number_at(self.state.vars.as_slice(), number)
    }

    fn cell(&self, row: usize, column: usize) -> u32 {
        let named = self.relations.len().min(self.chosen.len());
        if row < named {
            number_at(
                cells_of(self.state, self.relations[row], self.chosen[row]),
                column,
            )
        } else if row == named {
            match self.row {
                Some(cells) => number_at(cells, column),
                None => 0,
            }
        } else {
            0
        }
    }

    fn param(&self, number: usize) -> u32 {
        number_at(self.params, number)
    }
}

/// The same values, with the cells of the updated row of a bulk case as one row more.
pub fn beside<'a>(sight: &Sight<'a>, cells: &'a [u32]) -> Sight<'a>
    requires { sight.now.row ≡ None }
    ensures { seen result ≡ with_row (seen sight.now) cells.now }
{
    Sight {
        state: sight.state,
        relations: sight.relations,
        chosen: sight.chosen,
        params: sight.params,
        row: Some(cells),
    }
}

/// The value of a term.
pub fn value(db: &Database, sight: &Sight, term: &Term) -> u32
    ensures { result ≡ the_value db.now (seen sight.now) term.now }
{
    ras_logic::value(db.raw(), sight, term)
}

/// Whether a literal holds.
pub fn holds(db: &Database, sight: &Sight, literal: &Literal) -> bool
    ensures { result ≡ the_truth db.now (seen sight.now) literal.now }
{
    ras_logic::holds(db.raw(), sight, literal)
}
