ghost use Rattle.std.specs.Prelude.{◌≡◌, ◌↔◌, ◌≤◌, [], length, IfOk, IsTrue};
ghost use Rattle.std.specs.Bool.{OnTrue, OnFalse};
ghost use Rattle.ras_system.specs.States.{Meets};
ghost use Rattle.ras_steps.specs.Choosing.{IsFirstChoice};

use crate::searching::search;
use ras_database::Database;
use ras_logic::Cube;
use ras_system::State;
use std::alloc::{AllocError, Global};
use std::marker::Model;

/// Numbers of rows, in room that was made before.
#[derive(Debug, Drop)]
pub struct RowBuffer {
    numbers: Vec<u32>,
    used: usize,
}

impl Model for RowBuffer {
    ghost use Rattle.std.specs.Prelude.{length, take, ◌≤◌};
    ghost use Rattle.ras_steps.specs.Choosing.{Buffer};

    ghost Value = { Buffer };

    ghost view = { λ b. record { rows = take b.used b.numbers.items; room = length b.numbers.items } };

    ghost invariant = { λ b. b.used ≤ length b.numbers.items };
}

impl RowBuffer {
    /// Room for as many rows.
    pub fn new(alloc: Global, rows: u32) -> Result<RowBuffer, AllocError>
        ensures none { IfOk result (λ b. b.rows ≡ []) }
        ensures room { IfOk result (λ b. b.room ≡ rows) }
    {
        let numbers = vec![in alloc; 0; rows as usize]?;
        Ok(RowBuffer { numbers, used: 0 })
    }

    /// The rows that were found last, one for each row of the cube.
    pub fn rows(&self) -> &[u32]
        ensures { result.now ≡ self.now.rows }
    {
        &self.numbers[..self.used]
    }
}

/// Whether a state meets a cube: whether some choice of pairwise different rows, each of its relation, makes every literal
/// hold. Then the buffer has the first such choice in lexicographic order, and else no rows. It takes no memory: the choices
/// are walked in order, row by row, and a row is left at once where a literal fails that names no later row. Neither the
/// cube nor the state need fit the database.
pub fn meets(db: &Database, state: &State, cube: &Cube, found: &mut RowBuffer) -> bool
    requires room { length cube.now.rows ≤ found.old.room }
    ensures met { IsTrue result ↔ Meets db.now state.now cube.now }
    ensures first { OnTrue result (IsFirstChoice db.now state.now cube.now found.new.rows) }
    ensures none { OnFalse result (found.new.rows ≡ []) }
    ensures keeps_room { found.new.room ≡ found.old.room }
{
    cube.known();
    let rows = cube.rows();
    if search(db, state, rows, cube.literals(), &mut found.numbers) {
        found.used = rows.len();
        true
    } else {
        found.used = 0;
        false
    }
}
