//! The lines of a run: its states, and the goal that the last one meets.
ghost use Rattle.std.specs.Prelude.{◌≡◌, ◌++◌, flat_map, OnOk};
ghost use Rattle.ras_text.specs.Pieces.{words};
ghost use Rattle.ras_violation.specs.ReplayTexts.{rows_text, state_line, goal_line};

use ras_logic::List;
use ras_system::State;
use ras_text::{put, put_counted, put_word, put_words};
use std::alloc::AllocError;

/// The cells of rows.
fn put_cells(out: &mut Vec<u8>, rows: &[List<u32>]) -> Result<(), AllocError>
    ensures { OnOk result (out.new.items ≡ out.old.items ++ flat_map words rows.now) }
{
    for cells in rows {
        put_words(out, cells.as_slice())?;
    }
    Ok(())
}

/// The rows of a relation.
fn put_rows(out: &mut Vec<u8>, rows: &[List<u32>]) -> Result<(), AllocError>
    ensures { OnOk result (out.new.items ≡ out.old.items ++ rows_text rows.now) }
{
    put(out, b" rows")?;
    put_word(out, rows.len() as u64)?;
    put_cells(out, rows)
}

/// The rows of each relation.
fn put_relations(out: &mut Vec<u8>, relations: &[List<List<u32>>]) -> Result<(), AllocError>
    ensures { OnOk result (out.new.items ≡ out.old.items ++ flat_map rows_text relations.now) }
{
    for rows in relations {
        put_rows(out, rows.as_slice())?;
    }
    Ok(())
}

/// The line of a state and its number.
pub(crate) fn put_state(out: &mut Vec<u8>, number: usize, state: &State) -> Result<(), AllocError>
    ensures { OnOk result (out.new.items ≡ out.old.items ++ state_line number state.now) }
{
    put(out, b"state")?;
    put_word(out, number as u64)?;
    put(out, b" vars")?;
    put_counted(out, state.vars.as_slice())?;
    put_relations(out, state.relations.as_slice())?;
    put(out, b"\n")
}

/// The line of a goal and the rows by which it is met.
pub(crate) fn put_goal(out: &mut Vec<u8>, goal: u32, rows: &[u32]) -> Result<(), AllocError>
    ensures { OnOk result (out.new.items ≡ out.old.items ++ goal_line goal rows.now) }
{
    put(out, b"meets")?;
    put_word(out, u64::from(goal))?;
    put(out, b" rows")?;
    put_counted(out, rows)?;
    put(out, b"\n")
}
