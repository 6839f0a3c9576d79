//! What is assigned to the variables, to a named row, and to a row that a bulk case takes.
ghost use Rattle.std.specs.Prelude.{◌≡◌, IfOk};
ghost use Rattle.std.specs.Option.{option_map_or};
ghost use Rattle.ras_logic.specs.Truth.{value as the_value};
ghost use Rattle.ras_system.specs.Steps.{is_var as the_var_test, is_cell as the_cell_test, term_for_var, term_for_cell, term_for_column, written};
ghost use Rattle.ras_steps.specs.Sights.{seen};

use crate::sight::{Sight, value};
use ras_database::Database;
use ras_logic::List;
use ras_system::{Assign, Target, Update};
use std::alloc::{AllocError, Global};

fn is_var(target: Target, number: usize) -> bool
    ensures { result ≡ the_var_test number target }
{
    match target {
        Target::Var(v) => v.n as usize == number,
        Target::Cell { .. } => false,
    }
}

fn is_cell(target: Target, at_row: usize, at_column: usize) -> bool
    ensures { result ≡ the_cell_test at_row at_column target }
{
    match target {
        Target::Var(_) => false,
        Target::Cell { row, column } => row as usize == at_row && column as usize == at_column,
    }
}

/// What a variable is after the updates: the value of the term that is assigned to it, or what it was.
fn var_after(db: &Database, sight: &Sight, updates: &[Update], number: usize, own: u32) -> u32
    ensures { result ≡ option_map_or (the_value db.now (seen sight.now)) (term_for_var updates.now number) own }
{
    for update in updates {
        if is_var(update.target, number) {
            return value(db, sight, &update.term);
        }
    }
    own
}

/// What a cell of a named row is after the updates.
fn cell_after(
    db: &Database,
    sight: &Sight,
    updates: &[Update],
    row: usize,
    column: usize,
    own: u32,
) -> u32
    ensures { result ≡ option_map_or (the_value db.now (seen sight.now)) (term_for_cell updates.now row column) own }
{
    for update in updates {
        if is_cell(update.target, row, column) {
            return value(db, sight, &update.term);
        }
    }
    own
}

/// What a cell of a row that a bulk case takes is after its assignments.
fn column_after(db: &Database, sight: &Sight, assigns: &[Assign], column: usize, own: u32) -> u32
    ensures { result ≡ option_map_or (the_value db.now (seen sight.now)) (term_for_column assigns.now column) own }
{
    for assign in assigns {
        if assign.column as usize == column {
            return value(db, sight, &assign.term);
        }
    }
    own
}

/// The variables after the updates.
pub fn vars_after(
    alloc: Global,
    db: &Database,
    sight: &Sight,
    updates: &[Update],
    vars: &[u32],
) -> Result<List<u32>, AllocError>
    ensures { IfOk result (λ l. l ≡ written db.now (seen sight.now) (term_for_var updates.now) vars.now) }
{
    let mut after = List::new(alloc);
    for number in 0..vars.len() {
        after.push(var_after(db, sight, updates, number, vars[number]))?;
    }
    Ok(after)
}

/// The cells of the row of a row parameter after the updates.
pub fn named_row(
    alloc: Global,
    db: &Database,
    sight: &Sight,
    updates: &[Update],
    row: usize,
    cells: &[u32],
) -> Result<List<u32>, AllocError>
    ensures { IfOk result (λ l. l ≡ written db.now (seen sight.now) (term_for_cell updates.now row) cells.now) }
{
    let mut after = List::new(alloc);
    for column in 0..cells.len() {
        after.push(cell_after(db, sight, updates, row, column, cells[column]))?;
    }
    Ok(after)
}

/// The cells of a row after the assignments of the bulk case that takes it.
pub fn case_row(
    alloc: Global,
    db: &Database,
    sight: &Sight,
    assigns: &[Assign],
    cells: &[u32],
) -> Result<List<u32>, AllocError>
    ensures { IfOk result (λ l. l ≡ written db.now (seen sight.now) (term_for_column assigns.now) cells.now) }
{
    let mut after = List::new(alloc);
    for column in 0..cells.len() {
        after.push(column_after(db, sight, assigns, column, cells[column]))?;
    }
    Ok(after)
}
