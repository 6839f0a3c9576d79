use crate::said::{list, lists};
use ras_database::{Database, holds};
use ras_logic::{Cube, List, Values};
use std::alloc::Global;

fn is_met(db: &Database, values: &Values, cubes: &[Cube]) -> bool {
    cubes.iter().any(|cube| cube.literals().iter().all(|l| holds(db, values, l)))
}

/// Whether these values of variables and rows satisfy one of the cubes.
pub fn is_met_by(
    alloc: Global,
    db: &Database,
    vars: &[u32],
    rows: &[&[u32]],
    cubes: &[Cube],
) -> Option<bool> {
    let values = Values {
        vars: list(alloc, vars).ok()?,
        rows: lists(alloc, rows).ok()?,
        params: List::new(alloc),
    };
    Some(is_met(db, &values, cubes))
}

/// How many literals the cubes have together.
pub fn literals_of(cubes: &[Cube]) -> usize {
    let mut literals: usize = 0;
    for cube in cubes {
        literals = literals.saturating_add(cube.literals().len());
    }
    literals
}
