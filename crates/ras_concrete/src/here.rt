//! A step in the database that there is. Data parameters are looked for as rows are: each gets a relation that has a row for
//! each element of its sort, so that the search for rows, which leaves a row at once where a literal fails, finds both.
//!
//! What is found is tried out, so nothing rests on this search but how soon a database has to be extended.
ghost use Rattle.std.specs.Prelude.{◌≡◌, IfOk, IfSome};
ghost use Rattle.ras_concrete.specs.Concretes.{IsStepHere};

use crate::values::listed;
use ras_database::Database;
use ras_logic::{Base, Cube, List, Literal, Plain, Problem, RelId, Rows, SortId, Term};
use ras_steps::{RowBuffer, StepFault, meets, step};
use ras_system::{Choice, State, System};
use std::alloc::{AllocError, Global};

/// A step, and the state that it leads to.
#[derive(Drop)]
pub struct StepHere {
    pub choice: Choice,
    pub next: State,
}

/// A row for each element of a sort, undef first.
fn elements(alloc: Global, db: &Database, sort: SortId) -> Result<List<List<u32>>, AllocError> {
    let size = db
        .raw()
        .sizes
        .as_slice()
        .get(sort.n as usize)
        .copied()
        .unwrap_or(0);
    let mut rows = List::new(alloc);
    for element in 0..size {
        rows.push(listed(alloc, &[element])?)?;
    }
    rows.push(listed(alloc, &[size])?)?;
    Ok(rows)
}

/// The state with a relation behind its own for each data parameter.
fn with_elements(
    alloc: Global,
    db: &Database,
    state: &State,
    params: &[SortId],
) -> Result<State, AllocError> {
    let mut wide = state.copy(alloc)?;
    for sort in params {
        wide.relations.push(elements(alloc, db, *sort)?)?;
    }
    Ok(wide)
}

/// The base with a row in the place of a data parameter.
fn base_by_rows(base: Base, rows: u16) -> Base {
    match base {
        Base::Param(number) => Base::Cell {
            row: rows.wrapping_add(number),
            column: 0,
        },
        other => other,
    }
}

fn term_by_rows(alloc: Global, term: &Term, rows: u16) -> Result<Term, AllocError> {
    Ok(Term {
        base: base_by_rows(term.base, rows),
        path: term.path.copy(alloc)?,
    })
}

/// The problem as a cube, with a row for each of its data parameters; none where these are too many rows.
fn by_rows(alloc: Global, problem: &Problem, relations: u16) -> Result<Option<Cube>, AllocError> {
    if problem.rows.len() + problem.params.len() > u16::MAX as usize {
        return Ok(None);
    }
    let count = problem.rows.len() as u16;
    let mut rows = problem.rows.copy(alloc)?;
    for number in 0..problem.params.len() {
        let relation = RelId {
            n: relations.wrapping_add(number as u16),
        };
        rows.push(relation)?;
    }
    let mut literals = List::new(alloc);
    for literal in problem.literals.as_slice() {
        literals.push(Literal::Equal {
            left: term_by_rows(alloc, literal.left(), count)?,
            right: term_by_rows(alloc, literal.right(), count)?,
            same: literal.says_same(),
        })?;
    }
    Ok(Cube::new(rows, literals).ok())
}

/// The choice of a transition that a row for each row and each data parameter of a problem stands for: the first rows are those
/// of the row parameters.
fn choice_of(
    alloc: Global,
    system: &System,
    transition: u16,
    problem: &Problem,
    found: &[u32],
) -> Result<Option<Choice>, AllocError>
    ensures { IfOk result (λ o. IfSome o (λ choice. choice.transition ≡ transition)) }
{
    let Some(named) = system.transitions().get(transition as usize) else {
        return Ok(None);
    };
    let Some(rows) = found.get(..named.rows.len()) else {
        return Ok(None);
    };
    let Some(values) = found.get(problem.rows.len()..) else {
        return Ok(None);
    };
    Ok(Some(Choice {
        transition,
        rows: listed(alloc, rows)?,
        values: listed(alloc, values)?,
    }))
}

/// Whether the choice is a step to a state that meets the cube.
fn tried(
    alloc: Global,
    system: &System,
    db: &Database,
    state: &State,
    choice: Choice,
    cube: &Cube,
) -> Result<Option<StepHere>, AllocError>
    ensures { IfOk result (λ o. IfSome o (IsStepHere system.now db.now state.now choice.transition cube.now)) }
{
    match step(alloc, db, system, state, &choice) {
        Ok(next) => {
            cube.known();
            let mut found = RowBuffer::new(alloc, cube.rows().len() as u32)?;
            if meets(db, &next, cube, &mut found) {
                Ok(Some(StepHere { choice, next }))
            } else {
                Ok(None)
            }
        }
        Err(StepFault::Memory(error)) => Err(error),
        Err(_) => Ok(None),
    }
}

/// The first step of a transition that the search finds by a problem of the preimage of the cube.
fn step_by(
    alloc: Global,
    system: &System,
    db: &Database,
    state: &State,
    wide: &State,
    transition: u16,
    problem: &Problem,
    cube: &Cube,
) -> Result<Option<StepHere>, AllocError>
    ensures { IfOk result (λ o. IfSome o (IsStepHere system.now db.now state.now transition cube.now)) }
{
    if state.relations.len() > u16::MAX as usize {
        return Ok(None);
    }
    let relations = state.relations.len() as u16;
    let Some(whole) = by_rows(alloc, problem, relations)? else {
        return Ok(None);
    };
    whole.known();
    let mut found = RowBuffer::new(alloc, whole.rows().len() as u32)?;
    if !meets(db, wide, &whole, &mut found) {
        return Ok(None);
    }
    match choice_of(alloc, system, transition, problem, found.rows())? {
        Some(choice) => tried(alloc, system, db, state, choice, cube),
        None => Ok(None),
    }
}

/// A step by the transition from the state to one that meets the cube, in its own database, by one of the problems of the cube's
/// preimage. There may be one where none is found.
pub fn led_here(
    alloc: Global,
    system: &System,
    db: &Database,
    state: &State,
    transition: u16,
    problems: &[Problem],
    cube: &Cube,
) -> Result<Option<StepHere>, AllocError>
    ensures { IfOk result (λ o. IfSome o (IsStepHere system.now db.now state.now transition cube.now)) }
{
    let Some(first) = problems.first() else {
        return Ok(None);
    };
    let wide = with_elements(alloc, db, state, first.params.as_slice())?;
    for problem in problems {
        if let Some(found) = step_by(alloc, system, db, state, &wide, transition, problem, cube)? {
            return Ok(Some(found));
        }
    }
    Ok(None)
}
