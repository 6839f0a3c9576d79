use crate::shapes::sorts;
use ras_logic::{Base, Cube, FunId, List, Literal, Problem, RelId, Rows, Shared, Term};
use std::alloc::{AllocError, Global};

/// A side of a literal: a base, and the functions of its path, from the inside out.
type Side = (Base, &'static [u16]);

/// Rows, by the numbers of their relations, data parameters, by the numbers of their sorts, and of pairs of terms whether
/// they are the same.
#[derive(Clone, Copy)]
pub struct Said {
    pub rows: &'static [u16],
    pub params: &'static [u16],
    pub literals: &'static [(Side, Side, bool)],
}

/// The term of a base under functions, from the inside out.
pub fn term(alloc: Global, base: Base, functions: &[u16]) -> Result<Term, AllocError> {
    let mut path = List::new(alloc);
    for n in functions {
        path.push(FunId { n: *n })?;
    }
    Ok(Term { base, path })
}

/// Literals, of each the sides and whether they are the same.
pub fn literals(alloc: Global, said: &[(Side, Side, bool)]) -> Result<List<Literal>, AllocError> {
    let mut literals = List::new(alloc);
    for (left, right, same) in said {
        literals.push(Literal::Equal {
            left: term(alloc, left.0, left.1)?,
            right: term(alloc, right.0, right.1)?,
            same: *same,
        })?;
    }
    Ok(literals)
}

/// Rows of the relations of these numbers.
pub fn rows(alloc: Global, relations: &[u16]) -> Result<Rows, AllocError> {
    let mut rows = Rows::new(alloc);
    for n in relations {
        rows.push(RelId { n: *n })?;
    }
    Ok(rows)
}

/// The problem that says this.
pub fn problem(alloc: Global, said: Said) -> Result<Problem, AllocError> {
    Ok(Problem {
        rows: rows(alloc, said.rows)?,
        params: sorts(alloc, said.params)?,
        literals: literals(alloc, said.literals)?,
    })
}

/// The cube that says this, where it says nothing of data parameters.
pub fn cube(alloc: Global, said: Said) -> Option<Cube> {
    let rows = rows(alloc, said.rows).ok()?;
    let literals = literals(alloc, said.literals).ok()?;
    Cube::new(rows, literals).ok()
}

fn shared_cube(alloc: Global, said: Said) -> Option<Shared<Cube>> {
    let cube = cube(alloc, said)?;
    Shared::new(alloc, cube).ok()
}

/// The cubes that say these, in their order.
pub fn shared_cubes(alloc: Global, list: &[Said]) -> Option<Vec<Shared<Cube>>> {
    let mut cubes = Vec::new(alloc);
    for said in list {
        cubes.push(shared_cube(alloc, *said)?).ok()?;
    }
    Some(cubes)
}
