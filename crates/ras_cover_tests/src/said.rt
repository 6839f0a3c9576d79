//! Problems and databases in short words: x and y are the variables, e and d the data parameters.
use ras_fixture::{Said, Sizes, problem};
use ras_logic::{Base, ConstId, List, Problem, RawDb, SortId, VarId};
use std::alloc::{AllocError, Global};

/// A side of a literal: a base, and the functions of its path, from the inside out.
pub type Side = (Base, &'static [u16]);

pub const E: Side = (Base::Param(0), &[]);

pub const D: Side = (Base::Param(1), &[]);

pub const X: Side = (Base::Var(VarId { n: 0 }), &[]);

pub const Y: Side = (Base::Var(VarId { n: 1 }), &[]);

pub const C: Side = (Base::Constant(ConstId { n: 0 }), &[]);

pub const UNDEF: Side = (Base::Undef(SortId { n: 0 }), &[]);

/// The images of e, d and c under the functions of these numbers.
pub const F_E: Side = (Base::Param(0), &[0]);

pub const G_E: Side = (Base::Param(0), &[1]);

pub const F_D: Side = (Base::Param(1), &[0]);

pub const F_C: Side = (Base::Constant(ConstId { n: 0 }), &[0]);

pub const FAR_E: Side = (Base::Param(0), &[0, 1, 2, 3]);

/// The sorts of the data parameters, and of pairs of terms whether they are the same.
#[derive(Clone, Copy)]
pub struct Literals {
    pub params: &'static [u16],
    pub said: &'static [(Side, Side, bool)],
}

/// The sizes of the sorts, the images of their elements, and the elements of the constants.
#[derive(Clone, Copy)]
pub struct Held {
    pub sizes: &'static [u32],
    pub tables: &'static [&'static [u32]],
    pub constants: &'static [u32],
}

/// Two total functions from the sort of e to that of x and y.
pub const TOTAL: Sizes = Sizes {
    sorts: 2,
    functions: &[(0, 1, true), (0, 1, true)],
    constants: &[],
    vars: &[1, 1],
    relations: &[],
};

/// The same with nullable functions.
pub const NULLABLE: Sizes = Sizes {
    sorts: 2,
    functions: &[(0, 1, false), (0, 1, false)],
    constants: &[],
    vars: &[1, 1],
    relations: &[],
};

/// A total function from the sort of e, x and a constant to another one.
pub const KEPT: Sizes = Sizes {
    sorts: 2,
    functions: &[(0, 1, true)],
    constants: &[0],
    vars: &[0, 1],
    relations: &[],
};

/// The database with one element of the second of two sorts, and none of the first, from which two functions go.
pub const NO_SOURCE: Held = Held {
    sizes: &[0, 1],
    tables: &[&[], &[]],
    constants: &[],
};

/// A chain of four total functions from the sort of e to that of x.
pub const CHAIN: Sizes = Sizes {
    sorts: 5,
    functions: &[(0, 1, true), (1, 2, true), (2, 3, true), (3, 4, true)],
    constants: &[],
    vars: &[4],
    relations: &[],
};

/// The problem without rows that says this.
pub fn problem_of(alloc: Global, literals: Literals) -> Result<Problem, AllocError> {
    problem(
        alloc,
        Said {
            rows: &[],
            params: literals.params,
            literals: literals.said,
        },
    )
}

/// A list of these numbers.
pub fn list(alloc: Global, numbers: &[u32]) -> Result<List<u32>, AllocError> {
    let mut list = List::new(alloc);
    for n in numbers {
        list.push(*n)?;
    }
    Ok(list)
}

/// The lists of these numbers.
pub fn lists(alloc: Global, numbers: &[&[u32]]) -> Result<List<List<u32>>, AllocError> {
    let mut lists = List::new(alloc);
    for each in numbers {
        lists.push(list(alloc, each)?)?;
    }
    Ok(lists)
}

/// The database of these numbers.
pub fn raw(alloc: Global, held: Held) -> Result<RawDb, AllocError> {
    Ok(RawDb {
        sizes: list(alloc, held.sizes)?,
        tables: lists(alloc, held.tables)?,
        constants: list(alloc, held.constants)?,
    })
}
