//! Cubes in short words: x is a variable, a and b are constants of its sort, and f and g a total and a nullable function of it; r and
//! q are the cells of the first two rows.
use ras_fixture::{Said, Sizes};
use ras_logic::{Base, ConstId, SortId, VarId};

/// A side of a literal: a base, and the functions of its path, from the inside out.
pub type Side = (Base, &'static [u16]);

pub const X: Side = (Base::Var(VarId { n: 0 }), &[]);

pub const A: Side = (Base::Constant(ConstId { n: 0 }), &[]);

pub const B: Side = (Base::Constant(ConstId { n: 1 }), &[]);

pub const UNDEF: Side = (Base::Undef(SortId { n: 0 }), &[]);

pub const R: Side = (Base::Cell { row: 0, column: 0 }, &[]);

pub const Q: Side = (Base::Cell { row: 1, column: 0 }, &[]);

pub const F_X: Side = (Base::Var(VarId { n: 0 }), &[0]);

pub const G_X: Side = (Base::Var(VarId { n: 0 }), &[1]);

pub const F_A: Side = (Base::Constant(ConstId { n: 0 }), &[0]);

pub const F_R: Side = (Base::Cell { row: 0, column: 0 }, &[0]);

/// Undef of the sort of the images.
pub const UNDEF_IMAGE: Side = (Base::Undef(SortId { n: 1 }), &[]);

/// One sort, with x, a and b, and two relations of one column.
pub const PLAIN: Sizes = Sizes {
    sorts: 1,
    functions: &[],
    constants: &[0, 0],
    vars: &[0],
    relations: &[&[0], &[0]],
};

/// The same, with f and g to another sort.
pub const MAPPED: Sizes = Sizes {
    sorts: 2,
    functions: &[(0, 1, true), (0, 1, false)],
    constants: &[0, 0],
    vars: &[0],
    relations: &[&[0], &[0]],
};

/// The relations of rows, and of pairs of terms whether they are the same.
pub type Told = (&'static [u16], &'static [(Side, Side, bool)]);

/// What says this, and nothing of data parameters.
pub fn over(told: Told) -> Said {
    Said {
        rows: told.0,
        params: &[],
        literals: told.1,
    }
}
