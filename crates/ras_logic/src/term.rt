ghost use Rattle.std.specs.Prelude.{◌≡◌, ◌<◌, ◌^◌, All, IfOk};
ghost use Rattle.ras_logic.specs.Terms.{base_term, replace_term};
ghost use Rattle.ras_logic.specs.Refutations.{chosen_row};

use crate::ids::{ConstId, FunId, SortId, VarId};
use crate::plain::Plain;
use crate::seq::List;
use std::alloc::{AllocError, Global};

/// What a term starts from: an artifact variable, a cell of a named row, a constant, the undef of a sort, or a data
/// parameter.
#[derive(Clone, Copy, Debug, PartialEq, Eq)]
pub enum Base {
    Var(VarId),
    Cell { row: u16, column: u16 },
    Constant(ConstId),
    Undef(SortId),
    Param(u16),
}

impl Base {
    /// The same base of the chosen rows; row 0 stands for a row that has no place among them.
    fn with_rows(self, chosen: &[u32]) -> Base
        requires { All (λ k. k < 2 ^ 16) chosen.now }
        ensures { base_term result ≡ chosen_row chosen.now self }
    {
        match self {
            Base::Cell { row, column } => Base::Cell {
                row: chosen.get(row as usize).copied().unwrap_or(0) as u16,
                column,
            },
            Base::Var(v) => Base::Var(v),
            Base::Constant(c) => Base::Constant(c),
            Base::Undef(s) => Base::Undef(s),
            Base::Param(p) => Base::Param(p),
        }
    }
}

/// A base, and the functions that are applied to it in order.
#[derive(Debug, Drop)]
pub struct Term {
    pub base: Base,
    pub path: List<FunId>,
}

impl Term {
    /// The same term of the chosen rows.
    pub fn with_rows(&self, alloc: Global, chosen: &[u32]) -> Result<Term, AllocError>
        requires { All (λ k. k < 2 ^ 16) chosen.now }
        ensures { IfOk result (λ t. t ≡ replace_term (chosen_row chosen.now) self.now) }
    {
        let path = self.path.copy(alloc)?;
        Ok(Term {
            base: self.base.with_rows(chosen),
            path,
        })
    }
}

impl Plain for Term {
    fn copy(&self, alloc: Global) -> Result<Self, AllocError> {
        let path = self.path.copy(alloc)?;
        Ok(Term {
            base: self.base,
            path,
        })
    }

    fn equal(&self, other: &Self) -> bool {
        self.base == other.base && self.path.equal(&other.path)
    }
}
