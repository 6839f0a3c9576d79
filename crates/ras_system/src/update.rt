use ras_logic::{Plain, Term, VarId};
use std::alloc::{AllocError, Global};

/// What an update assigns to: an artifact variable, or a cell of a row parameter.
#[derive(Clone, Copy, Debug, PartialEq, Eq)]
pub enum Target {
    Var(VarId),
    Cell { row: u16, column: u16 },
}

/// A target, and the term whose value in the old state it takes.
#[derive(Debug, Drop)]
pub struct Update {
    pub target: Target,
    pub term: Term,
}

impl Plain for Update {
    fn copy(&self, alloc: Global) -> Result<Self, AllocError> {
        let term = self.term.copy(alloc)?;
        Ok(Update {
            target: self.target,
            term,
        })
    }

    fn equal(&self, other: &Self) -> bool {
        self.target == other.target && self.term.equal(&other.term)
    }
}
