use ras_logic::{List, Literal, Plain, RelId, Term};
use std::alloc::{AllocError, Global};

/// A column of the updated row, and the term whose value in the old state its cell takes.
#[derive(Debug, Drop)]
pub struct Assign {
    pub column: u16,
    pub term: Term,
}

/// A case of a bulk update of a relation. It takes the unnamed rows for which its condition holds and that no earlier case
/// of the relation takes. The updated row is the one with the number that follows the row parameters.
#[derive(Debug, Drop)]
pub struct Bulk {
    pub relation: RelId,
    pub condition: List<Literal>,
    pub assigns: List<Assign>,
}

impl Plain for Assign {
    fn copy(&self, alloc: Global) -> Result<Self, AllocError> {
        let term = self.term.copy(alloc)?;
        Ok(Assign {
            column: self.column,
            term,
        })
    }

    fn equal(&self, other: &Self) -> bool {
        self.column == other.column && self.term.equal(&other.term)
    }
}

impl Plain for Bulk {
    fn copy(&self, alloc: Global) -> Result<Self, AllocError> {
        let condition = self.condition.copy(alloc)?;
        let assigns = self.assigns.copy(alloc)?;
        Ok(Bulk {
            relation: self.relation,
            condition,
            assigns,
        })
    }

    fn equal(&self, other: &Self) -> bool {
        self.relation == other.relation
            && self.condition.equal(&other.condition)
            && self.assigns.equal(&other.assigns)
    }
}
