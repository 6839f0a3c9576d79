use crate::ids::SortId;
use crate::literal::Literal;
use crate::plain::Plain;
use crate::seq::{List, Rows};
use std::alloc::{AllocError, Global};

/// Named rows, each of a relation, data parameters, each of a sort, and literals over them and the artifact variables.
#[derive(Debug, Drop)]
pub struct Problem {
    pub rows: Rows,
    pub params: List<SortId>,
    pub literals: List<Literal>,
}

impl Plain for Problem {
    fn copy(&self, alloc: Global) -> Result<Self, AllocError> {
        Ok(Problem {
            rows: self.rows.copy(alloc)?,
            params: self.params.copy(alloc)?,
            literals: self.literals.copy(alloc)?,
        })
    }

    fn equal(&self, other: &Self) -> bool {
        self.rows.equal(&other.rows)
            && self.params.equal(&other.params)
            && self.literals.equal(&other.literals)
    }
}
