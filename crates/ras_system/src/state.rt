use ras_logic::{List, Plain};
use std::alloc::{AllocError, Global};

/// An element for each artifact variable, and the rows of each artifact relation, in order, each the elements of its cells.
#[derive(Debug, Drop)]
pub struct State {
    pub vars: List<u32>,
    pub relations: List<List<List<u32>>>,
}

impl Plain for State {
    fn copy(&self, alloc: Global) -> Result<Self, AllocError> {
        Ok(State {
            vars: self.vars.copy(alloc)?,
            relations: self.relations.copy(alloc)?,
        })
    }

    fn equal(&self, other: &Self) -> bool {
        self.vars.equal(&other.vars) && self.relations.equal(&other.relations)
    }
}
