use crate::bulk::Bulk;
use crate::update::Update;
use ras_logic::{List, Literal, Plain, Rows, SortId};
use std::alloc::{AllocError, Global};

/// A kind of step: it chooses rows for its row parameters and elements for its data parameters, some disjunct of its guard
/// holds, and its updates and bulk cases change the state. A guard `true` is one disjunct without literals.
#[derive(Debug, Drop)]
pub struct Transition {
    pub rows: Rows,
    pub params: List<SortId>,
    pub guard: List<List<Literal>>,
    pub updates: List<Update>,
    pub bulk: List<Bulk>,
}

impl Plain for Transition {
    fn copy(&self, alloc: Global) -> Result<Self, AllocError> {
        Ok(Transition {
            rows: self.rows.copy(alloc)?,
            params: self.params.copy(alloc)?,
            guard: self.guard.copy(alloc)?,
            updates: self.updates.copy(alloc)?,
            bulk: self.bulk.copy(alloc)?,
        })
    }

    fn equal(&self, other: &Self) -> bool {
        self.rows.equal(&other.rows)
            && self.params.equal(&other.params)
            && self.guard.equal(&other.guard)
            && self.updates.equal(&other.updates)
            && self.bulk.equal(&other.bulk)
    }
}
