use crate::plain::Plain;
use crate::seq::List;
use std::alloc::{AllocError, Global};

/// A database as numbers: the size of each sort, for each function the images of 1 to n, and the element of each constant.
#[derive(Debug, Drop)]
pub struct RawDb {
    pub sizes: List<u32>,
    pub tables: List<List<u32>>,
    pub constants: List<u32>,
}

impl Plain for RawDb {
    fn copy(&self, alloc: Global) -> Result<Self, AllocError> {
        Ok(RawDb {
            sizes: self.sizes.copy(alloc)?,
            tables: self.tables.copy(alloc)?,
            constants: self.constants.copy(alloc)?,
        })
    }

    fn equal(&self, other: &Self) -> bool {
        self.sizes.equal(&other.sizes)
            && self.tables.equal(&other.tables)
            && self.constants.equal(&other.constants)
    }
}
