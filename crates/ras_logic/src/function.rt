use crate::ids::SortId;
use crate::plain::Plain;
use std::alloc::{AllocError, Global};

/// A unary function of a schema. A total one has undef as the image of undef alone, a nullable one may have it of other
/// elements too.
#[derive(Clone, Copy, Debug, PartialEq, Eq)]
pub struct FunDecl {
    pub source: SortId,
    pub target: SortId,
    pub total: bool,
}

impl Plain for FunDecl {
    fn copy(&self, _alloc: Global) -> Result<Self, AllocError> {
        Ok(*self)
    }

    fn equal(&self, other: &Self) -> bool {
        self == other
    }
}
