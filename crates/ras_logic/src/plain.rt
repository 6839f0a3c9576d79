ghost use Rattle.std.specs.Prelude.{◌≡◌, ◌↔◌, IsTrue, IfOk};

use std::alloc::{AllocError, Global};

/// A value that is all that a contract sees of it, so that a copy is the same value.
pub trait Plain: Drop {
    /// The same value, in memory of its own.
    fn copy(&self, alloc: Global) -> Result<Self, AllocError>
        ensures { IfOk result (λ r. r ≡ self.now) };

    /// Whether the two are the same value.
    fn equal(&self, other: &Self) -> bool
        ensures { IsTrue result ↔ (self.now ≡ other.now) };
}

impl Plain for u32 {
    fn copy(&self, _alloc: Global) -> Result<Self, AllocError> {
        Ok(*self)
    }

    fn equal(&self, other: &Self) -> bool {
        *self == *other
    }
}

impl<T: Plain> Plain for Option<T> {
    fn copy(&self, alloc: Global) -> Result<Self, AllocError> {
        match self {
            None => Ok(None),
            Some(x) => Ok(Some(x.copy(alloc)?)),
        }
    }

    fn equal(&self, other: &Self) -> bool {
        match (self, other) {
            (None, None) => true,
            (Some(x), Some(y)) => x.equal(y),
            _ => false,
        }
    }
}
