ghost use Rattle.std.specs.Prelude.{◌≡◌};
ghost use Rattle.ras_syntax.specs.declared.fault.ReadError.TheVariants.{Memory};

use std::alloc::{AllocError, AllocFailed};
use thiserror::Error;

/// The first token with which no file goes on.
#[derive(Clone, Copy, Debug, PartialEq, Eq)]
pub struct SyntaxFault {
    /// The place of the token, or the length of the text where its tokens end too early.
    pub at: u32,
}

/// Why tokens have no tree.
#[derive(Debug, Drop, Error)]
pub enum SyntaxError {
    #[error("no file has the token at byte {}", .0.at)]
    Fault(SyntaxFault),
    #[error("out of memory")]
    Memory(AllocError),
}

/// Why a reader stopped.
#[derive(Drop)]
pub(crate) enum ReadError {
    Memory,
    /// How many tokens are left where the fault is, the faulty one included; 0 where the tokens end too early.
    Fault(usize),
}

impl From<AllocError> for ReadError {
    ghost from_gives = { λ _ e. e ≡ Memory };

    fn from(_error: AllocError) -> ReadError {
        ReadError::Memory
    }
}

impl<T: Drop> From<AllocFailed<T>> for ReadError {
    ghost from_gives = { λ _ e. e ≡ Memory };

    fn from(_error: AllocFailed<T>) -> ReadError {
        ReadError::Memory
    }
}
