ghost use Rattle.std.specs.Prelude.{◌≡◌, alloc_error};
ghost use Rattle.ras_lexer.specs.declared.fault.LexError.TheVariants.{Memory};

use std::alloc::{AllocError, AllocFailed};
use thiserror::Error;

/// What is wrong with the bytes at a place.
#[derive(Clone, Copy, Debug, PartialEq, Eq)]
pub enum LexKind {
    /// Outside a comment, the byte begins no token.
    BadByte,
    /// A name of more than 64 bytes begins there.
    LongName,
    /// The byte, in a comment, is no part of a whole UTF-8 character.
    BadUtf8,
}

/// The first fault of a text, and its place.
#[derive(Clone, Copy, Debug, PartialEq, Eq)]
pub struct LexFault {
    pub at: u32,
    pub kind: LexKind,
}

/// Why a text has no tokens.
#[derive(Debug, Drop, Error)]
pub enum LexError {
    #[error("the text has a fault at byte {}", .0.at)]
    Fault(LexFault),
    #[error("out of memory")]
    Memory(AllocError),
}

impl<T: Drop> From<AllocFailed<T>> for LexError {
    ghost from_gives = { λ _ e. e ≡ Memory alloc_error };

    fn from(_error: AllocFailed<T>) -> LexError {
        LexError::Memory(AllocError)
    }
}
