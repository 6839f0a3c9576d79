use ras_lexer::Text;
use std::alloc::AllocError;
use thiserror::Error;

/// What is wrong with a specification file at a place.
#[derive(Clone, Copy, Debug, PartialEq, Eq)]
pub enum FileKind {
    /// Outside a comment, the byte begins no token.
    BadByte,
    /// A name of more than 64 bytes begins there.
    LongName,
    /// The byte, in a comment, is no part of a whole UTF-8 character.
    BadUtf8,
    /// No file goes on with the token there, or the file ends there too early.
    Syntax,
    /// The name is not new.
    DuplicateName,
    /// Nothing of the wanted kind that may be used there has the name.
    UnknownName,
    /// The argument of the function has another sort than its source, or the two sides of the sign have no common sort.
    WrongSort,
    /// The function of the name closes a cycle of sorts: the names of its source and its target.
    Cycle { source: Text, target: Text },
    /// The item is the first beyond its limit.
    TooMany,
    /// The disjunct or literal is the first beyond its limit.
    TooWide,
    /// The target is assigned already, or the relation has an `each` already.
    RepeatedTarget,
}

/// Why a file denotes no system: the number of the bytes before a place, and what is wrong there.
#[derive(Clone, Copy, Debug, PartialEq, Eq)]
pub struct FileFault {
    pub at: u32,
    pub kind: FileKind,
}

/// Why a file was not read.
#[derive(Debug, Drop, Error)]
pub enum FileError {
    #[error("the file has a fault at byte {}", .0.at)]
    Fault(FileFault),
    #[error("out of memory")]
    Memory(AllocError),
}
