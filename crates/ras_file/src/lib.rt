//! Specification files. The bytes of a file come in, and what goes out is the system that they denote with its names, or the
//! file's first fault with its place: the layer above uses the contracts of `read_file` and `refusal_line`.
#![tactic(auto)]

mod fault;
pub mod law;
mod reading;
mod refusal;

pub use fault::{FileError, FileFault, FileKind};
pub use reading::read_file;
pub use refusal::refusal_line;
