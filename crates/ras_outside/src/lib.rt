//! Names and bytes come in, files' bytes and faults go out: what the verifier reads and where it writes.
//! The layer above is generic over the contracts of `Shelf::load` and `Sink::put`, and sees the outside through nothing else.
#![tactic(auto)]

mod dir_shelf;
mod mem_shelf;
mod mem_sink;
mod shelf;
mod sink;
mod std_sink;

pub use dir_shelf::DirShelf;
pub use mem_shelf::MemShelf;
pub use mem_sink::MemSink;
pub use shelf::{LoadFault, Shelf};
pub use sink::{Sink, SinkFault};
pub use std_sink::StdSink;

#[cfg(test)]
mod tests;
