//! The system that a file without a fault denotes, by the numbers of its names. Files with places come in, and the words of
//! `specs/` go out: the layer above uses `system_value`, which the law says is what the file denotes.
#![tactic(auto)]

pub mod law;
