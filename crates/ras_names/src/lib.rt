//! What a specification text denotes: a system and the names of its parts, or the first fault of names and sorts. Files of
//! the grammar come in, and the words of `specs/` go out: the layer above uses `Denotes`, `FileDenotes` and `first_fault`.
#![tactic(auto)]

pub mod law;
mod names;
mod spec_fault;

pub use names::{GoalNames, Names, RelNames, StepNames};
pub use spec_fault::{SpecFault, SpecKind};
