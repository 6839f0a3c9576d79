//! The tree of a specification comes in, and the system that it denotes goes out with the names of its parts, or its first
//! fault. The layer above uses the contract of `elaborate`, in the words of `ras_names`.
#![tactic(auto)]

mod elaborating;
mod goals;
pub mod law;
mod steps;

pub use elaborating::{Spec, elaborate};
pub use ras_scope::fault::SpecError;
