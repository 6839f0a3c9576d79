//! Subsumption. What goes in are two cubes; what comes out is the first way in which rows of the one can stand for those of
//! the other so that the other holds wherever the one does: the layers above use `one_entails`.
//!
//! The terms of the other cube over each row that can stand for one of its own are put into one closure of the cube, which
//! then tells of each literal under each row map.
#![tactic(auto)]

mod holding;
mod subsuming;
mod widening;

pub use subsuming::one_entails;
