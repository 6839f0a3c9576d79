//! Tests of row maps, of one cube by another, of entailment, and of initial states that meet a cube, each with enough memory. They
//! stand apart from these, since a crate with tests is proved twice.
#![tactic(auto)]

#[cfg(test)]
mod entailing;
#[cfg(test)]
mod mapping;
#[cfg(test)]
mod said;
#[cfg(test)]
mod starting;
#[cfg(test)]
mod subsuming;
