//! Tests of the solver and of the tree checker. They stand apart from these, since a crate with tests is proved twice.
#![tactic(auto)]

#[cfg(test)]
mod refuting;
#[cfg(test)]
mod solving;
