//! Tests of the state of a search. They stand apart from it, since a crate with tests is proved twice.
#![tactic(auto)]

#[cfg(test)]
mod journals;
