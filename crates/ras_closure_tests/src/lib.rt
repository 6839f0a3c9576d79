//! Tests of the closure. They stand apart from it, since a crate with tests is proved twice.
#![tactic(auto)]

#[cfg(test)]
mod closing;
