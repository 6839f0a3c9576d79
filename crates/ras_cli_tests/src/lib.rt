//! Tests of the commands: their answers that were worked out by hand, and loads and puts that fail. They stand apart from
//! `ras_cli`, since a crate with tests is proved twice.
#![tactic(auto)]

#[cfg(test)]
mod tests;
