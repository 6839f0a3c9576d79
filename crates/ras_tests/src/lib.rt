//! Tests of calls that no command makes yet, each with enough memory. They stand apart from the crates of these calls, since a
//! crate with tests is proved twice.
#![tactic(auto)]

#[cfg(test)]
mod formulas;
#[cfg(test)]
mod systems;
#[cfg(test)]
mod witnesses;
#[cfg(test)]
mod writing;
