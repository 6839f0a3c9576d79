//! Tests of concrete runs, each with enough memory. They stand apart from what they test, since a crate with tests is proved
//! twice.
#![tactic(auto)]

#[cfg(test)]
mod chaining;
#[cfg(test)]
mod following;
#[cfg(test)]
mod rows;
