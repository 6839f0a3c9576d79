//! Tests of covers, of extensions, and of one step backwards with covers, each with enough memory. They stand apart from
//! these, since a crate with tests is proved twice.
#![tactic(auto)]

#[cfg(test)]
mod covering;
#[cfg(test)]
mod extending;
#[cfg(test)]
mod holding;
#[cfg(test)]
mod leading;
#[cfg(test)]
mod said;
#[cfg(test)]
mod systems;
