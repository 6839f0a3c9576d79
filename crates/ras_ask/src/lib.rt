//! What a search asks its store. What goes in are a store and a cube; what comes out is whether the states of the cube are
//! among those of the kept entries, with the entries that are the reasons, or a state of the cube that meets no entry. The
//! layer above uses the contract of `ask`.
#![tactic(auto)]

mod asking;

pub use asking::{Asked, ask};
