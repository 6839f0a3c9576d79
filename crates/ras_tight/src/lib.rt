//! Tight cubes. What goes in are a cube and a list of cubes among which its states are; what comes out is the cube without
//! the literals that can be left out so that this stays true: the layer above uses the contract of `tighten`.
#![tactic(auto)]

mod tightening;

pub use tightening::tighten;
