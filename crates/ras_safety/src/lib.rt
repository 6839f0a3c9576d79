//! The judge of evidence of safety. What goes in are a system, formulas and trees that somebody made; what comes out is that they
//! are a good evidence, or the first thing that is wrong with it: the layer above uses `check_safe`.
//!
//! It stands on the lists of preimages and the tree checker, and on no closure of the search.
#![tactic(auto)]

mod judge;
mod law;
mod open_tree;
mod safe;
mod safe_fault;

pub use law::{a_fault_is_not_good, the_first_fault_is_one};
pub use safe::check_safe;
pub use safe_fault::{SafeFault, SafetyError};
