//! The list of a preimage, problem by problem: what goes in are a system, the number of a transition and a cube; what comes
//! out are the problems of which a state meets one exactly where it has a step into the cube. The layer above uses `pre`.
#![tactic(auto)]

mod combining;
mod matching;
mod problems;
mod renumbering;
mod replacing;
mod sources;
mod unmatched_rows;
mod ways;

pub use problems::{pre, preimage};
