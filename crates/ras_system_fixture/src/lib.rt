//! What tests of systems are made of: databases, states and systems, each from numbers, and the processes that more than one
//! test looks at.
#![tactic(auto)]

mod databases;
mod processes;
mod steps;

pub use databases::{Held, list, lists, raw, state};
pub use processes::{
    ANY_USER, APPLY_WITHDRAW, FREE, HIRING, MISHANDLED, PICK, PICKED, UNDEF, X, Y,
};
pub use steps::{Case, Side, Step, system};
