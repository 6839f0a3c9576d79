//! The solver. What goes in are a premise, formulas, and instances, each a formula under rows of the premise; what comes out
//! is a tree that refutes the premise by cases on the instances, or a model of the premise that falsifies each of them: the
//! layer above uses `decide`.
//!
//! The search goes through the cases depth first, with the open splits on a list: a closure over the facts of the case at
//! hand tells whether they clash, and else its model shows which instances are still to be split on. A finished split
//! that a child does not need is replaced by that child's tree.
#![tactic(auto)]

mod choice;
mod deciding;
mod decision;
mod facts;
mod instance;
mod instances;
mod judging;
mod law;
mod open_split;
mod opposites;
mod pruning;
mod search;
mod step;
mod task;
mod verdict;

pub use deciding::decide;
pub use decision::Decision;
pub use instance::Instance;
pub use instances::are_instances;
pub use law::{no_child_is_idle, one_answer_is_right};
