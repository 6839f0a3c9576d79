//! The judge of an evidence of a violation: a database in numbers and a run. What comes out is that they are a violation of the
//! system, or the first thing that is wrong with them; and the texts that tell of either. The layer above uses the contracts of
//! `check_violation`, `replay_text` and `invalid_line`, and, for the judge of runs from other states, those of `goal_met`.
#![tactic(auto)]

mod invalid;
mod judging;
mod law;
mod replayed;
mod violation_fault;
mod writing;

pub use invalid::{invalid_line, put_database, put_step};
pub use judging::{GoalMet, check_violation, goal_met};
pub use law::{
    a_fault_is_no_violation, a_violation_has_one_text, a_violation_is_not_safe,
    no_violation_has_a_fault, the_first_fault_is_one,
};
pub use replayed::replay_text;
pub use violation_fault::{ViolationError, ViolationFault};
