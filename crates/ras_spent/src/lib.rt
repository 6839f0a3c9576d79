//! The judge of an evidence of a spent budget: entries, each a formula with a database and a run. What comes out is that they
//! are good, or the first thing that is wrong with the first entry that is not; and the line that tells of it. The layer above
//! uses the contracts of `check_spent` and `invalid_line`.
#![tactic(auto)]

mod invalid;
mod judging;
mod law;
mod spent_fault;

pub use invalid::invalid_line;
pub use judging::check_spent;
pub use law::{a_fault_is_not_good, no_evidence_is_without_a_verdict, the_first_fault_is_one};
pub use spent_fault::{EntryFault, SpentError, SpentFault};
