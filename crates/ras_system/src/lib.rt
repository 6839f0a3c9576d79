//! Relational artifact systems: what one is, its steps and runs, when it is safe, and when a certificate of safety is
//! good. The layer above uses the type `System`, the words of `specs/` and the laws of `law`: an invariant suffices, and a
//! good certificate suffices.
#![tactic(auto)]

mod bulk;
mod checks;
mod choice;
mod law;
mod state;
mod system;
mod system_fault;
mod transition;
mod update;

pub use bulk::{Assign, Bulk};
pub use choice::Choice;
pub use law::{
    a_good_evidence_suffices, an_invariant_suffices, no_fault_is_first_exactly_in_a_system,
};
pub use state::State;
pub use system::System;
pub use system_fault::{SystemFault, SystemKind, SystemPlace};
pub use transition::Transition;
pub use update::{Target, Update};
