//! Steps and runs over explicit rows: what goes in are a database, a system, a state and choices, what comes out are the
//! states that the choices lead to, or the first refusal, and the rows by which a state meets a cube. The layer above uses
//! that `step`, `replay` and `meets` are the definitions.
#![tactic(auto)]

mod changes;
mod fitting;
mod law;
mod refusal;
mod replay_fault;
mod replaying;
mod row_buffer;
mod rows;
mod run;
mod searching;
mod sight;
mod step_fault;
mod stepping;
mod truth;
mod witness;

pub use fitting::{is_initial, state_fits};
pub use law::{
    a_fault_is_no_step, a_want_of_memory_is_a_step, no_step_has_a_fault, the_first_fault_is_one,
};
pub use replay_fault::ReplayFault;
pub use replaying::replay;
pub use row_buffer::{RowBuffer, meets};
pub use run::Run;
pub use sight::cells_of;
pub use step_fault::StepFault;
pub use stepping::step;
pub use witness::Witness;
