//! Concrete runs. A system, a chain of formulas and a state of the first come in; what comes out is a database that extends the
//! state's, and a run in it along the chain to a state that meets a goal: the layer above uses `concretise`.
#![tactic(auto)]

mod concrete;
mod concretising;
mod extending;
mod following;
mod here;
mod met;
mod values;

pub use concrete::Concrete;
pub use concretising::concretise;
