//! Entailment. What goes in are a premise and a list of cubes; what comes out is whether the states of the premise are among
//! those of the cubes, with a tree that shows it, or a state that is not among them: the layer above uses `entails`.
//!
//! The cubes' instances under the premise's rows go to the solver. A model that it finds gives a state with just the
//! premise's rows.
#![tactic(auto)]

mod entail;
mod entailing;
mod judging;
mod scanning;
mod starts;
mod states;
mod witnesses;

pub use entail::Entail;
pub use entailing::entails;
pub use starts::initial_meets;
