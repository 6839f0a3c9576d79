//! What a closure knows of literals. What goes in are a premise with a closure of its literals, and a literal; what comes out
//! is whether the literal holds wherever the premise does, or fails there, as far as classes and the premise's own literals
//! tell: the layers above use `truth_of`.
#![tactic(auto)]

mod known;

pub use known::{Known, Sides, all_apart, are_apart, truth_of};
