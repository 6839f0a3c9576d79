//! The canonical text of a system with its names. A system and names come in, and the bytes of the text go out: the layer
//! above uses the clauses of `print`, which says that they are the canonical text of each file that denotes the two.
#![tactic(auto)]

mod declarations;
mod formulas;
mod goals;
pub mod law;
mod lookup;
mod printing;
mod scope;
mod steps;

pub use printing::print;
