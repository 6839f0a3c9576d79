//! The tree checker. What goes in are a premise, formulas and a tree that somebody made; what comes out is whether the tree
//! refutes the premise by cases on the formulas, or its first fault: the layer above uses `closes`.
//!
//! A walk goes over the nodes with the facts of the node at hand. At a leaf the terms of the facts are put into a table, and
//! into classes by the facts and the rules for functions, until none asks for more; then a look at the classes tells
//! whether the facts clash. The search has a closure of its own: a tree is judged apart from what made it.
#![tactic(auto)]

mod cases;
mod chosen;
mod clash;
mod classes;
mod closing;
mod entry;
mod facts;
mod law;
mod rules;
mod table;
mod tree_fault;
mod walk;

pub use chosen::are_rows_of;
pub use closing::closes;
pub use law::{a_fault_is_no_closing, the_first_fault_is_one};
pub use ras_logic::{Node, Tree};
pub use tree_fault::{CloseError, TreeFault, TreeKind};
