//! Reasons. What goes in is a tree that closes a premise by cases on a list of formulas; what comes out are the numbers of the
//! formulas that it names: those alone suffice. The layer above uses the contract of `named_formulas` and the law.
#![tactic(auto)]

mod law;
mod named;

pub use law::named_formulas_suffice;
pub use named::named_formulas;
