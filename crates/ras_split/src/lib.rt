//! The cases of a problem. What goes in is a closure of what a problem asserts; what comes out are cases, of which one holds
//! wherever the problem does. In each of them every class that has an image under a total function has a term without data
//! parameters that stands for it, or is not undef. The layer above uses `Case` and the contract of `cases_of`.
#![tactic(auto)]

mod case;
mod splitting;
mod standing;

pub use case::Case;
pub use splitting::cases_of;
pub use standing::own;
