//! Declarations: the items of a file above its steps come in, and what they declare goes out by the numbers of names, or their first
//! fault. The layer above uses the clauses of `read_declarations` and `read_named`.
#![tactic(auto)]

pub mod declarations;
pub mod named;
