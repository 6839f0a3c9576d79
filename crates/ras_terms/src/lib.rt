//! Terms, formulas, updates and cases: a part of the tree of a file and what may be named there come in, and the part by the
//! numbers of its names goes out, or its first fault. The layer above uses the clauses of the readers.
#![tactic(auto)]

pub mod cases;
pub mod formulas;
pub mod terms;
pub mod updates;
