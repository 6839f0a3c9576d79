//! Extensions: where values meet a cover of a problem, a larger database in which they satisfy the problem itself. What goes in
//! is a problem, a database and values of variables and rows; what comes out is a `Model` that extends the database, or none.
//! The layer above uses the contract of `extend`.
#![tactic(auto)]

mod enlarging;
mod filling;
mod numbering;
mod tables;

pub use enlarging::extend;
