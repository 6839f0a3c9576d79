//! Databases and runs in lines of numbers. Lines come in, a database or a run goes out, or the first line with which none
//! goes on. The layer above uses that `read_database` and `read_run` are the functions `database` and `run` of the lines.
#![tactic(auto)]

mod databases;
mod law;
mod number_lines;
mod runs;
mod step_line;

pub use databases::read_database;
pub use law::{databases_are_read_exactly, runs_are_read_exactly};
pub use runs::read_run;
