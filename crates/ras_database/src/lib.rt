//! Databases over a schema: what goes in are numbers, what comes out are databases, or the first fault of the numbers. The
//! layer above uses that a `Database` is made exactly of a database of the schema, and that `value`, `holds` and `extends`
//! are the definitions.
#![tactic(auto)]

mod checking;
mod database;
mod db_fault;
mod extending;
mod law;
mod truth;

pub use database::Database;
pub use db_fault::{DbFault, Part};
pub use extending::extends;
pub use law::{a_fault_is_no_database, no_database_has_a_fault, the_first_fault_is_one};
pub use truth::{holds, value};
