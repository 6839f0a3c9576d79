//! Names in scope: what a file has declared so far, and what may be named at a place; a name comes in, and its number goes out, or
//! the first fault. The layer above uses that these agree with the file (`Agrees`, `Sees`).
#![tactic(auto)]

pub mod declared;
pub mod fault;
pub mod name_set;
pub mod scope;
pub mod table;
