//! The commands of rasprove. The words of the command line, a shelf of files and a sink come in; a text goes out to the sink,
//! and a status: the program uses the contract of `verify_quiet`.
#![tactic(auto)]

mod commands;
mod judging;
mod law;
mod loading;
mod outcome;
mod putting;
mod verify;
mod words;

pub use verify::verify_quiet;
