//! Journals in lines of numbers. Lines come in, a journal goes out, or the first line with which none goes on. The layer above
//! uses that `read_journal` is the function `journal` of the lines.
#![tactic(auto)]

mod event_line;
mod journals;
mod law;
mod origins;

pub use journals::read_journal;
pub use law::journals_are_read_exactly;
