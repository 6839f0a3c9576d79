//! The texts of evidences: an evidence comes in, its text goes out. The layer above uses the contract of `write_evidence`: the
//! bytes are the lines of the evidence, each with its end.
#![tactic(auto)]

mod events;
mod evidences;
mod formulas;
mod law;
mod put;
mod runs;
mod trees;

pub use events::write_event;
pub use evidences::write_evidence;
pub use law::{a_writable_evidence_has_its_text, what_is_written_is_read_again};
