//! Evidence in numbers: bytes come in, an evidence goes out, and the journal behind it. The layer above uses the contracts of `read_evidence`, and of
//! `read_evidence_behind` where an evidence stands behind other lines: they answer the evidence exactly where the lines spell
//! one, and else name the first line that does not fit.
#![tactic(auto)]

mod entries;
mod fault;
mod header;
mod law;
mod parts;
mod places;
mod read;
mod reading;
mod safe;
mod value;
mod worked;

pub use fault::{EvidenceFault, EvidenceKind};
pub use law::{
    a_text_has_no_fault, bytes_are_a_text_or_have_a_fault, bytes_have_one_evidence,
    bytes_have_one_first_fault, bytes_have_one_text,
};
pub use places::line_number;
pub use read::Read;
pub use reading::{ReadError, read_evidence, read_evidence_behind};
pub use value::{Entry, Evidence};
pub use worked::{texts_of_evidences, texts_with_a_fault};
