//! The judge of evidence. A system and an evidence come in; what comes out is that the evidence is good, or the first thing
//! that is wrong with it, and the line that tells of either: the layer above uses the contracts of `check`, `valid_line` and
//! `invalid_line`.
#![tactic(auto)]

mod judging;
mod law;
mod lines;
mod verdict;

pub use judging::check;
pub use law::{
    a_good_evidence_of_a_violation_suffices, a_good_evidence_of_safety_suffices,
    a_text_is_complete, an_evidence_is_judged_in_one_way, each_evidence_has_a_verdict,
};
pub use lines::{invalid_line, valid_line};
pub use verdict::{Invalid, Verdict};
