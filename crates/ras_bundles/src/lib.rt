//! Bundles: bytes come in, a system without relations and data parameters goes out, with the evidence that stands behind it. The
//! layer above uses the contract of `read_bundle`: it answers both exactly where the bytes are a bundle, and else names the
//! first line in which something is wrong, and what.
#![tactic(auto)]

mod bundle;
mod denoted;
mod fault;
mod grammar;
mod judging;
mod law;
mod literals;
mod shape_lines;
mod step_lines;
mod system_lines;
mod worked;

pub use bundle::{Bundle, read_bundle};
pub use fault::{BundleError, BundleKind};
pub use law::{
    a_bundle_has_no_fault, a_cycle_is_told_where_it_closes, bytes_are_a_bundle_or_have_a_fault,
    bytes_are_one_bundle, bytes_begin_with_one_system, bytes_have_one_bundle_fault,
    each_line_has_its_checks, numbers_denote_a_system_or_have_a_fault,
};
pub use worked::{text_of_a_bundle, texts_with_a_system_fault};
