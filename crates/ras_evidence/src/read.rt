use crate::value::Evidence;
use ras_core::Journal;

/// What a text holds: an evidence, and the journal that stands behind it, where one does.
#[derive(Drop)]
pub struct Read {
    pub evidence: Evidence,
    pub journal: Option<Journal>,
}
