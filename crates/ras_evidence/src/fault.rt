/// What is wrong in an evidence text.
#[derive(Clone, Copy, Debug, PartialEq, Eq)]
pub enum EvidenceKind {
    /// The first line is that of another version.
    Version,
    /// No evidence text goes on with this whole line.
    Text,
    /// The line is missing or not ended.
    Ended,
}

/// The first line of an evidence that does not fit, counted from 1 at the first line of the text: of the evidence, or of the
/// text that it stands in.
#[derive(Clone, Copy, Debug, PartialEq, Eq)]
pub struct EvidenceFault {
    pub line: u64,
    pub kind: EvidenceKind,
}
