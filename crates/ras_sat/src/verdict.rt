use ras_closure::Model;

/// What is so of the facts of a case.
#[derive(Debug, Drop)]
pub enum Verdict {
    /// They clash.
    Clash,
    /// They hold in a model that falsifies each instance.
    Escape(Model),
    /// They falsify no literal of this instance, as far as a model of theirs shows.
    Open(usize),
}
