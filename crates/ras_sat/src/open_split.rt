use ras_logic::{List, Tree};

/// A split whose children are not all refuted yet.
#[derive(Debug, Drop)]
pub struct OpenSplit {
    /// The place of its instance in the list.
    pub instance: usize,
    /// The trees of its first children.
    pub done: List<Tree>,
}
