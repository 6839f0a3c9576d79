use ras_closure::Model;
use ras_logic::Tree;

/// What the search does next.
#[derive(Debug, Drop)]
pub enum Step {
    /// It looks at the case at hand.
    Enter,
    /// It leaves the case at hand, which this tree refutes.
    Leave(Tree),
    /// It ends: this model falsifies each instance.
    End(Model),
}
