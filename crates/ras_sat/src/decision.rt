use ras_closure::Model;
use ras_logic::Tree;

/// The answer of the solver.
#[derive(Debug, Drop)]
pub enum Decision {
    /// Nothing satisfies the premise and falsifies each instance: a tree that refutes the premise by cases on the instances.
    Refuted(Tree),
    /// A database and values that satisfy the premise and falsify each instance.
    Model(Model),
}
