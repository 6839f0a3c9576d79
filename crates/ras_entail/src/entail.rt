use ras_logic::Tree;
use ras_steps::Witness;

/// Whether the states of a premise are among those of a list of cubes.
#[derive(Debug, Drop)]
pub enum Entail {
    /// They are: a tree that refutes the premise by cases on the cubes.
    Yes(Tree),
    /// They are not: a state of the premise that meets no cube of the list.
    Escape(Witness),
}
