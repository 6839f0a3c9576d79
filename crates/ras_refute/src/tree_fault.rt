ghost use Rattle.std.specs.Prelude.{◌≡◌};
ghost use Rattle.ras_refute.specs.declared.tree_fault.CloseError.TheVariants.{Memory};

use std::alloc::AllocError;
use thiserror::Error;

/// What is wrong with a node, in the order in which it is looked for.
#[derive(Clone, Copy, Debug, PartialEq, Eq, Error)]
pub enum TreeKind {
    /// A split by a formula that is not in the list.
    #[error("no such formula")]
    NoFormula,
    /// The chosen rows are not as many as the formula's, or one is not a row of the premise, of another relation, or
    /// chosen twice.
    #[error("rows that do not fit the formula")]
    Rows,
    /// A split that has not one child for each literal of its formula.
    #[error("a wrong number of children")]
    Children,
    /// A leaf whose facts do not clash.
    #[error("facts that do not clash")]
    NoClash,
}

/// The first node of a tree that is wrong.
#[derive(Clone, Copy, Debug, PartialEq, Eq, Error)]
#[error("node {node}: {kind}")]
pub struct TreeFault {
    /// How many nodes stand before it in preorder.
    pub node: u32,
    pub kind: TreeKind,
}

/// Why a tree is not found to close.
#[derive(Debug, Drop, Error)]
pub enum CloseError {
    /// The first fault of the tree, which does not close.
    #[error(transparent)]
    Fault(TreeFault),
    /// Memory ran out, or a list had no room left for what a fact adds.
    #[error(transparent)]
    Memory(AllocError),
}

impl From<AllocError> for CloseError {
    ghost from_gives = { λ error result. result ≡ Memory error };

    fn from(error: AllocError) -> CloseError {
        CloseError::Memory(error)
    }
}
