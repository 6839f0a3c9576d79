ghost use Rattle.std.specs.Prelude.{◌≡◌, ◌↔◌, IsTrue};
ghost use Rattle.ras_logic.specs.Trees.{children_of, IsWhole};

use crate::plain::Plain;
use crate::seq::List;
use std::alloc::{AllocError, Global};

/// A node of a refutation by cases: facts that clash, or one case for each literal of a formula under the chosen rows.
#[derive(Debug, Drop)]
pub enum Node {
    Leaf,
    Split {
        formula: u32,
        rows: List<u32>,
        children: u32,
    },
}

/// The nodes of a refutation in preorder. A list of nodes need not be a whole tree.
#[derive(Debug, Drop)]
pub struct Tree {
    pub nodes: List<Node>,
}

/// How many trees stand below a node.
fn children(node: &Node) -> u32
    ensures { result ≡ children_of node.now }
{
    match node {
        Node::Leaf => 0,
        Node::Split { children, .. } => *children,
    }
}

impl Tree {
    /// Whether the nodes are exactly one tree in preorder.
    pub fn whole(&self) -> bool
        ensures { IsTrue result ↔ IsWhole self.now }
    {
        let mut pending: u64 = 1;
        for node in self.nodes.as_slice() {
            if pending == 0 {
                return false;
            }
            pending = pending - 1 + u64::from(children(node));
        }
        pending == 0
    }
}
