ghost use Rattle.std.specs.Prelude.{◌≡◌, List};
ghost use Rattle.ras_logic.specs.Trees.{children_of};
ghost use Rattle.ras_lines.specs.Fronts.{Reads};
ghost use Rattle.ras_lines.specs.Nodes as first;
ghost use Rattle.ras_lines.specs.Numbers.{number};

use crate::spelled::{Spelled, counted};
use crate::stop::Stop;
use crate::words::Words;
use ras_logic::{List, Node, Tree};
use std::alloc::Global;

impl Spelled for u32 {
    ghost use Rattle.ras_lines.specs.Numbers.{number};

    ghost first = { number };

    fn read(words: &mut Words<'_>, _alloc: Global) -> Result<u32, Stop> {
        words.number()
    }
}

/// What stands behind `split`.
fn split(words: &mut Words<'_>, alloc: Global) -> Result<Node, Stop>
    ensures { Reads first.split words.old.rest.now words.new.rest.now result }
{
    let formula = words.next_number()?;
    let rows: List<u32> = counted(words, alloc)?;
    let children = words.next_number()?;
    Ok(Node::Split {
        formula,
        rows,
        children,
    })
}

fn node(words: &mut Words<'_>, alloc: Global) -> Result<Node, Stop>
    ensures { Reads first.node words.old.rest.now words.new.rest.now result }
{
    if words.has(b"leaf") {
        return Ok(Node::Leaf);
    }
    if words.has(b"split") {
        return split(words, alloc);
    }
    Err(Stop::Misfit)
}

/// How many trees stand below a node.
fn children_count(node: &Node) -> u32
    ensures { result ≡ children_of node.now }
{
    match node {
        Node::Leaf => 0,
        Node::Split { children, .. } => *children,
    }
}

/// The nodes of one whole tree, as many as the announced children make it.
#[tactic(auto, using(crate::proofs::NodeLaws::nodes_laws))]
fn nodes(words: &mut Words<'_>, alloc: Global) -> Result<List<Node>, Stop>
    ensures { Reads (first.nodes 1) words.old.rest.now words.new.rest.now result }
{
    let mut nodes = List::new(alloc);
    let mut pending: u128 = 1;
    while pending > 0 {
        words.fixed(b" ")?;
        let node = node(words, alloc)?;
        let below = children_count(&node);
        nodes.push(node)?;
        pending = pending - 1 + u128::from(below);
    }
    Ok(nodes)
}

impl Spelled for Tree {
    ghost first = { first.tree };

    fn read(words: &mut Words<'_>, alloc: Global) -> Result<Tree, Stop> {
        words.fixed(b"tree")?;
        let nodes = nodes(words, alloc)?;
        Ok(Tree { nodes })
    }
}
