ghost use Rattle.std.specs.Prelude.{◌≡◌, ◌<◌, ◌∷◌, ◌++◌, [], length, slice_get, Some, All, OnOk, IfOk, MatchBool, MatchOption};
ghost use Rattle.std.specs.List.{flat_map};
ghost use Rattle.ras_logic.specs.declared.tree.Tree.{Tree};
ghost use Rattle.ras_logic.specs.Trees.{IsWhole};
ghost use Rattle.ras_logic.specs.Refutations.{Closes};
ghost use Rattle.ras_sat.specs.Tasks.{IsTask, schema_of, opposites_at};
ghost use Rattle.ras_sat.specs.Splits.{AreRefuted, IsRefutation, IsIdle, IsEachOpen};

use crate::instance::Instance;
use crate::open_split::OpenSplit;
use crate::task::Task;
use ras_logic::{List, Node, Plain, Problem, Tree};
use ras_refute::{CloseError, closes};
use std::alloc::{AllocError, Global};

/// Whether a tree closes with these facts.
fn closes_with(
    alloc: Global,
    task: &Task<'_>,
    facts: &Problem,
    tree: &Tree,
) -> Result<bool, AllocError>
    requires { IsWhole tree.now }
    ensures { IfOk result (λ b. MatchBool b (Closes (schema_of task.now) facts.now task.now.formulas.now tree.now.nodes) (¬ Closes (schema_of task.now) facts.now task.now.formulas.now tree.now.nodes)) }
{
    match closes(alloc, task.shape, facts, task.formulas, tree) {
        Ok(()) => Ok(true),
        Err(CloseError::Fault(_)) => Ok(false),
        Err(CloseError::Memory(error)) => Err(error),
    }
}

/// The first of the trees that closes with these facts.
fn first_closing(
    alloc: Global,
    task: &Task<'_>,
    facts: &Problem,
    trees: &[Tree],
) -> Result<Option<usize>, AllocError>
    requires { All IsWhole trees.now }
    ensures { IfOk result (λ o. MatchOption o (IsEachOpen task.now facts.now trees.now) (IsIdle task.now facts.now trees.now)) }
{
    for (place, tree) in trees.iter().enumerate() {
        if closes_with(alloc, task, facts, tree)? {
            return Ok(Some(place));
        }
    }
    Ok(None)
}

/// The nodes of a tree, after those that are there.
fn append(nodes: &mut List<Node>, tree: Tree) -> Result<(), AllocError>
    ensures { OnOk result (nodes.new ≡ nodes.old ++ tree.nodes) }
{
    for node in tree.nodes.into_vec() {
        nodes.push(node)?;
    }
    Ok(())
}

/// A split by an instance, with these trees below it.
fn split_tree(alloc: Global, instance: &Instance, trees: List<Tree>) -> Result<Tree, AllocError>
    ensures { IfOk result (λ t. t.nodes ≡ Node.Split instance.now.formula instance.now.rows (length trees) ∷ flat_map (λ (tree : Tree). tree.nodes) trees) }
{
    let mut nodes = List::new(alloc);
    nodes.push(Node::Split {
        formula: instance.formula,
        rows: instance.rows.copy(alloc)?,
        children: trees.len() as u32,
    })?;
    for tree in trees.into_vec() {
        append(&mut nodes, tree)?;
    }
    Ok(Tree { nodes })
}

/// The tree at a place.
fn tree_at(trees: List<Tree>, place: usize) -> Tree
    requires { place < length trees }
    ensures { slice_get trees place ≡ Some result }
{
    trees.into_vec().remove(place)
}

/// The tree of a split whose children are all refuted: that of the first child that does not need the split, or else all
/// of them below the split.
pub fn finish(
    alloc: Global,
    task: &Task<'_>,
    facts: &Problem,
    split: OpenSplit,
) -> Result<Tree, AllocError>
    requires task { IsTask task.now }
    requires rows { facts.now.rows ≡ task.now.premise.now.rows }
    requires refuted { AreRefuted task.now facts.now.literals split }
    requires all { length split.done ≡ length (opposites_at task.now split.instance) }
    ensures { IfOk result (IsRefutation task.now facts.now.literals) }
{
    match first_closing(alloc, task, facts, split.done.as_slice())? {
        Some(place) => Ok(tree_at(split.done, place)),
        None => split_tree(alloc, &task.instances[split.instance], split.done),
    }
}
