ghost use Rattle.std.specs.Prelude.{◌≡◌, ◌<◌, ◌≤◌, ◌+◌, ◌-◌, ◌*◌, ◌∷◌, [], reverse, length, IfOk, OnOk, Contains};
ghost use Rattle.ras_logic.specs.Clashes.{FactsClash};
ghost use Rattle.ras_sat.specs.Tasks.{IsTask, schema_of, opposites_at};
ghost use Rattle.ras_sat.specs.Verdicts.{IsCase};
ghost use Rattle.ras_sat.specs.Splits.{IsRefutation, AreOpen};
ghost use Rattle.ras_sat.specs.Searches.{IsPlace, IsAtSplit, IsNext, IsLone};
ghost use Rattle.ras_sat.specs.Efforts.{effort_at, effort_behind, effort_of};

use crate::facts::{add_fact, drop_fact};
use crate::judging::judge;
use crate::open_split::OpenSplit;
use crate::pruning::finish;
use crate::step::Step;
use crate::task::Task;
use crate::verdict::Verdict;
use ras_logic::{List, Node, Problem, Tree};
use std::alloc::{AllocError, Global};

/// Where the search is.
#[derive(Debug, Drop)]
pub struct Search {
    /// The premise with the facts of the case at hand.
    pub facts: Problem,
    /// The splits above the case at hand, the last of them last.
    pub open: Vec<OpenSplit>,
}

/// The tree that is a leaf alone.
fn leaf(alloc: Global) -> Result<Tree, AllocError>
    ensures { IfOk result (λ t. t.nodes ≡ Node.Leaf ∷ []) }
{
    let mut nodes = List::new(alloc);
    nodes.push(Node::Leaf)?;
    Ok(Tree { nodes })
}

/// Goes on from a split with the facts at hand: to its next child, or up where all its children are refuted.
fn advance(
    alloc: Global,
    task: &Task<'_>,
    search: &mut Search,
    split: OpenSplit,
) -> Result<Step, AllocError>
    requires task { IsTask task.now }
    requires at { IsAtSplit task.now search.old split }
    ensures place { OnOk result (IsPlace task.now search.new) }
    ensures right { IfOk result (IsNext task.now search.new) }
    ensures effort { IfOk result (λ next. effort_of task.now search.new next
        ≤ (length (opposites_at task.now split.instance) - length split.done) * effort_at task.now (length search.old.open.items + 1) + 1 + effort_behind task.now (reverse search.old.open.items)) }
{
    let opposites = task.opposites[split.instance].as_slice();
    match opposites.get(split.done.len()) {
        Some(fact) => {
            add_fact(alloc, &mut search.facts, fact)?;
            search.open.push(split)?;
            Ok(Step::Enter)
        }
        None => {
            let tree = finish(alloc, task, &search.facts, split)?;
            Ok(Step::Leave(tree))
        }
    }
}

/// Looks at the case at hand: it is a leaf, or the end, or is split.
pub fn enter(alloc: Global, task: &Task<'_>, search: &mut Search) -> Result<Step, AllocError>
    requires task { IsTask task.now }
    requires place { IsPlace task.now search.old }
    ensures place { OnOk result (IsPlace task.now search.new) }
    ensures right { IfOk result (IsNext task.now search.new) }
    ensures lone { FactsClash (schema_of task.now) task.now.premise.now.literals → IfOk result (λ next. (search.new.open.items ≡ search.old.open.items) × IsLone next) }
    ensures effort { IfOk result (λ next. effort_of task.now search.new next < effort_at task.now (length search.old.open.items) + effort_behind task.now (reverse search.old.open.items)) }
{
    match judge(alloc, task, &search.facts)? {
        Verdict::Clash => {
            let tree = leaf(alloc)?;
            Ok(Step::Leave(tree))
        }
        Verdict::Escape(model) => Ok(Step::End(model)),
        Verdict::Open(instance) => {
            let split = OpenSplit {
                instance,
                done: List::new(alloc),
            };
            advance(alloc, task, search, split)
        }
    }
}

/// Goes up to a split from its child at hand, which the tree refutes.
pub fn leave(
    alloc: Global,
    task: &Task<'_>,
    search: &mut Search,
    mut split: OpenSplit,
    tree: Tree,
) -> Result<Step, AllocError>
    requires task { IsTask task.now }
    requires at { IsCase task.now search.old.facts }
    requires below { AreOpen task.now search.old.facts.literals (split ∷ reverse search.old.open.items) }
    requires tree { IsRefutation task.now search.old.facts.literals tree }
    ensures place { OnOk result (IsPlace task.now search.new) }
    ensures right { IfOk result (IsNext task.now search.new) }
    ensures effort { IfOk result (λ next. effort_of task.now search.new next < 1 + effort_behind task.now (split ∷ reverse search.old.open.items)) }
{
    drop_fact(alloc, &mut search.facts);
    split.done.push(tree)?;
    advance(alloc, task, search, split)
}
