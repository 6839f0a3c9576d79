ghost use Rattle.std.specs.Prelude.{◌≡◌, ◌<◌, ◌≤◌, ◌⊎◌, ℕ, length, IfNone, IfSome, MatchBool};
ghost use Rattle.ras_known.specs.Knowledge.{IsKnown};
ghost use Rattle.ras_sat.specs.Tasks.{opposites_at};
ghost use Rattle.ras_sat.specs.Choices.{HoldsSome, HoldsNone, IsConsidered};

use crate::task::Task;
use ras_closure::Model;
use ras_known::{Known, truth_of};
use ras_logic::{Literal, holds};

/// An instance to split on.
#[derive(Clone, Copy, Debug)]
pub struct Choice {
    /// Its place in the list.
    pub instance: usize,
    /// A small rank promises a small tree.
    pub rank: usize,
}

/// Whether some of the literals holds in the model.
fn holds_some(model: &Model, literals: &[Literal]) -> bool
    ensures { MatchBool result (HoldsSome model.now.db model.now.values literals.now) (HoldsNone model.now.db model.now.values literals.now) }
{
    for literal in literals {
        if holds(&model.db, &model.values, literal) {
            return true;
        }
    }
    false
}

/// How many children a split has that aren't known to clash at once.
fn open_children(known: &Known<'_>, opposites: &[Literal]) -> usize
    requires { IsKnown known.now }
    ensures { result ≤ length opposites.now }
{
    let mut open = 0;
    for opposite in opposites {
        if truth_of(known, opposite) != Some(false) {
            open += 1;
        }
    }
    open
}

/// The rank of an instance: splits with no open child come first, then those with one, then those with the fewest children.
fn rank(known: &Known<'_>, opposites: &[Literal]) -> usize
    requires { IsKnown known.now }
{
    let open = open_children(known, opposites);
    if open > 1 { opposites.len() } else { open }
}

/// The better of two choices, the earlier one where they have one rank.
fn better(best: Choice, other: Choice) -> Choice
    ensures { (result ≡ best) ⊎ (result ≡ other) }
{
    if other.rank < best.rank { other } else { best }
}

/// The best choice so far, where one more instance is looked at.
fn consider(
    known: &Known<'_>,
    model: &Model,
    instance: usize,
    opposites: &[Literal],
    best: Option<Choice>,
) -> Option<Choice>
    requires { IsKnown known.now }
    ensures { IsConsidered model.now instance opposites.now best result }
{
    if holds_some(model, opposites) {
        return best;
    }
    let choice = Choice {
        instance,
        rank: rank(known, opposites),
    };
    match best {
        None => Some(choice),
        Some(earlier) => Some(better(earlier, choice)),
    }
}

/// The instance to split on; none where each has an opposite that holds in the model.
pub fn choose(task: &Task<'_>, known: &Known<'_>, model: &Model) -> Option<usize>
    requires { IsKnown known.now }
    ensures none { IfNone result ((k : ℕ) → k < length task.now.opposites.now → HoldsSome model.now.db model.now.values (opposites_at task.now k)) }
    ensures within { IfSome result (λ k. k < length task.now.opposites.now) }
    ensures unfalsified { IfSome result (λ k. HoldsNone model.now.db model.now.values (opposites_at task.now k)) }
{
    let mut best = None;
    for (instance, opposites) in task.opposites.iter().enumerate() {
        best = consider(known, model, instance, opposites.as_slice(), best);
    }
    best.map(|choice| choice.instance)
}
