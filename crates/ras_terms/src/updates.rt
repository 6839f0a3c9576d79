ghost use Rattle.std.specs.Prelude.{◌≡◌, List, All, Option, Some, IfOk, map, option_map};
ghost use Rattle.std.specs.List.{list_any};
ghost use Rattle.ras_syntax.specs.Grammar as grammar;
ghost use Rattle.ras_names.specs.Checks.{for_each};
ghost use Rattle.ras_names.specs.Placed as placed;
ghost use Rattle.ras_names.specs.TermChecks as checks;
ghost use Rattle.ras_names.specs.StepChecks.{update_checks};
ghost use Rattle.ras_numbering.specs.TermValues.{term_value};
ghost use Rattle.ras_numbering.specs.FileValues.{update_value};
ghost use Rattle.ras_system.specs.declared.update.Update as declared;
ghost use Rattle.ras_scope.specs.Placing.{placed_dotted, placed_name, placed_term, placed_update};
ghost use Rattle.ras_scope.specs.Answering.{Answers};
ghost use Rattle.ras_terms.specs.Assigning.{assigned_checks, update_checks_behind, same_target, IsKnownTarget};
ghost use Rattle.ras_scope.specs.Seeing.{Sees};
ghost use Rattle.ras_scope.specs.Sorting.{IsSortOf};

use crate::terms::read_term;
use ras_logic::{List, SortId, Term};
use ras_names::SpecKind;
use ras_scope::fault::{SpecError, fault};
use ras_scope::scope::Scope;
use ras_syntax as tree;
use ras_system::{Target, Update};
use std::alloc::Global;

/// A term that is assigned to what has a sort, by a sign at a place.
pub fn read_assigned(
    alloc: Global,
    scope: &Scope,
    term: &tree::Term,
    sort: SortId,
    sign: u32,
) -> Result<Term, SpecError>
    ensures checks { (seen : checks.Scope) (wanted : Option grammar.Text) → Sees scope.now seen → IsSortOf seen.file wanted (Some sort)
        → Answers (assigned_checks seen sign wanted (placed_term term.now)) result }
    ensures value { (seen : checks.Scope) → Sees scope.now seen → IfOk result (λ t. t ≡ term_value seen sort (placed_term term.now)) }
{
    let meaning = read_term(alloc, scope, term)?;
    match meaning.sort() {
        Some(own) => {
            if own != sort {
                return fault(sign, SpecKind::WrongSort);
            }
            Ok(meaning.at_sort(alloc, sort))
        }
        None => Ok(meaning.at_sort(alloc, sort)),
    }
}

/// Whether a target is assigned already. It repeats among any 321 updates, so they are few.
fn is_assigned(updates: &[Update], target: Target) -> bool
    ensures { result ≡ list_any (λ (u : declared.Update). same_target u.target target) updates.now }
{
    for update in updates {
        if update.target == target {
            return true;
        }
    }
    false
}

/// The column behind the dot of a target, where there is one.
fn column(update: &tree::Update) -> Option<&tree::Name>
    ensures { option_map (λ c. placed_name c.now) result ≡ option_map placed_dotted update.now.column }
{
    match &update.column {
        Some(dotted) => Some(&dotted.column),
        None => None,
    }
}

/// The target, the term, the sign.
fn read_update(
    alloc: Global,
    scope: &Scope,
    above: &[Update],
    update: &tree::Update,
) -> Result<Update, SpecError>
    ensures checks { (seen : checks.Scope) (before : List placed.Update) → Sees scope.now seen → above.now ≡ map (update_value seen) before → All (IsKnownTarget seen) before
        → Answers (update_checks_behind seen before (placed_update update.now)) result }
    ensures value { (seen : checks.Scope) → Sees scope.now seen → IfOk result (λ u. u ≡ update_value seen (placed_update update.now)) }
{
    let (target, sort) = scope.target(&update.target, column(update))?;
    if is_assigned(above, target) {
        return fault(update.target.at, SpecKind::RepeatedTarget);
    }
    let term = read_assigned(alloc, scope, &update.term, sort, update.at)?;
    Ok(Update { target, term })
}

/// The updates of a step.
pub fn read_updates(
    alloc: Global,
    scope: &Scope,
    updates: &[tree::Update],
) -> Result<List<Update>, SpecError>
    ensures checks { (seen : checks.Scope) → Sees scope.now seen → Answers (for_each (update_checks seen (map placed_update updates.now)) (map placed_update updates.now)) result }
    ensures value { (seen : checks.Scope) → Sees scope.now seen → IfOk result (λ us. us ≡ map (update_value seen) (map placed_update updates.now)) }
{
    let mut read = List::new(alloc);
    for update in updates {
        let next = read_update(alloc, scope, read.as_slice(), update)?;
        read.push(next)?;
    }
    Ok(read)
}
