ghost use Rattle.std.specs.Prelude.{◌≡◌, [], ◌∷◌, ◌++◌, ◌+◌, length, map, IfOk, OnOk};
ghost use Rattle.ras_names.specs.Checks.{for_each};
ghost use Rattle.ras_names.specs.Placed as placed;
ghost use Rattle.ras_names.specs.TermChecks as checks;
ghost use Rattle.ras_names.specs.TermChecks.{literal_checks, conjunction_checks, disjunct_checks, guard_checks};
ghost use Rattle.ras_numbering.specs.TermValues.{literal_value, conjunction_value, guard_value};
ghost use Rattle.ras_scope.specs.Placing.{placed_and, placed_conjunction, placed_guard, placed_literal, placed_or};
ghost use Rattle.ras_scope.specs.Answering.{Answers};
ghost use Rattle.ras_terms.specs.Literals.{common, side_checks};
ghost use Rattle.ras_scope.specs.Seeing.{Sees};

use crate::terms::{read_term, term_place};
use ras_logic::{List, Literal, SortId};
use ras_names::SpecKind;
use ras_scope::fault::{SpecError, fault};
use ras_scope::scope::Scope;
use ras_syntax as tree;
use std::alloc::Global;

/// The one sort of both sides, where `undef` is at most one of them.
fn common_sort(left: Option<SortId>, right: Option<SortId>) -> Option<SortId>
    ensures { result ≡ common left right }
{
    match (left, right) {
        (None, None) => None,
        (Some(sort), None) => Some(sort),
        (None, Some(sort)) => Some(sort),
        (Some(sort), Some(other)) => { if sort == other { Some(sort) } else { None } }
    }
}

/// The left term, the right term, the sign.
fn read_literal(alloc: Global, scope: &Scope, literal: &tree::Literal) -> Result<Literal, SpecError>
    ensures checks { (seen : checks.Scope) → Sees scope.now seen → Answers (side_checks seen (placed_literal literal.now)) result }
    ensures value { (seen : checks.Scope) → Sees scope.now seen → IfOk result (λ l. l ≡ literal_value seen (placed_literal literal.now)) }
{
    let left = read_term(alloc, scope, &literal.left)?;
    let right = read_term(alloc, scope, &literal.right)?;
    match common_sort(left.sort(), right.sort()) {
        None => fault(literal.at, SpecKind::WrongSort),
        Some(sort) => Ok(Literal::Equal {
            left: left.at_sort(alloc, sort),
            right: right.at_sort(alloc, sort),
            same: literal.comparison == tree::Comparison::Equal,
        }),
    }
}

/// One literal more, where there is a limit.
fn add_literal(
    alloc: Global,
    scope: &Scope,
    limit: usize,
    literals: &mut List<Literal>,
    literal: &tree::Literal,
) -> Result<(), SpecError>
    ensures checks { (seen : checks.Scope) → Sees scope.now seen → Answers (literal_checks seen limit (length literals.old) (placed_literal literal.now)) result }
    ensures value { (seen : checks.Scope) → Sees scope.now seen → OnOk result (literals.new ≡ literals.old ++ literal_value seen (placed_literal literal.now) ∷ []) }
{
    if literals.len() >= limit {
        return fault(term_place(&literal.left), SpecKind::TooWide);
    }
    let read = read_literal(alloc, scope, literal)?;
    literals.push(read)?;
    Ok(())
}

/// One or more literals, as many as the limit says.
fn read_literals(
    alloc: Global,
    scope: &Scope,
    limit: usize,
    first: &tree::Literal,
    others: &[tree::AndLiteral],
) -> Result<List<Literal>, SpecError>
    ensures checks { (seen : checks.Scope) → Sees scope.now seen → Answers (for_each (literal_checks seen limit) (placed_literal first.now ∷ map placed_and others.now)) result }
    ensures value { (seen : checks.Scope) → Sees scope.now seen → IfOk result (λ ls. ls ≡ map (literal_value seen) (placed_literal first.now ∷ map placed_and others.now)) }
{
    let mut literals = List::new(alloc);
    add_literal(alloc, scope, limit, &mut literals, first)?;
    for other in others {
        add_literal(alloc, scope, limit, &mut literals, &other.literal)?;
    }
    Ok(literals)
}

/// The literals of a conjunction, as many as the limit says.
pub fn read_conjunction(
    alloc: Global,
    scope: &Scope,
    limit: usize,
    conjunction: &tree::Conjunction,
) -> Result<List<Literal>, SpecError>
    ensures checks { (seen : checks.Scope) → Sees scope.now seen → Answers (conjunction_checks seen limit (placed_conjunction conjunction.now)) result }
    ensures value { (seen : checks.Scope) → Sees scope.now seen → IfOk result (λ ls. ls ≡ conjunction_value seen (placed_conjunction conjunction.now)) }
{
    match conjunction {
        tree::Conjunction::True(_) => Ok(List::new(alloc)),
        tree::Conjunction::All(first, others) => {
            read_literals(alloc, scope, limit, first, others.as_slice())
        }
    }
}

/// The place of the first token of a disjunct.
fn disjunct_place(conjunction: &tree::Conjunction) -> u32
    ensures { result ≡ placed.disjunct_place (placed_conjunction conjunction.now) }
{
    match conjunction {
        tree::Conjunction::True(at) => *at,
        tree::Conjunction::All(first, _) => term_place(&first.left),
    }
}

/// One disjunct more, behind `above` others: at most 64 in all, each of at most 128 literals.
fn add_disjunct(
    alloc: Global,
    scope: &Scope,
    above: usize,
    disjuncts: &mut List<List<Literal>>,
    conjunction: &tree::Conjunction,
) -> Result<(), SpecError>
    ensures checks { (seen : checks.Scope) → Sees scope.now seen → Answers (disjunct_checks seen (above + length disjuncts.old) (placed_conjunction conjunction.now)) result }
    ensures value { (seen : checks.Scope) → Sees scope.now seen → OnOk result (disjuncts.new ≡ disjuncts.old ++ conjunction_value seen (placed_conjunction conjunction.now) ∷ []) }
{
    if above >= 64 || disjuncts.len() >= 64 - above {
        return fault(disjunct_place(conjunction), SpecKind::TooWide);
    }
    let read = read_conjunction(alloc, scope, 128, conjunction)?;
    disjuncts.push(read)?;
    Ok(())
}

/// The disjuncts of a guard, behind `above` others.
pub fn read_guard(
    alloc: Global,
    scope: &Scope,
    above: usize,
    guard: &tree::Guard,
) -> Result<List<List<Literal>>, SpecError>
    ensures checks { (seen : checks.Scope) → Sees scope.now seen → Answers (guard_checks seen above (placed_guard guard.now)) result }
    ensures value { (seen : checks.Scope) → Sees scope.now seen → IfOk result (λ ds. ds ≡ guard_value seen (placed_guard guard.now)) }
{
    let mut disjuncts = List::new(alloc);
    add_disjunct(alloc, scope, above, &mut disjuncts, &guard.first)?;
    for other in &guard.others {
        add_disjunct(alloc, scope, above, &mut disjuncts, &other.conjunction)?;
    }
    Ok(disjuncts)
}
