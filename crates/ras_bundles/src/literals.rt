ghost use Rattle.std.specs.Prelude.{◌≡◌, [], ◌&&◌, not, nat_eq, length};
ghost use Rattle.std.specs.List.{list_all};
ghost use Rattle.ras_logic.specs.Terms.{sort_of as the_sort};
ghost use Rattle.ras_system.specs.Systems.{update_literal};
ghost use Rattle.ras_system.specs.Known.{is_known_path as known_path, is_known_term as known_term, is_known_literal as known_literal, is_well_sorted as well_sorted, is_one_sort as one_sort};
ghost use Rattle.ras_bundles.specs.Numbers.{update_named};
ghost use Rattle.ras_bundles.specs.Checks.{first_of, cube_checks};

use crate::fault::BundleKind;
use crate::system_lines::UpdateLine;
use ras_logic::{FunId, Literal, RelId, Schema, Shape, SortId, Term, sort_of, sort_of_base};

fn is_known_path(schema: &Schema, path: &[FunId]) -> bool
    ensures { result ≡ known_path schema.now path.now }
{
    let functions = schema.functions().len();
    path.iter().all(|f| (f.n as usize) < functions)
}

/// Whether every number of a term names something, where no row is named.
fn is_known_term(shape: &Shape, term: &Term) -> bool
    ensures { result ≡ known_term shape.now [] [] term.now }
{
    sort_of_base(shape, &[], &[], term.base).is_some()
        && is_known_path(shape.schema(), term.path.as_slice())
}

fn is_known_literal(shape: &Shape, literal: &Literal) -> bool
    ensures { result ≡ known_literal shape.now [] [] literal.now }
{
    match literal {
        Literal::Equal { left, right, .. } => {
            is_known_term(shape, left) && is_known_term(shape, right)
        }
    }
}

/// Whether there are both sorts, and they are the same.
pub fn is_one_sort(left: Option<SortId>, right: Option<SortId>) -> bool
    ensures { result ≡ one_sort left right }
{
    match (left, right) {
        (Some(s), Some(u)) => s.n == u.n,
        _ => false,
    }
}

fn is_well_sorted(shape: &Shape, literal: &Literal) -> bool
    ensures { result ≡ well_sorted shape.now [] [] literal.now }
{
    match literal {
        Literal::Equal { left, right, .. } => is_one_sort(
            sort_of(shape, &[], &[], left),
            sort_of(shape, &[], &[], right),
        ),
    }
}

fn are_known(shape: &Shape, literals: &[Literal]) -> bool
    ensures { result ≡ list_all (known_literal shape.now [] []) literals.now }
{
    literals.iter().all(|l| is_known_literal(shape, l))
}

fn are_well_sorted(shape: &Shape, literals: &[Literal]) -> bool
    ensures { result ≡ list_all (well_sorted shape.now [] []) literals.now }
{
    literals.iter().all(|l| is_well_sorted(shape, l))
}

/// What is wrong in the line of a cube.
pub fn cube_fault(shape: &Shape, rows: &[RelId], literals: &[Literal]) -> Option<BundleKind>
    ensures { result ≡ first_of (cube_checks shape.now (record { rows = rows.now; params = []; literals = literals.now })) }
{
    if literals.len() > 128 {
        return Some(BundleKind::Limit);
    }
    if !(rows.is_empty() && are_known(shape, literals)) {
        return Some(BundleKind::Range);
    }
    if !are_well_sorted(shape, literals) {
        return Some(BundleKind::Sort);
    }
    None
}

/// Whether the variable of an update exists, and every number of its term names something.
pub fn is_known_update(shape: &Shape, update: &UpdateLine) -> bool
    ensures { result ≡ known_literal shape.now [] [] (update_literal (update_named update.now)) }
{
    (update.target as usize) < shape.vars().len() && is_known_term(shape, &update.term)
}

/// Whether the variable of an update and its term have one sort.
pub fn is_well_sorted_update(shape: &Shape, update: &UpdateLine) -> bool
    ensures { result ≡ well_sorted shape.now [] [] (update_literal (update_named update.now)) }
{
    let target = shape.vars().get(update.target as usize).copied();
    is_one_sort(target, sort_of(shape, &[], &[], &update.term))
}
