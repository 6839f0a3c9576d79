ghost use Rattle.std.specs.Prelude.{◌≡◌};
ghost use Rattle.std.specs.List.{list_all};
ghost use Rattle.ras_logic.specs.Terms.{sort_of as the_sort, base_term};
ghost use Rattle.ras_system.specs.Known.{is_known_path as known_path, is_known_term as known_term, is_known_literal as known_literal, is_well_sorted as well_sorted, is_one_sort as one_sort, are_known_relations as known_relations, are_known_sorts as known_sorts};
ghost use Rattle.ras_system.specs.SystemFaults.{Answers, literal_checks};

use super::fault;
use crate::system_fault::{SystemFault, SystemKind, SystemPlace};
use ras_logic::{Base, FunId, Literal, RelId, Schema, Shape, SortId, Term, sort_of, sort_of_base};

fn is_known_path(schema: &Schema, path: &[FunId]) -> bool
    ensures { result ≡ known_path schema.now path.now }
{
    let functions = schema.functions().len();
    path.iter().all(|f| (f.n as usize) < functions)
}

pub fn are_known_relations(shape: &Shape, rows: &[RelId]) -> bool
    ensures { result ≡ known_relations shape.now rows.now }
{
    let relations = shape.relations().len();
    rows.iter().all(|r| (r.n as usize) < relations)
}

pub fn are_known_sorts(schema: &Schema, params: &[SortId]) -> bool
    ensures { result ≡ known_sorts schema.now params.now }
{
    let sorts = schema.sort_count();
    params.iter().all(|s| s.n < sorts)
}

/// Whether every number of a base names something.
pub fn is_known_base(shape: &Shape, rows: &[RelId], params: &[SortId], base: Base) -> bool
    ensures { result ≡ known_term shape.now rows.now params.now (base_term base) }
{
    sort_of_base(shape, rows, params, base).is_some()
}

/// Whether every number of a term names something.
pub fn is_known_term(shape: &Shape, rows: &[RelId], params: &[SortId], term: &Term) -> bool
    ensures { result ≡ known_term shape.now rows.now params.now term.now }
{
    is_known_base(shape, rows, params, term.base)
        && is_known_path(shape.schema(), term.path.as_slice())
}

fn is_known_literal(shape: &Shape, rows: &[RelId], params: &[SortId], literal: &Literal) -> bool
    ensures { result ≡ known_literal shape.now rows.now params.now literal.now }
{
    match literal {
        Literal::Equal { left, right, .. } => {
            is_known_term(shape, rows, params, left) && is_known_term(shape, rows, params, right)
        }
    }
}

/// Whether there are both sorts, and they are the same.
pub fn is_one_sort(left: Option<SortId>, right: Option<SortId>) -> bool
    ensures { result ≡ one_sort left right }
{
    match (left, right) {
        (Some(s), Some(u)) => s.n == u.n,
        _ => false,
    }
}

fn is_well_sorted(shape: &Shape, rows: &[RelId], params: &[SortId], literal: &Literal) -> bool
    ensures { result ≡ well_sorted shape.now rows.now params.now literal.now }
{
    match literal {
        Literal::Equal { left, right, .. } => is_one_sort(
            sort_of(shape, rows, params, left),
            sort_of(shape, rows, params, right),
        ),
    }
}

/// The sort of a base, as that of a term without functions.
pub fn sort_of_alone(shape: &Shape, rows: &[RelId], params: &[SortId], base: Base) -> Option<SortId>
    ensures { result ≡ the_sort shape.now rows.now params.now (base_term base) }
{
    sort_of_base(shape, rows, params, base)
}

/// Whether every number of the literals names something.
pub fn are_known_literals(
    shape: &Shape,
    rows: &[RelId],
    params: &[SortId],
    literals: &[Literal],
) -> bool
    ensures { result ≡ list_all (known_literal shape.now rows.now params.now) literals.now }
{
    literals
        .iter()
        .all(|l| is_known_literal(shape, rows, params, l))
}

/// Whether both sides of each literal have one and the same sort.
pub fn are_well_sorted(
    shape: &Shape,
    rows: &[RelId],
    params: &[SortId],
    literals: &[Literal],
) -> bool
    ensures { result ≡ list_all (well_sorted shape.now rows.now params.now) literals.now }
{
    literals
        .iter()
        .all(|l| is_well_sorted(shape, rows, params, l))
}

/// The first fault of literals that stand at one place.
pub fn check_literals(
    shape: &Shape,
    place: SystemPlace,
    rows: &[RelId],
    params: &[SortId],
    literals: &[Literal],
) -> Result<(), SystemFault>
    ensures { Answers (literal_checks shape.now place rows.now params.now literals.now) result }
{
    if !are_known_literals(shape, rows, params, literals) {
        return fault(place, SystemKind::Range);
    }
    if !are_well_sorted(shape, rows, params, literals) {
        return fault(place, SystemKind::Sort);
    }
    Ok(())
}
