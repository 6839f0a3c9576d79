ghost use Rattle.std.specs.Prelude.{◌≡◌, ◌+◌, ◌-◌, ◌<◌, ◌≤◌, [], ◌∷◌, ◌++◌, length, slice_get, false, take, All, OnOk};
ghost use Rattle.std.specs.List.{list_all, list_any};
ghost use Rattle.std.specs.Option.{option_map_or};
ghost use Rattle.ras_system.specs.declared.bulk.Assign.{Assign};
ghost use Rattle.ras_system.specs.Known.{is_known_literal, is_well_sorted};
ghost use Rattle.ras_system.specs.Systems.{assign_literal, bulk_rows, case_literals};
ghost use Rattle.ras_system.specs.SystemFaults.{Answers, is_of_relation, for_each, is_out_of_group as out_of_group, column_checks, literal_checks, case_checks};

use super::fault;
use super::known::{
    are_known_literals, are_known_relations, are_well_sorted, is_known_base, is_known_term,
    is_one_sort, sort_of_alone,
};
use crate::bulk::{Assign, Bulk};
use crate::system_fault::{SystemFault, SystemKind, SystemPlace};
use crate::transition::Transition;
use ras_logic::{Base, RelId, Shape, SortId, sort_of};

/// The row parameters, then the updated row.
fn with_updated_row(rows: &[RelId], relation: RelId) -> [RelId; 9]
    requires { length rows.now ≤ 8 }
    ensures { take (length rows.now + 1) result ≡ rows.now ++ relation ∷ [] }
{
    let mut named = [relation; 9];
    named[..rows.len()].copy_from_slice(rows);
    named
}

/// Whether the column and every number of the term name something.
fn is_known_assign(
    shape: &Shape,
    rows: &[RelId],
    params: &[SortId],
    row: u16,
    assign: &Assign,
) -> bool
    ensures { result ≡ is_known_literal shape.now rows.now params.now (assign_literal row assign.now) }
{
    let column = Base::Cell {
        row,
        column: assign.column,
    };
    is_known_base(shape, rows, params, column) && is_known_term(shape, rows, params, &assign.term)
}

/// Whether the column and the term have one and the same sort.
fn is_well_sorted_assign(
    shape: &Shape,
    rows: &[RelId],
    params: &[SortId],
    row: u16,
    assign: &Assign,
) -> bool
    ensures { result ≡ is_well_sorted shape.now rows.now params.now (assign_literal row assign.now) }
{
    let column = Base::Cell {
        row,
        column: assign.column,
    };
    is_one_sort(
        sort_of_alone(shape, rows, params, column),
        sort_of(shape, rows, params, &assign.term),
    )
}

fn are_known_assigns(
    shape: &Shape,
    rows: &[RelId],
    params: &[SortId],
    row: u16,
    assigns: &[Assign],
) -> bool
    ensures { result ≡ list_all (λ (a : Assign). is_known_literal shape.now rows.now params.now (assign_literal row a)) assigns.now }
{
    assigns
        .iter()
        .all(|a| is_known_assign(shape, rows, params, row, a))
}

fn are_well_sorted_assigns(
    shape: &Shape,
    rows: &[RelId],
    params: &[SortId],
    row: u16,
    assigns: &[Assign],
) -> bool
    ensures { result ≡ list_all (λ (a : Assign). is_well_sorted shape.now rows.now params.now (assign_literal row a)) assigns.now }
{
    assigns
        .iter()
        .all(|a| is_well_sorted_assign(shape, rows, params, row, a))
}

/// Whether everything that the terms of a bulk case name exists.
#[tactic(auto, using(crate::proofs::KnownTerms::list_all_parts))]
fn is_known_case(shape: &Shape, rows: &[RelId], params: &[SortId], row: u16, case: &Bulk) -> bool
    ensures { result ≡ list_all (is_known_literal shape.now rows.now params.now) (case_literals row case.now) }
{
    are_known_literals(shape, rows, params, case.condition.as_slice())
        && are_known_assigns(shape, rows, params, row, case.assigns.as_slice())
}

/// Whether the sides of the literals and assignments of a bulk case have one sort each.
#[tactic(auto, using(crate::proofs::KnownTerms::list_all_parts))]
fn is_well_sorted_case(
    shape: &Shape,
    rows: &[RelId],
    params: &[SortId],
    row: u16,
    case: &Bulk,
) -> bool
    ensures { result ≡ list_all (is_well_sorted shape.now rows.now params.now) (case_literals row case.now) }
{
    are_well_sorted(shape, rows, params, case.condition.as_slice())
        && are_well_sorted_assigns(shape, rows, params, row, case.assigns.as_slice())
}

fn has_case(bulk: &[Bulk], relation: RelId) -> bool
    ensures { result ≡ list_any (is_of_relation relation) bulk.now }
{
    bulk.iter().any(|case| case.relation.n == relation.n)
}

fn ends_with_case(bulk: &[Bulk], relation: RelId) -> bool
    ensures { result ≡ option_map_or (is_of_relation relation) (slice_get bulk.now (length bulk.now - 1)) false }
{
    match bulk.last() {
        Some(case) => case.relation.n == relation.n,
        None => false,
    }
}

/// Whether the relation has an earlier case, but is not that of the case just before.
fn is_out_of_group(earlier: &[Bulk], relation: RelId) -> bool
    ensures { result ≡ out_of_group earlier.now relation }
{
    has_case(earlier, relation) && !ends_with_case(earlier, relation)
}

/// The first column that is assigned twice.
fn check_columns(place: SystemPlace, assigns: &[Assign]) -> Result<(), SystemFault>
    requires { All (λ (a : Assign). a.column < 32) assigns.now }
    ensures { Answers (for_each (column_checks place assigns.now) assigns.now) result }
{
    let mut seen = [false; 32];
    for assign in assigns {
        let column = assign.column as usize;
        if seen[column] {
            return fault(place, SystemKind::Target);
        }
        seen[column] = true;
    }
    Ok(())
}

/// The first fault of the condition and of the assignments of a bulk case.
fn check_terms(
    shape: &Shape,
    place: SystemPlace,
    transition: &Transition,
    case: &Bulk,
) -> Result<(), SystemFault>
    requires { length transition.now.rows ≤ 8 }
    ensures first { Answers (literal_checks shape.now place (bulk_rows transition.now case.now) transition.now.params (case_literals (length transition.now.rows) case.now)) result }
    ensures columns { OnOk result (All (λ (a : Assign). a.column < 32) case.now.assigns) }
{
    shape.known();
    let row = transition.rows.len();
    let named = with_updated_row(transition.rows.as_slice(), case.relation);
    let rows = &named[..row + 1];
    let params = transition.params.as_slice();
    if !is_known_case(shape, rows, params, row as u16, case) {
        return fault(place, SystemKind::Range);
    }
    if !is_well_sorted_case(shape, rows, params, row as u16, case) {
        return fault(place, SystemKind::Sort);
    }
    Ok(())
}

/// The first fault of a bulk case.
fn check_case(
    shape: &Shape,
    n: u16,
    transition: &Transition,
    k: u16,
    case: &Bulk,
) -> Result<(), SystemFault>
    requires few_rows { length transition.now.rows ≤ 8 }
    requires within { k < length transition.now.bulk }
    ensures first { Answers (case_checks shape.now n transition.now k case.now) result }
    ensures few { OnOk result (k < 8) }
{
    let place = SystemPlace::Bulk {
        transition: n,
        index: k,
    };
    if k >= 8 || case.condition.len() > 16 {
        return fault(place, SystemKind::Limit);
    }
    if !are_known_relations(shape, &[case.relation]) {
        return fault(place, SystemKind::Range);
    }
    check_terms(shape, place, transition, case)?;
    if is_out_of_group(&transition.bulk.as_slice()[..k as usize], case.relation) {
        return fault(place, SystemKind::Target);
    }
    check_columns(place, case.assigns.as_slice())
}

/// The first fault of the bulk cases of a transition.
pub fn check_bulk(shape: &Shape, n: u16, transition: &Transition) -> Result<(), SystemFault>
    requires { length transition.now.rows ≤ 8 }
    ensures { Answers (for_each (case_checks shape.now n transition.now) transition.now.bulk) result }
{
    let bulk = transition.bulk.as_slice();
    for k in 0..bulk.len() {
        check_case(shape, n, transition, k as u16, &bulk[k])?;
    }
    Ok(())
}
