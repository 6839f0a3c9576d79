ghost use Rattle.std.specs.Prelude.{◌≡◌, [], ◌∷◌, ◌++◌, List, All, None, IfOk, OnOk, length, map, nat_eq};
ghost use Rattle.std.specs.List.{list_any};
ghost use Rattle.ras_names.specs.Checks.{for_each, for_each_from, declared_texts};
ghost use Rattle.ras_names.specs.Placed as placed;
ghost use Rattle.ras_names.specs.TermChecks as checks;
ghost use Rattle.ras_names.specs.StepChecks.{assignment_checks, case_checks, each_checks, with_row};
ghost use Rattle.ras_numbering.specs.Numbers.{relation_named};
ghost use Rattle.ras_numbering.specs.FileValues.{assignment_value, case_value, each_value, cases_value};
ghost use Rattle.ras_system.specs.declared.bulk.Assign as declared;
ghost use Rattle.ras_scope.specs.Placing.{placed_assignment, placed_case, placed_each};
ghost use Rattle.ras_scope.specs.Agreeing.{IsRelationText};
ghost use Rattle.ras_scope.specs.Answering.{Answers};
ghost use Rattle.ras_terms.specs.Cases.{IsRowOf, IsKnownColumn, columns_of, row_checks_behind, assignment_checks_behind, body_checks};
ghost use Rattle.ras_scope.specs.Seeing.{Sees, step_texts};

use crate::formulas::read_conjunction;
use crate::updates::read_assigned;
use ras_lexer::Text;
use ras_logic::{List, RelId};
use ras_names::SpecKind;
use ras_scope::fault::{SpecError, fault};
use ras_scope::scope::{EachRow, Scope};
use ras_syntax as tree;
use ras_system::{Assign, Bulk};
use std::alloc::Global;

/// Whether a column is assigned already in a case; there are 32 at most.
fn is_assigned(assigns: &[Assign], column: u16) -> bool
    ensures { result ≡ list_any (λ (a : declared.Assign). nat_eq a.column column) assigns.now }
{
    for assign in assigns {
        if assign.column == column {
            return true;
        }
    }
    false
}

/// An assignment to a column of the row of the `each`.
fn read_assignment(
    alloc: Global,
    scope: &Scope,
    each: &EachRow,
    above: &[Assign],
    assignment: &tree::Assignment,
) -> Result<Assign, SpecError>
    ensures checks { (seen : checks.Scope) (e : placed.Each) (before : List placed.Assignment) → Sees scope.now seen → IsRowOf seen.file each.now e
        → above.now ≡ map (assignment_value seen (columns_of seen e)) before → All (IsKnownColumn seen e) before
        → Answers (assignment_checks_behind seen e before (placed_assignment assignment.now)) result }
    ensures value { (seen : checks.Scope) (e : placed.Each) → Sees scope.now seen → IsRowOf seen.file each.now e
        → IfOk result (λ a. a ≡ assignment_value seen (columns_of seen e) (placed_assignment assignment.now)) }
{
    if assignment.row.text != each.name {
        return fault(assignment.row.at, SpecKind::UnknownName);
    }
    let (column, sort) = scope.declared.column(each.relation, &assignment.column)?;
    if is_assigned(above, column) {
        return fault(assignment.row.at, SpecKind::RepeatedTarget);
    }
    let term = read_assigned(alloc, scope, &assignment.term, sort, assignment.at)?;
    Ok(Assign { column, term })
}

/// The assignments of a case of an `each`.
fn read_assignments(
    alloc: Global,
    scope: &Scope,
    each: &EachRow,
    assignments: &[tree::Assignment],
) -> Result<List<Assign>, SpecError>
    ensures checks { (seen : checks.Scope) (e : placed.Each) → Sees scope.now seen → IsRowOf seen.file each.now e
        → Answers (for_each (assignment_checks seen e (map placed_assignment assignments.now)) (map placed_assignment assignments.now)) result }
    ensures value { (seen : checks.Scope) (e : placed.Each) → Sees scope.now seen → IsRowOf seen.file each.now e
        → IfOk result (λ xs. xs ≡ map (assignment_value seen (columns_of seen e)) (map placed_assignment assignments.now)) }
{
    let mut assigns = List::new(alloc);
    for assignment in assignments {
        let next = read_assignment(alloc, scope, each, assigns.as_slice(), assignment)?;
        assigns.push(next)?;
    }
    Ok(assigns)
}

/// A case of an `each`: a condition of at most 16 literals, and assignments.
fn read_case(
    alloc: Global,
    scope: &Scope,
    each: &EachRow,
    case: &tree::Case,
) -> Result<Bulk, SpecError>
    ensures checks { (seen : checks.Scope) (e : placed.Each) → Sees scope.now seen → IsRowOf seen.file each.now e → Answers (body_checks seen e (placed_case case.now)) result }
    ensures value { (seen : checks.Scope) (e : placed.Each) → Sees scope.now seen → IsRowOf seen.file each.now e → IfOk result (λ b. b ≡ case_value seen e (placed_case case.now)) }
{
    let condition = read_conjunction(alloc, scope, 16, &case.condition)?;
    let assigns = read_assignments(alloc, scope, each, case.assignments.as_slice())?;
    Ok(Bulk {
        relation: each.relation,
        condition,
        assigns,
    })
}

/// One case more of a step, which has at most 8.
fn add_case(
    alloc: Global,
    scope: &Scope,
    each: &EachRow,
    bulk: &mut List<Bulk>,
    case: &tree::Case,
) -> Result<(), SpecError>
    ensures checks { (seen : checks.Scope) (e : placed.Each) → Sees scope.now seen → IsRowOf seen.file each.now e → Answers (case_checks seen e (length bulk.old) (placed_case case.now)) result }
    ensures value { (seen : checks.Scope) (e : placed.Each) → Sees scope.now seen → IsRowOf seen.file each.now e → OnOk result (bulk.new ≡ bulk.old ++ case_value seen e (placed_case case.now) ∷ []) }
{
    if bulk.len() >= 8 {
        return fault(case.at, SpecKind::TooMany);
    }
    let read = read_case(alloc, scope, each, case)?;
    bulk.push(read)?;
    Ok(())
}

/// The row and the relation of an `each`: the row is new in the step, and the relation has no `each` above.
fn read_row(scope: &Scope, above: &[RelId], each: &tree::Each) -> Result<EachRow, SpecError>
    ensures checks { (seen : checks.Scope) (before : List placed.Each) → Sees scope.now seen
        → above.now ≡ map (λ (d : placed.Each). relation_named seen.file d.relation.text) before
        → All (λ (d : placed.Each). IsRelationText seen.file d.relation.text) before
        → Answers (row_checks_behind seen (step_texts scope.now) before (placed_each each.now)) result }
    ensures name { IfOk result (λ row. row.name ≡ each.now.row.text) }
    ensures value { (seen : checks.Scope) → Sees scope.now seen → IfOk result (λ row. IsRowOf seen.file row (placed_each each.now)) }
{
    let name = each.row.text;
    if scope.declared.shared.has(&name)
        || scope.rows.names().has(&name)
        || scope.params.names().has(&name)
    {
        return fault(each.row.at, SpecKind::DuplicateName);
    }
    let relation = scope.declared.relation(&each.relation)?;
    if above.contains(&relation) {
        return fault(each.relation.at, SpecKind::RepeatedTarget);
    }
    Ok(EachRow { name, relation })
}

/// The cases of all `each` of a step, and the rows of these.
#[derive(Drop)]
pub struct Cases {
    pub bulk: List<Bulk>,
    pub rows: List<Text>,
}

/// The cases of an `each` that may be named inside it by its row.
fn read_each(
    alloc: Global,
    inside: &Scope,
    row: &EachRow,
    bulk: &mut List<Bulk>,
    each: &tree::Each,
) -> Result<(), SpecError>
    ensures checks { (seen : checks.Scope) → Sees inside.now seen → IsRowOf seen.file row.now (placed_each each.now)
        → Answers (for_each_from (length bulk.old) (case_checks seen (placed_each each.now)) (placed.cases (placed_each each.now))) result }
    ensures value { (seen : checks.Scope) → Sees inside.now seen → IsRowOf seen.file row.now (placed_each each.now)
        → OnOk result (bulk.new ≡ bulk.old ++ each_value seen (placed_each each.now)) }
{
    add_case(alloc, inside, row, bulk, &each.first)?;
    for case in &each.others {
        add_case(alloc, inside, row, bulk, case)?;
    }
    Ok(())
}

/// The cases of a step.
pub fn read_eachs(alloc: Global, scope: &Scope, eachs: &[tree::Each]) -> Result<Cases, SpecError>
    requires { scope.now.each ≡ None }
    ensures checks { (seen : checks.Scope) → Sees scope.now seen → Answers (for_each (each_checks seen (step_texts scope.now) (map placed_each eachs.now)) (map placed_each eachs.now)) result }
    ensures bulk { (seen : checks.Scope) → Sees scope.now seen → IfOk result (λ c. c.bulk ≡ cases_value seen (map placed_each eachs.now)) }
    ensures rows { IfOk result (λ c. c.rows ≡ map (λ (e : placed.Each). e.row.text) (map placed_each eachs.now)) }
{
    let mut bulk = List::new(alloc);
    let mut rows = List::new(alloc);
    let mut relations: Vec<RelId> = Vec::new(alloc);
    for each in eachs {
        let row = read_row(scope, relations.as_slice(), each)?;
        relations.push(row.relation)?;
        rows.push(row.name)?;
        let inside = scope.with_row(row);
        read_each(alloc, &inside, &row, &mut bulk, each)?;
    }
    Ok(Cases { bulk, rows })
}
