//! What the terms of a cube, read after the step, were before it.
ghost use Rattle.std.specs.Prelude.{◌≡◌, ◌++◌, map, IfOk, slice_get, option_and_then};
ghost use Rattle.std.specs.Option.{option_copied};
ghost use Rattle.ras_logic.specs.declared.term.Base.TheVariants as base;
ghost use Rattle.ras_logic.specs.Terms.{base_term, replace_term};
ghost use Rattle.ras_logic.specs.Formulas.{replace};
ghost use Rattle.ras_system.specs.Steps.{is_var as is_variable, is_cell as is_cell_of, term_for_var as var_term, term_for_cell as cell_term, term_for_column as column_term};
ghost use Rattle.ras_system.specs.declared.bulk.Bulk as bulk_case;
ghost use Rattle.ras_system.specs.Preimages.{base_before};
ghost use Rattle.ras_preimage.specs.Parts.{source_of, source_term, term_along};
ghost use Rattle.ras_preimage.specs.declared.sources.Source.TheVariants as source;

use crate::renumbering::renumbered_base;
use crate::sources::Source;
use ras_logic::{Base, FunId, List, Literal, Plain, Term};
use ras_system::{Assign, Bulk, Target, Transition, Update};
use std::alloc::{AllocError, Global};

fn is_var(x: u16, target: Target) -> bool
    ensures { result ≡ is_variable x target }
{
    match target {
        Target::Var(v) => v.n == x,
        Target::Cell { .. } => false,
    }
}

fn is_cell(at_row: u16, at_column: u16, target: Target) -> bool
    ensures { result ≡ is_cell_of at_row at_column target }
{
    match target {
        Target::Var(_) => false,
        Target::Cell { row, column } => row == at_row && column == at_column,
    }
}

/// The term that an update assigns to a variable, if one does.
fn term_for_var(updates: &[Update], x: u16) -> Option<&Term>
    ensures { option_copied result ≡ var_term updates.now x }
{
    for update in updates {
        if is_var(x, update.target) {
            return Some(&update.term);
        }
    }
    None
}

/// The term that an update assigns to a cell of a row parameter, if one does.
fn term_for_cell(updates: &[Update], row: u16, column: u16) -> Option<&Term>
    ensures { option_copied result ≡ cell_term updates.now row column }
{
    for update in updates {
        if is_cell(row, column, update.target) {
            return Some(&update.term);
        }
    }
    None
}

/// The term that a case assigns to a column, if it does.
fn term_for_column(assigns: &[Assign], column: u16) -> Option<&Term>
    ensures { option_copied result ≡ column_term assigns.now column }
{
    for assign in assigns {
        if assign.column == column {
            return Some(&assign.term);
        }
    }
    None
}

/// A base, the functions of an assigned term, and then those of the term that it replaces.
fn joined(
    alloc: Global,
    base: Base,
    first: &List<FunId>,
    then: &List<FunId>,
) -> Result<Term, AllocError>
    ensures { IfOk result (λ t. t ≡ record { base = base; path = first.now ++ then.now }) }
{
    let mut path = first.copy(alloc)?;
    for f in then.as_slice() {
        path.push(*f)?;
    }
    Ok(Term { base, path })
}

/// The term that the case of that number assigns to a column, if there is the case and it does.
fn term_of_case(bulk: &[Bulk], case: Option<u32>, column: u16) -> Option<&Term>
    ensures { option_copied result ≡ option_and_then (λ (b : bulk_case.Bulk). column_term b.assigns column) (option_and_then (slice_get bulk.now) case) }
{
    let case = case? as usize;
    if case >= bulk.len() {
        return None;
    }
    term_for_column(bulk[case].assigns.as_slice(), column)
}

/// A cell that is kept, and then the functions of the term that it replaces.
fn kept(alloc: Global, row: u16, column: u16, path: &List<FunId>) -> Result<Term, AllocError>
    ensures { IfOk result (λ t. t ≡ term_along path.now (base_term (base.Cell row column))) }
{
    Ok(Term {
        base: Base::Cell { row, column },
        path: path.copy(alloc)?,
    })
}

/// The term of a column of a row that takes that case or none, and has that number in the problem; then the functions of the
/// term that it replaces.
fn column_before(
    alloc: Global,
    transition: &Transition,
    updated: u16,
    number: u16,
    case: Option<u32>,
    column: u16,
    path: &List<FunId>,
) -> Result<Term, AllocError>
    ensures { IfOk result (λ t. t ≡ term_along path.now (source_term (source_of transition.now updated (source.Row number case)) column)) }
{
    match term_of_case(transition.bulk.as_slice(), case, column) {
        None => kept(alloc, number, column, path),
        Some(assigned) => {
            let base = renumbered_base(updated, number, assigned.base);
            joined(alloc, base, &assigned.path, path)
        }
    }
}

/// The term of a column of a source, and then the functions of the term that it replaces.
fn cell_before(
    alloc: Global,
    transition: &Transition,
    updated: u16,
    source: Source,
    column: u16,
    path: &List<FunId>,
) -> Result<Term, AllocError>
    ensures { IfOk result (λ t. t ≡ term_along path.now (source_term (source_of transition.now updated source) column)) }
{
    match source {
        Source::Parameter(row) => {
            match term_for_cell(transition.updates.as_slice(), row, column) {
                None => kept(alloc, row, column, path),
                Some(assigned) => joined(alloc, assigned.base, &assigned.path, path),
            }
        }
        Source::Row { number, case } => {
            column_before(alloc, transition, updated, number, case, column, path)
        }
    }
}

fn term_before(
    alloc: Global,
    transition: &Transition,
    updated: u16,
    sources: &[Source],
    term: &Term,
) -> Result<Term, AllocError>
    ensures { IfOk result (λ t. t ≡ replace_term (base_before transition.now (map (source_of transition.now updated) sources.now)) term.now) }
{
    match term.base {
        Base::Var(v) => match term_for_var(transition.updates.as_slice(), v.n) {
            None => term.copy(alloc),
            Some(assigned) => joined(alloc, assigned.base, &assigned.path, &term.path),
        },
        Base::Cell { row, column } => {
            if row as usize >= sources.len() {
                return term.copy(alloc);
            }
            let source = sources[row as usize];
            cell_before(alloc, transition, updated, source, column, &term.path)
        }
        _ => term.copy(alloc),
    }
}

/// A literal of a cube, as it was before the step.
pub fn literal_before(
    alloc: Global,
    transition: &Transition,
    updated: u16,
    sources: &[Source],
    literal: &Literal,
) -> Result<Literal, AllocError>
    ensures { IfOk result (λ l. l ≡ replace (base_before transition.now (map (source_of transition.now updated) sources.now)) literal.now) }
{
    Ok(Literal::Equal {
        left: term_before(alloc, transition, updated, sources, literal.left())?,
        right: term_before(alloc, transition, updated, sources, literal.right())?,
        same: literal.says_same(),
    })
}
