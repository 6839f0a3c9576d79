ghost use Rattle.std.specs.Prelude.{◌≡◌, ◌≤◌, ◌++◌, map, flat_map, length, codes, OnOk};
ghost use Rattle.ras_names.specs.Canonical.{line, whole_case};
ghost use Rattle.ras_print.specs.Items.{conjunction_item, case_item};
ghost use Rattle.ras_print.specs.Printed.{numbered, row_text, param_text, update_text, assign_text, when_line, group, front, first_relation, case_of, each_text, each_texts, step_text, step_at};
ghost use Rattle.ras_print.specs.Scopes.{scope_of};

use crate::declarations::put_declared;
use crate::formulas::{put_cell, put_conjunction, put_disjuncts, put_term};
use crate::lookup::{name_at, relation_at};
use crate::scope::Scope;
use ras_lexer::Text;
use ras_logic::{List, Literal, RelId, SortId};
use ras_names::{Names, StepNames};
use ras_system::{Assign, Bulk, Target, Transition, Update};
use ras_text::put;
use std::alloc::{AllocError, Global};

fn put_row(
    out: &mut Vec<u8>,
    names: &Names,
    rows: &[Text],
    number: usize,
    relation: RelId,
) -> Result<(), AllocError>
    ensures { OnOk result (out.new.items ≡ out.old.items ++ row_text names.now rows.now number relation) }
{
    put(out, b"  row ")?;
    put_declared(
        out,
        name_at(rows, number),
        relation_at(names, relation.n as usize),
    )?;
    put(out, b";\n")
}

/// The rows of a step or of an unsafe item, one a line.
pub(crate) fn put_rows(
    out: &mut Vec<u8>,
    names: &Names,
    rows: &[Text],
    relations: &[RelId],
) -> Result<(), AllocError>
    ensures { OnOk result (out.new.items ≡ out.old.items ++ numbered (row_text names.now rows.now) 0 relations.now) }
{
    for (number, relation) in relations.iter().enumerate() {
        put_row(out, names, rows, number, *relation)?;
    }
    Ok(())
}

fn put_param(
    out: &mut Vec<u8>,
    names: &Names,
    params: &[Text],
    number: usize,
    sort: SortId,
) -> Result<(), AllocError>
    ensures { OnOk result (out.new.items ≡ out.old.items ++ param_text names.now params.now number sort) }
{
    put(out, b"  param ")?;
    put_declared(
        out,
        name_at(params, number),
        name_at(names.sorts.as_slice(), sort.n as usize),
    )?;
    put(out, b";\n")
}

/// The data parameters of a step, one a line.
fn put_params(
    out: &mut Vec<u8>,
    names: &Names,
    params: &[Text],
    sorts: &[SortId],
) -> Result<(), AllocError>
    ensures { OnOk result (out.new.items ≡ out.old.items ++ numbered (param_text names.now params.now) 0 sorts.now) }
{
    for (number, sort) in sorts.iter().enumerate() {
        put_param(out, names, params, number, *sort)?;
    }
    Ok(())
}

/// The line of a guard.
fn put_guard(
    out: &mut Vec<u8>,
    scope: &Scope,
    disjuncts: &[List<Literal>],
) -> Result<(), AllocError>
    ensures { OnOk result (out.new.items ≡ out.old.items ++ when_line (map (conjunction_item (scope_of scope.now)) disjuncts.now)) }
{
    put(out, b"  when ")?;
    put_disjuncts(out, scope, disjuncts)?;
    put(out, b";\n")
}

fn put_update(out: &mut Vec<u8>, scope: &Scope, update: &Update) -> Result<(), AllocError>
    ensures { OnOk result (out.new.items ≡ out.old.items ++ update_text (scope_of scope.now) update.now) }
{
    put(out, b"  ")?;
    match update.target {
        Target::Var(var) => put(out, name_at(scope.names.vars.as_slice(), var.n as usize))?,
        Target::Cell { row, column } => put_cell(out, scope, row as usize, column as usize)?,
    }
    put(out, b" := ")?;
    put_term(out, scope, &update.term)?;
    put(out, b";\n")
}

/// The updates of a step, one a line.
fn put_updates(out: &mut Vec<u8>, scope: &Scope, updates: &[Update]) -> Result<(), AllocError>
    ensures { OnOk result (out.new.items ≡ out.old.items ++ flat_map (update_text (scope_of scope.now)) updates.now) }
{
    for update in updates {
        put_update(out, scope, update)?;
    }
    Ok(())
}

/// The assignments of a case to the row of this number, with a blank behind each.
fn put_assignments(
    out: &mut Vec<u8>,
    scope: &Scope,
    row: usize,
    assigns: &[Assign],
) -> Result<(), AllocError>
    ensures { OnOk result (out.new.items ≡ out.old.items ++ flat_map (assign_text (scope_of scope.now) row) assigns.now) }
{
    for assign in assigns {
        put_cell(out, scope, row, assign.column as usize)?;
        put(out, b" := ")?;
        put_term(out, scope, &assign.term)?;
        put(out, b"; ")?;
    }
    Ok(())
}

fn put_case(out: &mut Vec<u8>, scope: &Scope, row: usize, case: &Bulk) -> Result<(), AllocError>
    ensures { OnOk result (out.new.items ≡ out.old.items ++ whole_case (case_item (scope_of scope.now) row case.now)) }
{
    put(out, b"    if ")?;
    put_conjunction(out, scope, case.condition.as_slice())?;
    put(out, b" { ")?;
    put_assignments(out, scope, row, case.assigns.as_slice())?;
    put(out, b"}\n")
}

/// A case with the row of its `each` behind the row parameters of the step.
fn put_step_case(
    out: &mut Vec<u8>,
    alloc: Global,
    names: &Names,
    step: &StepNames,
    transition: &Transition,
    row: Text,
    case: &Bulk,
) -> Result<(), AllocError>
    ensures { OnOk result (out.new.items ≡ out.old.items ++ case_of names.now step.now transition.now row case.now) }
{
    let mut rows = Vec::from_slice(alloc, step.rows.as_slice())?;
    rows.push(row)?;
    let mut relations = Vec::from_slice(alloc, transition.rows.as_slice())?;
    relations.push(case.relation)?;
    let scope = Scope {
        names,
        rows: rows.as_slice(),
        relations: relations.as_slice(),
        params: step.params.as_slice(),
    };
    put_case(out, &scope, transition.rows.len(), case)
}

/// How many of the cases at the front are of this relation.
fn front(relation: RelId, cases: &[Bulk]) -> usize
    ensures count { result ≡ front relation cases.now }
    ensures within { result ≤ length cases.now }
{
    let mut count = 0;
    let mut rest = cases;
    while let Some((case, after)) = rest.split_first() {
        if case.relation.n != relation.n {
            break;
        }
        count += 1;
        rest = after;
    }
    count
}

/// How many of the cases at the front are of the relation of the first.
fn group(cases: &[Bulk]) -> usize
    ensures count { result ≡ group cases.now }
    ensures within { result ≤ length cases.now }
{
    match cases.split_first() {
        Some((first, others)) => front(first.relation, others) + 1,
        None => 0,
    }
}

/// The name of the relation of the first case.
fn first_relation<'a>(names: &'a Names, cases: &[Bulk]) -> &'a [u8]
    ensures { result.now ≡ first_relation names.now cases.now }
{
    match cases.split_first() {
        Some((first, _)) => relation_at(names, first.relation.n as usize),
        None => b"",
    }
}

/// An `each` with its cases.
fn put_each(
    out: &mut Vec<u8>,
    alloc: Global,
    names: &Names,
    step: &StepNames,
    transition: &Transition,
    row: Text,
    cases: &[Bulk],
) -> Result<(), AllocError>
    ensures { OnOk result (out.new.items ≡ out.old.items ++ each_text names.now step.now transition.now row cases.now) }
{
    put(out, b"  each ")?;
    put_declared(out, row.bytes(), first_relation(names, cases))?;
    put(out, b" {\n")?;
    for case in cases {
        put_step_case(out, alloc, names, step, transition, row, case)?;
    }
    put(out, b"  }\n")
}

/// All `each` of a step: the cases of one relation make one.
fn put_eachs(
    out: &mut Vec<u8>,
    alloc: Global,
    names: &Names,
    step: &StepNames,
    transition: &Transition,
) -> Result<(), AllocError>
    ensures { OnOk result (out.new.items ≡ out.old.items ++ each_texts names.now step.now transition.now step.now.each transition.now.bulk) }
{
    let mut rest = transition.bulk.as_slice();
    for row in step.each.as_slice() {
        let (cases, after) = rest.split_at(group(rest));
        put_each(out, alloc, names, step, transition, *row, cases)?;
        rest = after;
    }
    Ok(())
}

/// The first line of a step.
fn put_heading(out: &mut Vec<u8>, name: &[u8]) -> Result<(), AllocError>
    ensures { OnOk result (out.new.items ≡ out.old.items ++ line (codes "step " ++ (name.now ++ codes " {"))) }
{
    put(out, b"step ")?;
    put(out, name)?;
    put(out, b" {\n")
}

fn put_step(
    out: &mut Vec<u8>,
    alloc: Global,
    names: &Names,
    step: &StepNames,
    transition: &Transition,
) -> Result<(), AllocError>
    ensures { OnOk result (out.new.items ≡ out.old.items ++ step_text names.now step.now transition.now) }
{
    put_heading(out, step.name.bytes())?;
    let scope = Scope {
        names,
        rows: step.rows.as_slice(),
        relations: transition.rows.as_slice(),
        params: step.params.as_slice(),
    };
    put_rows(out, names, scope.rows, scope.relations)?;
    put_params(out, names, scope.params, transition.params.as_slice())?;
    put_guard(out, &scope, transition.guard.as_slice())?;
    put_updates(out, &scope, transition.updates.as_slice())?;
    put_eachs(out, alloc, names, step, transition)?;
    put(out, b"}\n")
}

/// The step of this number; nothing where it has no names.
fn put_step_at(
    out: &mut Vec<u8>,
    alloc: Global,
    names: &Names,
    number: usize,
    transition: &Transition,
) -> Result<(), AllocError>
    ensures { OnOk result (out.new.items ≡ out.old.items ++ step_at names.now number transition.now) }
{
    let steps = names.steps.as_slice();
    if number < steps.len() {
        put_step(out, alloc, names, &steps[number], transition)
    } else {
        Ok(())
    }
}

/// The steps in order.
pub(crate) fn put_steps(
    out: &mut Vec<u8>,
    alloc: Global,
    names: &Names,
    transitions: &[Transition],
) -> Result<(), AllocError>
    ensures { OnOk result (out.new.items ≡ out.old.items ++ numbered (step_at names.now) 0 transitions.now) }
{
    for (number, transition) in transitions.iter().enumerate() {
        put_step_at(out, alloc, names, number, transition)?;
    }
    Ok(())
}
