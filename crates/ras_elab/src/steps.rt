ghost use Rattle.std.specs.Prelude.{◌≡◌, ℕ, [], ◌∷◌, ◌++◌, None, true, false, length, map, All, IfOk, OnOk};
ghost use Rattle.ras_names.specs.Placed as placed;
ghost use Rattle.ras_names.specs.Unplaced.{step_of};
ghost use Rattle.ras_names.specs.FileNames.{names_of_step};
ghost use Rattle.ras_names.specs.Checks.{for_each, is_among, texts, declared_texts, declared_checks, used_check};
ghost use Rattle.ras_names.specs.TermChecks as checks;
ghost use Rattle.ras_names.specs.StepChecks.{relation_texts, row_checks, param_checks, inside_checks};
ghost use Rattle.ras_names.specs.FileChecks.{above_step, above_steps, step_checks};
ghost use Rattle.ras_numbering.specs.Numbers.{number_in, declared_sort, declared_relation};
ghost use Rattle.ras_numbering.specs.TermValues.{guard_value};
ghost use Rattle.ras_numbering.specs.FileValues.{update_value, cases_value, step_value};
ghost use Rattle.ras_scope.specs.Placing.{placed_name, placed_row, placed_param, placed_guard, placed_update, placed_each, placed_step, placed_file};
ghost use Rattle.ras_scope.specs.Answering.{Answers};
ghost use Rattle.ras_scope.specs.Agreeing.{Agrees, IsSortText, IsRelationText, IsOfSort};
ghost use Rattle.ras_scope.specs.Seeing.{Sees, step_texts};
ghost use Rattle.ras_elab.specs.Bodies.{IsOfRelation, body_checks};

use ras_declarations::named::{Naming, read_named};
use ras_lexer::Text;
use ras_logic::{List, Literal, RelId, Rows, SortId};
use ras_names::StepNames;
use ras_scope::declared::{Declared, check_name};
use ras_scope::fault::SpecError;
use ras_scope::name_set::NameSet;
use ras_scope::scope::Scope;
use ras_scope::table::Table;
use ras_syntax as tree;
use ras_system::{Transition, Update};
use ras_terms::cases::{Cases, read_eachs};
use ras_terms::formulas::read_guard;
use ras_terms::updates::read_updates;
use std::alloc::{AllocError, Global};

/// The rows of a step or of an unsafe item, at most 8.
pub(crate) fn read_rows(
    alloc: Global,
    declared: &Declared,
    rows: &[tree::Row],
) -> Result<Table<RelId>, SpecError>
    ensures checks { (p : placed.File) → declared.now.relations ≡ relation_texts p
        → Answers (for_each (row_checks p declared.now.shared (map placed_row rows.now)) (map placed_row rows.now)) result }
    ensures names { IfOk result (λ t. t.names ≡ declared_texts (map placed_row rows.now)) }
    ensures values { (p : placed.File) → declared.now.relations ≡ relation_texts p → IfOk result (λ t. t.values.items ≡ map (declared_relation p) (map placed_row rows.now)) }
    ensures known { (p : placed.File) → declared.now.relations ≡ relation_texts p → OnOk result (All (IsOfRelation p) (map placed_row rows.now)) }
{
    let none = NameSet::new(alloc);
    let naming = Naming {
        above: &none,
        more: &declared.shared,
        used: &declared.relations,
        limit: 8,
    };
    read_named(alloc, &naming, rows)
}

/// The data parameters of a step, at most 16.
fn read_params(
    alloc: Global,
    declared: &Declared,
    rows: &NameSet,
    params: &[tree::Param],
) -> Result<Table<SortId>, SpecError>
    ensures checks { (p : placed.File) → declared.now.sorts ≡ texts p.sorts
        → Answers (for_each (param_checks p (declared.now.shared ++ rows.now) (map placed_param params.now)) (map placed_param params.now)) result }
    ensures names { IfOk result (λ t. t.names ≡ declared_texts (map placed_param params.now)) }
    ensures values { (p : placed.File) → declared.now.sorts ≡ texts p.sorts → IfOk result (λ t. t.values.items ≡ map (declared_sort p) (map placed_param params.now)) }
    ensures known { (p : placed.File) → declared.now.sorts ≡ texts p.sorts → OnOk result (All (IsOfSort p) (map placed_param params.now)) }
{
    let naming = Naming {
        above: &declared.shared,
        more: rows,
        used: &declared.sorts,
        limit: 16,
    };
    read_named(alloc, &naming, params)
}

/// What a step says behind its rows and data parameters.
#[derive(Drop)]
struct Body {
    guard: List<List<Literal>>,
    updates: List<Update>,
    cases: Cases,
}

/// The guard, the updates and the cases of a step.
fn read_body(alloc: Global, scope: &Scope, step: &tree::Step) -> Result<Body, SpecError>
    requires { scope.now.each ≡ None }
    ensures checks { (seen : checks.Scope) → Sees scope.now seen → Answers (body_checks seen (step_texts scope.now) (placed_step step.now)) result }
    ensures guard { (seen : checks.Scope) → Sees scope.now seen → IfOk result (λ b. b.guard ≡ guard_value seen (placed_guard step.now.guard)) }
    ensures updates { (seen : checks.Scope) → Sees scope.now seen → IfOk result (λ b. b.updates ≡ map (update_value seen) (map placed_update step.now.updates.items)) }
    ensures bulk { (seen : checks.Scope) → Sees scope.now seen → IfOk result (λ b. b.cases.bulk ≡ cases_value seen (map placed_each step.now.eachs.items)) }
    ensures rows { IfOk result (λ b. b.cases.rows ≡ map (λ (e : placed.Each). e.row.text) (map placed_each step.now.eachs.items)) }
{
    let guard = read_guard(alloc, scope, 0, &step.guard)?;
    let updates = read_updates(alloc, scope, step.updates.as_slice())?;
    let cases = read_eachs(alloc, scope, step.eachs.as_slice())?;
    Ok(Body {
        guard,
        updates,
        cases,
    })
}

/// What a step says, and the names in it.
#[derive(Drop)]
pub(crate) struct ReadStep {
    pub(crate) transition: Transition,
    pub(crate) names: StepNames,
}

/// A step with its parts put together.
fn join_step(
    alloc: Global,
    name: Text,
    rows: Table<RelId>,
    params: Table<SortId>,
    body: Body,
) -> Result<ReadStep, AllocError>
    ensures transition { IfOk result (λ s. s.transition ≡ record { rows = rows.values.items; params = params.values.items; guard = body.guard; updates = body.updates; bulk = body.cases.bulk }) }
    ensures names { IfOk result (λ s. s.names ≡ record { name = name; rows = rows.names; params = params.names; each = body.cases.rows }) }
{
    let (row_names, relations) = rows.parts(alloc)?;
    let (param_names, sorts) = params.parts(alloc)?;
    Ok(ReadStep {
        transition: Transition {
            rows: Rows::from_vec(relations),
            params: List::from_vec(sorts),
            guard: body.guard,
            updates: body.updates,
            bulk: body.cases.bulk,
        },
        names: StepNames {
            name,
            rows: row_names,
            params: param_names,
            each: body.cases.rows,
        },
    })
}

/// The inside of a step, whose name is among the shared ones.
fn read_inside(alloc: Global, declared: &Declared, step: &tree::Step) -> Result<ReadStep, SpecError>
    ensures checks { (p : placed.File) → Agrees p declared.now → Answers (inside_checks p declared.now.shared (placed_step step.now)) result }
    ensures value { (p : placed.File) → Agrees p declared.now → IfOk result (λ s. s.transition ≡ step_value p (placed_step step.now)) }
    ensures names { IfOk result (λ s. s.names ≡ names_of_step (step_of (placed_step step.now))) }
{
    let rows = read_rows(alloc, declared, step.rows.as_slice())?;
    let params = read_params(alloc, declared, rows.names(), step.params.as_slice())?;
    let scope = Scope {
        declared,
        rows: &rows,
        params: &params,
        each: None,
    };
    let body = read_body(alloc, &scope, step)?;
    let read = join_step(alloc, step.name.text, rows, params, body)?;
    Ok(read)
}

/// The steps of a file, and their names.
#[derive(Drop)]
pub(crate) struct Steps {
    pub(crate) transitions: List<Transition>,
    pub(crate) names: List<StepNames>,
}

/// One step, of which there are `count` above, with its name among the shared ones.
fn read_step(
    alloc: Global,
    declared: &mut Declared,
    count: usize,
    step: &tree::Step,
) -> Result<ReadStep, SpecError>
    ensures checks { (p : placed.File) → Agrees p declared.old
        → let s = placed_step step.now in Answers (declared_checks 256 count declared.old.shared s.name ++ inside_checks p (declared.old.shared ++ s.name.text ∷ []) s) result }
    ensures value { (p : placed.File) → Agrees p declared.old → IfOk result (λ s. s.transition ≡ step_value p (placed_step step.now)) }
    ensures names { IfOk result (λ s. s.names ≡ names_of_step (step_of (placed_step step.now))) }
    ensures shared { OnOk result (declared.new ≡ record declared.old { shared = declared.old.shared ++ step.now.name.text ∷ [] }) }
{
    check_name(&declared.shared, 256, count, &step.name)?;
    declared.shared.add(step.name.text)?;
    read_inside(alloc, declared, step)
}

/// The steps of a file, at most 256.
pub(crate) fn read_steps(
    alloc: Global,
    declared: &mut Declared,
    file: &tree::File,
) -> Result<Steps, SpecError>
    requires agrees { Agrees (placed_file file.now) declared.old }
    requires shared { declared.old.shared ≡ above_steps (placed_file file.now) }
    ensures checks { let p = placed_file file.now in Answers (for_each (step_checks p) p.steps) result }
    ensures transitions { let p = placed_file file.now in IfOk result (λ s. s.transitions ≡ map (step_value p) p.steps) }
    ensures names { let p = placed_file file.now in IfOk result (λ s. s.names ≡ map names_of_step (map step_of p.steps)) }
    ensures shared { let p = placed_file file.now in OnOk result (declared.new.shared ≡ above_step p (length p.steps)) }
    ensures agrees { OnOk result (Agrees (placed_file file.now) declared.new) }
{
    let mut transitions = List::new(alloc);
    let mut names: List<StepNames> = List::new(alloc);
    for step in &file.steps {
        let read = read_step(alloc, declared, names.len(), step)?;
        transitions.push(read.transition)?;
        names.push(read.names)?;
    }
    Ok(Steps { transitions, names })
}
