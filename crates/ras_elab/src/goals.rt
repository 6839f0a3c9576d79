ghost use Rattle.std.specs.Prelude.{◌≡◌, ◌≤◌, [], ◌∷◌, ◌++◌, length, map, flat_map, All, IfOk, OnOk};
ghost use Rattle.ras_logic.specs.Formulas.{HasNoParam};
ghost use Rattle.ras_logic.specs.declared.literal.Literal as literal;
ghost use Rattle.ras_names.specs.Placed as placed;
ghost use Rattle.ras_names.specs.Unplaced.{goal_of};
ghost use Rattle.ras_names.specs.FileNames.{names_of_goal};
ghost use Rattle.ras_names.specs.Checks.{for_each};
ghost use Rattle.ras_names.specs.TermChecks.{guard_checks};
ghost use Rattle.ras_names.specs.StepChecks.{row_checks};
ghost use Rattle.ras_names.specs.FileChecks.{above_step, goal_checks};
ghost use Rattle.ras_numbering.specs.FileValues.{goal_names, goal_values};
ghost use Rattle.ras_scope.specs.Placing.{placed_goal, placed_file};
ghost use Rattle.ras_scope.specs.Answering.{Answers};
ghost use Rattle.ras_scope.specs.Agreeing.{Agrees};
ghost use Rattle.ras_elab.specs.Goals.{IsOfFile, item_checks, cube_of};

use crate::steps::read_rows;
use ras_logic::{Cube, List, Literal, Plain, RelId, Rows};
use ras_names::GoalNames;
use ras_scope::declared::Declared;
use ras_scope::fault::SpecError;
use ras_scope::scope::Scope;
use ras_scope::table::Table;
use ras_syntax as tree;
use ras_terms::formulas::read_guard;
use std::alloc::{AllocError, Global};

/// The goals of a file, and the names of its unsafe items.
#[derive(Drop)]
pub(crate) struct Goals {
    pub(crate) cubes: List<Cube>,
    pub(crate) names: List<GoalNames>,
}

/// One goal more: the rows of its item, and one of the disjuncts.
fn add_goal(
    alloc: Global,
    cubes: &mut List<Cube>,
    rows: &Rows,
    literals: List<Literal>,
) -> Result<(), AllocError>
    requires { All HasNoParam literals }
    ensures { OnOk result (cubes.new ≡ cubes.old ++ cube_of rows.now literals ∷ []) }
{
    let cube = Cube::new(rows.copy(alloc)?, literals).unwrap();
    cubes.push(cube)
}

/// The goals of an unsafe item: its rows, and each of the disjuncts.
fn add_goals(
    alloc: Global,
    cubes: &mut List<Cube>,
    rows: &Rows,
    disjuncts: List<List<Literal>>,
) -> Result<(), AllocError>
    requires { All (All HasNoParam) disjuncts }
    ensures { OnOk result (cubes.new ≡ cubes.old ++ map (cube_of rows.now) disjuncts) }
{
    for literals in disjuncts.into_vec() {
        add_goal(alloc, cubes, rows, literals)?;
    }
    Ok(())
}

/// The rows and the disjuncts of an unsafe item.
#[derive(Drop)]
struct Item {
    rows: Table<RelId>,
    disjuncts: List<List<Literal>>,
}

/// What an unsafe item says, with `above` goals above it; all disjuncts of the file are at most 64.
fn read_item(
    alloc: Global,
    declared: &Declared,
    above: usize,
    goal: &tree::Goal,
) -> Result<Item, SpecError>
    ensures checks { (p : placed.File) → Agrees p declared.now → Answers (item_checks p declared.now.shared above (placed_goal goal.now)) result }
    ensures values { (p : placed.File) → Agrees p declared.now → IfOk result (λ i. map (cube_of i.rows.values.items) i.disjuncts ≡ goal_values p (placed_goal goal.now)) }
    ensures no_params { IsOfFile declared.now → IfOk result (λ i. All (All HasNoParam) i.disjuncts) }
    ensures few { IsOfFile declared.now → IfOk result (λ i. length i.disjuncts ≤ 64) }
    ensures names { IfOk result (λ i. i.rows.names ≡ (names_of_goal (goal_of (placed_goal goal.now))).rows) }
    ensures count { IsOfFile declared.now → IfOk result (λ i. length i.disjuncts ≡ (names_of_goal (goal_of (placed_goal goal.now))).disjuncts) }
{
    let rows = read_rows(alloc, declared, goal.rows.as_slice())?;
    let params = Table::new(alloc);
    let scope = Scope {
        declared,
        rows: &rows,
        params: &params,
        each: None,
    };
    let disjuncts = read_guard(alloc, &scope, above, &goal.guard)?;
    Ok(Item { rows, disjuncts })
}

/// One unsafe item more.
fn add_item(
    alloc: Global,
    declared: &Declared,
    cubes: &mut List<Cube>,
    goal: &tree::Goal,
) -> Result<GoalNames, SpecError>
    requires { IsOfFile declared.now }
    ensures checks { (p : placed.File) → Agrees p declared.now → Answers (item_checks p declared.now.shared (length cubes.old) (placed_goal goal.now)) result }
    ensures cubes { (p : placed.File) → Agrees p declared.now → OnOk result (cubes.new ≡ cubes.old ++ goal_values p (placed_goal goal.now)) }
    ensures names { IfOk result (λ n. n ≡ names_of_goal (goal_of (placed_goal goal.now))) }
{
    let item = read_item(alloc, declared, cubes.len(), goal)?;
    let Item {
        rows,
        disjuncts: all,
    } = item;
    let disjuncts = all.len() as u16;
    let (names, relations) = rows.parts(alloc)?;
    add_goals(alloc, cubes, &Rows::from_vec(relations), all)?;
    Ok(GoalNames {
        rows: names,
        disjuncts,
    })
}

/// The unsafe items of a file.
pub(crate) fn read_goals(
    alloc: Global,
    declared: &Declared,
    file: &tree::File,
) -> Result<Goals, SpecError>
    requires agrees { Agrees (placed_file file.now) declared.now }
    requires shared { let p = placed_file file.now in declared.now.shared ≡ above_step p (length p.steps) }
    ensures checks { let p = placed_file file.now in Answers (for_each (goal_checks p) p.goals) result }
    ensures cubes { let p = placed_file file.now in IfOk result (λ g. g.cubes ≡ flat_map (goal_values p) p.goals) }
    ensures names { let p = placed_file file.now in IfOk result (λ g. g.names ≡ map names_of_goal (map goal_of p.goals)) }
{
    let mut cubes = List::new(alloc);
    let mut names = List::new(alloc);
    for goal in &file.goals {
        let item = add_item(alloc, declared, &mut cubes, goal)?;
        names.push(item)?;
    }
    Ok(Goals { cubes, names })
}
