ghost use Rattle.std.specs.Prelude.{◌≡◌, ◌++◌, map, codes, OnOk};
ghost use Rattle.ras_names.specs.Canonical.{joined, conjunction_text};
ghost use Rattle.ras_print.specs.Printed.{first_rows, goal_item, goal_text, goal_texts};

use crate::formulas::put_conjunction;
use crate::scope::Scope;
use crate::steps::put_rows;
use ras_logic::{Cube, RelId};
use ras_names::{GoalNames, Names};
use ras_text::put;
use std::alloc::AllocError;

/// The rows of the first goal.
fn first_rows(goals: &[Cube]) -> &[RelId]
    ensures { result.now ≡ first_rows goals.now }
{
    match goals.split_first() {
        Some((first, _)) => first.rows(),
        None => &[],
    }
}

/// The literals of a goal.
fn put_goal(
    out: &mut Vec<u8>,
    names: &Names,
    item: &GoalNames,
    goal: &Cube,
) -> Result<(), AllocError>
    ensures { OnOk result (out.new.items ≡ out.old.items ++ conjunction_text (goal_item names.now item.now goal.now)) }
{
    let scope = Scope {
        names,
        rows: item.rows.as_slice(),
        relations: goal.rows(),
        params: &[],
    };
    put_conjunction(out, &scope, goal.literals())
}

/// The goals of an unsafe item with `or` between them.
#[tactic(auto, using(crate::proofs::Loops::joined_more))]
fn put_disjuncts(
    out: &mut Vec<u8>,
    names: &Names,
    item: &GoalNames,
    goals: &[Cube],
) -> Result<(), AllocError>
    ensures { OnOk result (out.new.items ≡ out.old.items
        ++ joined (codes " or ") (map conjunction_text (map (goal_item names.now item.now) goals.now))) }
{
    let Some((first, others)) = goals.split_first() else {
        return Ok(());
    };
    put_goal(out, names, item, first)?;
    for goal in others {
        put(out, b" or ")?;
        put_goal(out, names, item, goal)?;
    }
    Ok(())
}

/// An unsafe item: its rows, and its goals as the disjuncts.
fn put_unsafe(
    out: &mut Vec<u8>,
    names: &Names,
    item: &GoalNames,
    goals: &[Cube],
) -> Result<(), AllocError>
    ensures { OnOk result (out.new.items ≡ out.old.items ++ goal_text names.now item.now goals.now) }
{
    put(out, b"unsafe {\n")?;
    put_rows(out, names, item.rows.as_slice(), first_rows(goals))?;
    put(out, b"  when ")?;
    put_disjuncts(out, names, item, goals)?;
    put(out, b";\n")?;
    put(out, b"}\n")
}

/// The unsafe items, each with as many goals as it has disjuncts.
pub(crate) fn put_goals(out: &mut Vec<u8>, names: &Names, goals: &[Cube]) -> Result<(), AllocError>
    ensures { OnOk result (out.new.items ≡ out.old.items ++ goal_texts names.now names.now.goals goals.now) }
{
    let mut rest = goals;
    for item in names.goals.as_slice() {
        let (own, after) = rest.split_at((item.disjuncts as usize).min(rest.len()));
        put_unsafe(out, names, item, own)?;
        rest = after;
    }
    Ok(())
}
