ghost use Rattle.std.specs.Prelude.{◌<◌, OnOk, All};
ghost use Rattle.ras_logic.specs.Formulas.{IsCube};
ghost use Rattle.ras_system.specs.SystemFaults.{Answers, for_each, goal_checks};

use super::fault;
use super::known::{are_known_relations, check_literals};
use crate::system_fault::{SystemFault, SystemKind, SystemPlace};
use ras_logic::{Cube, Shape};

/// The first fault of a goal.
fn check_goal(shape: &Shape, n: u16, goal: &Cube) -> Result<(), SystemFault>
    ensures first { Answers (goal_checks shape.now n goal.now) result }
    ensures few { OnOk result (n < 64) }
{
    let place = SystemPlace::Goal(n);
    if n >= 64 || goal.rows().len() > 8 || goal.literals().len() > 128 {
        return fault(place, SystemKind::Limit);
    }
    if !are_known_relations(shape, goal.rows()) {
        return fault(place, SystemKind::Range);
    }
    check_literals(shape, place, goal.rows(), &[], goal.literals())
}

/// The first fault of the goals.
pub fn check_goals(shape: &Shape, goals: &[Cube]) -> Result<(), SystemFault>
    ensures first { Answers (for_each (goal_checks shape.now) goals.now) result }
    ensures cubes { OnOk result (All IsCube goals.now) }
{
    for n in 0..goals.len() {
        let goal = &goals[n];
        goal.known();
        check_goal(shape, n as u16, goal)?;
    }
    Ok(())
}
