ghost use Rattle.std.specs.Prelude.{◌≡◌, ℕ, List, [], ◌∷◌, ◌+◌, ◌≤◌, ◌<◌, ◌^◌, nat_eq, length, get_or, flat_map, IfOk};
ghost use Rattle.std.specs.List.{list_any};
ghost use Rattle.ras_bundles.specs.declared.system_lines.UpdateLine.{UpdateLine};
ghost use Rattle.ras_bundles.specs.declared.system_lines.TransitionLines.{TransitionLines};
ghost use Rattle.ras_bundles.specs.Checks.{Check, first_of, count_checks, cube_checks, guard_checks, update_checks, transition_checks, each, step_checks};
ghost use Rattle.ras_bundles.specs.Judging.{Judges};

use crate::fault::{BundleError, BundleKind};
use crate::judging::{count_fault, judged};
use crate::literals::{cube_fault, is_known_update, is_well_sorted_update};
use crate::system_lines::{SystemLines, TransitionLines, UpdateLine};
use ras_logic::{Cube, Problem, Shape};

/// The lines of the disjuncts of a guard.
fn disjunct_lines(shape: &Shape, cubes: &[Problem], first: u64) -> Result<u64, BundleError>
    requires first { first ≤ 2 ^ 50 }
    requires few { length cubes.now ≤ 2 ^ 32 }
    ensures judges { Judges (each (λ _. cube_checks shape.now) cubes.now) first result }
    ensures next { IfOk result (λ n. n ≤ first + 2 ^ 33) }
{
    for n in 0..cubes.len() {
        let cube = &cubes[n];
        let fault = cube_fault(shape, cube.rows.as_slice(), cube.literals.as_slice());
        judged(first + n as u64, fault)?;
    }
    Ok(first + cubes.len() as u64)
}

/// The lines of the goals.
fn goal_lines(shape: &Shape, cubes: &[Cube], first: u64) -> Result<u64, BundleError>
    requires first { first ≤ 2 ^ 50 }
    requires few { length cubes.now ≤ 2 ^ 32 }
    ensures judges { Judges (each (λ _. cube_checks shape.now) cubes.now) first result }
    ensures next { IfOk result (λ n. n ≤ first + 2 ^ 33) }
{
    for n in 0..cubes.len() {
        let cube = &cubes[n];
        let fault = cube_fault(shape, cube.rows(), cube.literals());
        judged(first + n as u64, fault)?;
    }
    Ok(first + cubes.len() as u64)
}

/// What is wrong in the line that counts the disjuncts of a guard.
fn guard_fault(disjuncts: usize) -> Option<BundleKind>
    ensures { (t : TransitionLines) → length t.guard ≡ disjuncts → result ≡ first_of (guard_checks t) }
{
    if disjuncts > 64 {
        return Some(BundleKind::Limit);
    }
    if disjuncts == 0 {
        return Some(BundleKind::Disjunct);
    }
    None
}

/// Whether one of the updates assigns the variable.
fn is_assigned(updates: &[UpdateLine], target: u32) -> bool
    ensures { result ≡ list_any (λ (above : UpdateLine). nat_eq above.target target) updates.now }
{
    updates.iter().any(|above| above.target == target)
}

/// What is wrong in the line of an update. A variable repeats among any 65 updates, so no more are looked at.
fn update_fault(shape: &Shape, transition: &TransitionLines, n: usize) -> Option<BundleKind>
    requires { n < length transition.now.updates }
    ensures { (d : UpdateLine) → result ≡ first_of (update_checks shape.now transition.now n (get_or transition.now.updates n d)) }
{
    let updates = transition.updates.as_slice();
    let update = &updates[n];
    if !is_known_update(shape, update) {
        return Some(BundleKind::Range);
    }
    if !is_well_sorted_update(shape, update) {
        return Some(BundleKind::Sort);
    }
    if is_assigned(&updates[..n], update.target) {
        return Some(BundleKind::Target);
    }
    None
}

/// The lines of the updates of a transition.
fn update_lines(shape: &Shape, transition: &TransitionLines, first: u64) -> Result<u64, BundleError>
    requires { first ≤ 2 ^ 50 }
    ensures judges { Judges (each (update_checks shape.now transition.now) transition.now.updates) first result }
    ensures next { IfOk result (λ n. n ≤ first + 2 ^ 33) }
{
    let count = transition.updates.len();
    for n in 0..count {
        judged(first + n as u64, update_fault(shape, transition, n))?;
    }
    Ok(first + count as u64)
}

/// The lines of a transition: its guard, then its updates.
fn transition_lines(
    shape: &Shape,
    transition: &TransitionLines,
    first: u64,
) -> Result<u64, BundleError>
    requires { first ≤ 2 ^ 48 }
    ensures judges { Judges (transition_checks shape.now transition.now) first result }
    ensures next { IfOk result (λ n. n ≤ first + 2 ^ 35) }
{
    let guard = transition.guard.as_slice();
    let next = judged(first, guard_fault(guard.len()))?;
    let next = disjunct_lines(shape, guard, next)?;
    let next = judged(next, None)?;
    update_lines(shape, transition, next)
}

/// The lines of the transitions, of which there are few.
fn all_transition_lines(
    shape: &Shape,
    transitions: &[TransitionLines],
    first: u64,
) -> Result<u64, BundleError>
    requires first { first ≤ 2 ^ 40 }
    requires few { length transitions.now ≤ 256 }
    ensures judges { Judges (flat_map (transition_checks shape.now) transitions.now) first result }
    ensures next { IfOk result (λ n. n ≤ 2 ^ 46) }
{
    let mut next = first;
    for transition in transitions {
        next = transition_lines(shape, transition, next)?;
    }
    Ok(next)
}

/// The lines from the transitions to the goals.
pub fn judge_steps(shape: &Shape, lines: &SystemLines, first: u64) -> Result<u64, BundleError>
    requires { first ≤ 2 ^ 36 }
    ensures { Judges (step_checks shape.now lines.now) first result }
{
    let transitions = lines.transitions.as_slice();
    let next = judged(first, count_fault(transitions.len(), 256))?;
    let next = all_transition_lines(shape, transitions, next)?;
    let goals = lines.goals.as_slice();
    let next = judged(next, count_fault(goals.len(), 64))?;
    goal_lines(shape, goals, next)
}
