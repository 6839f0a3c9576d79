ghost use Rattle.std.specs.Prelude.{◌≡◌, ◌<◌, ◌≤◌, [], ◌∷◌, length, OnOk};
ghost use Rattle.ras_logic.specs.Terms.{base_term};
ghost use Rattle.ras_system.specs.Systems.{target_term, update_literal};
ghost use Rattle.ras_system.specs.SystemFaults.{Answers, for_each, literal_checks, update_checks};
ghost use Rattle.ras_system.specs.Slots.{HasSlot, slot_of as the_slot};

use super::fault;
use super::known::{is_known_base, is_known_term, is_one_sort, sort_of_alone};
use crate::system_fault::{SystemFault, SystemKind, SystemPlace};
use crate::transition::Transition;
use crate::update::{Target, Update};
use ras_logic::{Base, Shape, sort_of};

/// What a target is in the old state.
fn base_of(target: Target) -> Base
    ensures { base_term result ≡ target_term target }
{
    match target {
        Target::Var(v) => Base::Var(v),
        Target::Cell { row, column } => Base::Cell { row, column },
    }
}

/// The place of a target in a table of all targets: 64 variables, and 8 rows of 32 columns.
fn slot_of(target: Target) -> usize
    requires { HasSlot target }
    ensures value { result ≡ the_slot target }
    ensures within { result < 320 }
{
    match target {
        Target::Var(v) => v.n as usize,
        Target::Cell { row, column } => 64 + 32 * row as usize + column as usize,
    }
}

/// The first fault of a target and its term.
fn check_update(
    shape: &Shape,
    place: SystemPlace,
    transition: &Transition,
    update: &Update,
) -> Result<(), SystemFault>
    requires { length transition.now.rows ≤ 8 }
    ensures first { Answers (literal_checks shape.now place transition.now.rows transition.now.params (update_literal update.now ∷ [])) result }
    ensures slot { OnOk result (HasSlot update.now.target) }
{
    shape.known();
    let rows = transition.rows.as_slice();
    let params = transition.params.as_slice();
    let base = base_of(update.target);
    if !(is_known_base(shape, rows, params, base)
        && is_known_term(shape, rows, params, &update.term))
    {
        return fault(place, SystemKind::Range);
    }
    let target_sort = sort_of_alone(shape, rows, params, base);
    if !is_one_sort(target_sort, sort_of(shape, rows, params, &update.term)) {
        return fault(place, SystemKind::Sort);
    }
    Ok(())
}

/// The first fault of the updates of a transition. A target repeats among any 321 updates, so a `u16` counts them.
pub fn check_updates(shape: &Shape, n: u16, transition: &Transition) -> Result<(), SystemFault>
    requires { length transition.now.rows ≤ 8 }
    ensures { Answers (for_each (update_checks shape.now n transition.now) transition.now.updates) result }
{
    let updates = transition.updates.as_slice();
    let mut seen = [false; 320];
    for k in 0..updates.len() {
        let update = &updates[k];
        let place = SystemPlace::Update {
            transition: n,
            index: k as u16,
        };
        check_update(shape, place, transition, update)?;
        let slot = slot_of(update.target);
        if seen[slot] {
            return fault(place, SystemKind::Target);
        }
        seen[slot] = true;
    }
    Ok(())
}
