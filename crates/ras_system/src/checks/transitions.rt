ghost use Rattle.std.specs.Prelude.{◌<◌, ◌≤◌, length, OnOk};
ghost use Rattle.ras_system.specs.SystemFaults.{Answers, for_each, parameter_checks, transition_checks};

use super::bulk::check_bulk;
use super::fault;
use super::guard::check_guard;
use super::known::{are_known_relations, are_known_sorts};
use super::updates::check_updates;
use crate::system_fault::{SystemFault, SystemKind, SystemPlace};
use crate::transition::Transition;
use ras_logic::Shape;

/// The first fault of a transition by itself.
fn check_parameters(shape: &Shape, n: u16, transition: &Transition) -> Result<(), SystemFault>
    ensures first { Answers (parameter_checks shape.now n transition.now) result }
    ensures few { OnOk result (n < 256) }
    ensures few_rows { OnOk result (length transition.now.rows ≤ 8) }
{
    let place = SystemPlace::Transition(n);
    if n >= 256 || transition.rows.len() > 8 || transition.params.len() > 16 {
        return fault(place, SystemKind::Limit);
    }
    if !(are_known_relations(shape, transition.rows.as_slice())
        && are_known_sorts(shape.schema(), transition.params.as_slice()))
    {
        return fault(place, SystemKind::Range);
    }
    if transition.guard.len() == 0 {
        return fault(place, SystemKind::NoDisjunct);
    }
    Ok(())
}

/// The first fault of a transition: itself, its guard, its updates, its bulk cases.
fn check_transition(shape: &Shape, n: u16, transition: &Transition) -> Result<(), SystemFault>
    ensures first { Answers (transition_checks shape.now n transition.now) result }
    ensures few { OnOk result (n < 256) }
{
    check_parameters(shape, n, transition)?;
    check_guard(shape, n, transition)?;
    check_updates(shape, n, transition)?;
    check_bulk(shape, n, transition)
}

/// The first fault of the transitions.
pub fn check_transitions(shape: &Shape, transitions: &[Transition]) -> Result<(), SystemFault>
    ensures { Answers (for_each (transition_checks shape.now) transitions.now) result }
{
    for n in 0..transitions.len() {
        check_transition(shape, n as u16, &transitions[n])?;
    }
    Ok(())
}
