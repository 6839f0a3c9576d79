ghost use Rattle.std.specs.Prelude.{◌<◌, OnOk};
ghost use Rattle.ras_system.specs.SystemFaults.{Answers, for_each, disjunct_checks};

use super::fault;
use super::known::check_literals;
use crate::system_fault::{SystemFault, SystemKind, SystemPlace};
use crate::transition::Transition;
use ras_logic::{List, Literal, Shape};

/// The first fault of a disjunct of a guard.
fn check_disjunct(
    shape: &Shape,
    n: u16,
    transition: &Transition,
    k: u16,
    disjunct: &List<Literal>,
) -> Result<(), SystemFault>
    ensures first { Answers (disjunct_checks shape.now n transition.now k disjunct.now) result }
    ensures few { OnOk result (k < 64) }
{
    let place = SystemPlace::Guard {
        transition: n,
        disjunct: k,
    };
    if k >= 64 || disjunct.len() > 128 {
        return fault(place, SystemKind::Limit);
    }
    check_literals(
        shape,
        place,
        transition.rows.as_slice(),
        transition.params.as_slice(),
        disjunct.as_slice(),
    )
}

/// The first fault of the guard of a transition.
pub fn check_guard(shape: &Shape, n: u16, transition: &Transition) -> Result<(), SystemFault>
    ensures { Answers (for_each (disjunct_checks shape.now n transition.now) transition.now.guard) result }
{
    let guard = transition.guard.as_slice();
    for k in 0..guard.len() {
        check_disjunct(shape, n, transition, k as u16, &guard[k])?;
    }
    Ok(())
}
