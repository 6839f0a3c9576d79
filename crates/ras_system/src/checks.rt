//! The first fault of the parts of a system, in order: the initial constants, the transitions, the goals.
ghost use Rattle.std.specs.Prelude.{◌≡◌, Err, OnOk, All};
ghost use Rattle.ras_logic.specs.Formulas.{IsCube};
ghost use Rattle.ras_system.specs.SystemFaults.{Answers, checks as all_checks};

mod bulk;
mod goals;
mod guard;
mod initial;
mod known;
mod transitions;
mod updates;

use crate::system_fault::{SystemFault, SystemKind, SystemPlace};
use crate::transition::Transition;
use goals::check_goals;
use initial::check_initial;
use ras_logic::{ConstId, Cube, Shape};
use transitions::check_transitions;

/// The answer that a place has a fault.
fn fault(place: SystemPlace, kind: SystemKind) -> Result<(), SystemFault>
    ensures { result ≡ Err (record { place = place; kind = kind }) }
{
    Err(SystemFault { place, kind })
}

/// The first fault of the parts of a system.
pub fn check_system(
    shape: &Shape,
    initial: &[Option<ConstId>],
    transitions: &[Transition],
    goals: &[Cube],
) -> Result<(), SystemFault>
    ensures first { Answers (all_checks (record { shape = shape.now; initial = initial.now; transitions = transitions.now; goals = goals.now })) result }
    ensures cubes { OnOk result (All IsCube goals.now) }
{
    check_initial(shape, initial)?;
    check_transitions(shape, transitions)?;
    check_goals(shape, goals)
}
