//! Conditions and guards.
ghost use Rattle.std.specs.Prelude.{◌≡◌, ◌↔◌, Any, IsTrue};
ghost use Rattle.std.specs.List.{list_all};
ghost use Rattle.ras_logic.specs.declared.literal.Literal.{Literal};
ghost use Rattle.ras_logic.specs.Truth.{AllHold, holds as the_truth};
ghost use Rattle.ras_steps.specs.Sights.{seen};

use crate::sight::{Sight, holds};
use ras_database::Database;
use ras_logic::{List, Literal};

/// Whether each literal holds.
pub fn all_hold(db: &Database, sight: &Sight, literals: &[Literal]) -> bool
    ensures { result ≡ list_all (the_truth db.now (seen sight.now)) literals.now }
{
    for literal in literals {
        if !holds(db, sight, literal) {
            return false;
        }
    }
    true
}

/// Whether some disjunct of a guard holds.
pub fn guard_holds(db: &Database, sight: &Sight, guard: &[List<Literal>]) -> bool
    ensures { IsTrue result ↔ Any (AllHold db.now (seen sight.now)) guard.now }
{
    for disjunct in guard {
        if all_hold(db, sight, disjunct.as_slice()) {
            return true;
        }
    }
    false
}
