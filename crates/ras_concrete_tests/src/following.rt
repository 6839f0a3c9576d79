//! A run along a chain from a state of its first cube, and the state that it ends at.
ghost use Rattle.std.specs.Prelude.{IfSome};
ghost use Rattle.std.specs.Bool.{OnTrue};
ghost use Rattle.ras_system.specs.States.{Meets};
ghost use Rattle.ras_extension.specs.Reaching.{IsStateIn};
ghost use Rattle.ras_concrete.specs.Concretes.{IsConcrete};
ghost use Rattle.ras_concrete_tests.specs.Backwards.{IsSomeChain};

use ras_concrete::{Concrete, concretise};
use ras_core::Link;
use ras_database::Database;
use ras_logic::{Cube, RawDb};
use ras_steps::{RowBuffer, Witness, meets, replay, state_fits};
use ras_system::{State, System};
use std::alloc::Global;

/// The database and the state, where they fit the system.
pub fn witness(system: &System, raw: RawDb, state: State) -> Option<Witness>
    ensures { IfSome result (λ w. IsStateIn system.now w.db w.state) }
{
    let db = Database::new(system.shape().schema(), raw).ok()?;
    if state_fits(system, &db, &state) {
        Some(Witness { db, state })
    } else {
        None
    }
}

/// Whether the state meets the cube.
fn is_met(alloc: Global, witness: &Witness, cube: &Cube) -> bool
    ensures { OnTrue result (Meets witness.now.db witness.now.state cube.now) }
{
    cube.known();
    match RowBuffer::new(alloc, cube.rows().len() as u32) {
        Ok(mut found) => meets(&witness.db, &witness.state, cube, &mut found),
        Err(_) => false,
    }
}

/// The run along the chain, where the state meets its first cube.
pub fn concretised(
    alloc: Global,
    system: &System,
    links: &[Link],
    witness: Witness,
) -> Option<Concrete>
    requires chain { IsSomeChain system.now links.now }
    requires state { IsStateIn system.now witness.db witness.state }
    ensures { IfSome result (IsConcrete system.now links.now witness) }
{
    system.known();
    if is_met(alloc, &witness, links.first()?.cube.get()) {
        concretise(alloc, system, links, witness).ok()
    } else {
        None
    }
}

/// The state that the run ends at, as it is replayed.
pub fn last_of(alloc: Global, system: &System, concrete: &Concrete) -> Option<State> {
    replay(alloc, &concrete.db, system, &concrete.run).ok()
}
