ghost use Rattle.std.specs.Prelude.{IfOk};
ghost use Rattle.ras_concrete.specs.Concretes.{IsChainFrom, IsConcrete};

use crate::concrete::Concrete;
use crate::following::lead;
use ras_core::Link;
use ras_extension::{extensions_compose, kept_by_extension};
use ras_logic::{List, Plain};
use ras_steps::{Run, Witness};
use ras_system::System;
use std::alloc::{AllocError, Global};

/// A run along a chain, from the state of a witness of its first formula to a state that meets a goal, in a database that
/// extends the witness's. Every state of a formula of the chain leads by its transition into the next, and the last is a goal.
/// A step is made in the database that there is where it is found there, and else in a larger one, so that a sort grows only
/// by what a step needs.
pub fn concretise(
    alloc: Global,
    system: &System,
    chain: &[Link],
    witness: Witness,
) -> Result<Concrete, AllocError>
    requires { IsChainFrom system.now chain.now witness }
    ensures { IfOk result (IsConcrete system.now chain.now witness) }
{
    system.known();
    kept_by_extension();
    extensions_compose();
    let Witness { mut db, mut state } = witness;
    let start = state.copy(alloc)?;
    let mut choices = List::new(alloc);
    for at in 1..chain.len() {
        let Some(transition) = chain[at - 1].transition else {
            unreachable!()
        };
        let led = lead(alloc, system, db, &state, transition, chain[at].cube.get())?;
        choices.push(led.choice)?;
        db = led.db;
        state = led.next;
    }
    Ok(Concrete {
        db,
        run: Run { start, choices },
    })
}
