//! What is compared in a holding of the store: a state with the entries, and cubes with submissions.
ghost use Rattle.std.specs.Prelude.{◌≡◌, ◌<◌, ◌≤◌, length, IfOk, IfSome, IfNone, All, Contains};
ghost use Rattle.ras_logic.specs.declared.problem.Problem.{Problem};
ghost use Rattle.ras_logic.specs.Places.{IsFirstBad};
ghost use Rattle.ras_store.specs.Holding.{IsFirstMet};
ghost use Rattle.ras_store.specs.Comparing.{MeetsNone, IsNotAmong, cubes_in};

use ras_core::Entry;
use ras_logic::{Cube, Plain, Shared};
use ras_steps::{RowBuffer, Witness, meets};
use std::alloc::{AllocError, Global};

/// The first of the entries that the witness meets, where no cube has more rows than `widest`. Entries are looked at in order,
/// each once, up to that one.
pub fn first_met(
    alloc: Global,
    entries: &[Entry],
    widest: u32,
    witness: &Witness,
) -> Result<Option<u32>, AllocError>
    requires rows { All (λ (cube : Problem). length cube.rows ≤ widest) (cubes_in entries.now) }
    requires counted { length entries.now ≤ 4294967295 }
    ensures some { IfOk result (λ o. IfSome o (IsFirstMet witness.now.db witness.now.state (cubes_in entries.now))) }
    ensures none { IfOk result (λ o. IfNone o (MeetsNone witness.now.db witness.now.state (cubes_in entries.now))) }
{
    let mut found = RowBuffer::new(alloc, widest)?;
    for number in 0..entries.len() {
        let cube = entries[number].cube().get();
        if meets(&witness.db, &witness.state, cube, &mut found) {
            return Ok(Some(number as u32));
        }
    }
    Ok(None)
}

/// The place of a cube among the submissions from one place up to another.
fn place_between(submissions: &[Shared<Cube>], from: usize, to: usize, cube: &Cube) -> Option<usize>
    requires { to ≤ length submissions.now }
    ensures within { IfSome result (λ k. k < length submissions.now) }
    ensures is { IfSome result (λ k. Contains submissions.now cube.now) }
    ensures none { IfNone result (IsNotAmong submissions.now from to cube.now) }
{
    for at in from..to {
        if submissions[at].get().equal(cube) {
            return Some(at);
        }
    }
    None
}

/// The place of a cube among submissions, which are looked at from this place on and then from the first.
fn place_of(submissions: &[Shared<Cube>], from: usize, cube: &Cube) -> Option<usize>
    requires { from ≤ length submissions.now }
    ensures within { IfSome result (λ k. k < length submissions.now) }
    ensures is { IfSome result (λ k. Contains submissions.now cube.now) }
    ensures none { IfNone result (¬ Contains submissions.now cube.now) }
{
    match place_between(submissions, from, submissions.len(), cube) {
        Some(at) => Some(at),
        None => place_between(submissions, 0, from, cube),
    }
}

/// The first of the cubes that is no submission. Cubes in the order in which they were submitted are each compared once, with
/// no more submissions than lie between.
pub fn first_missing(submissions: &[Shared<Cube>], all: &[Shared<Cube>]) -> Option<u32>
    requires counted { length all.now ≤ 4294967295 }
    ensures some { IfSome result (IsFirstBad (Contains submissions.now) all.now) }
    ensures none { IfNone result (All (Contains submissions.now) all.now) }
{
    let mut from = 0;
    for index in 0..all.len() {
        match place_of(submissions, from, all[index].get()) {
            Some(at) => from = at + 1,
            None => return Some(index as u32),
        }
    }
    None
}
