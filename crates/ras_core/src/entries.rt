//! What is done to one entry of a list, and the first entry of a kind.
ghost use Rattle.std.specs.Prelude.{◌≡◌, ◌<◌, ◌≤◌, length, OnOk, OnErr, vec_capacity, vec_len};
ghost use Rattle.ras_core.specs.CoreStates.{change, with_work, dropped, with_submission, marked, listed};
ghost use Rattle.ras_core.specs.Bookkeeping.{NoneBefore, IsFirst, IsWithin};

use crate::entry::Entry;
use crate::origin::Origin;
use crate::sought::Sought;
use crate::work::Work;
use ras_logic::{Cube, Shared};
use std::alloc::AllocError;

#[tactic(auto, using(crate::proofs::Booking::set_change))]
pub fn set_work_at(entries: &mut Vec<Entry>, number: usize, work: Work)
    requires { number < length entries.old.items }
    ensures { entries.new.items ≡ change (with_work work) number entries.old.items }
{
    entries[number].set_work(work);
}

#[tactic(auto, using(crate::proofs::Booking::set_change))]
pub fn drop_at(entries: &mut Vec<Entry>, number: usize)
    requires { number < length entries.old.items }
    ensures { entries.new.items ≡ change dropped number entries.old.items }
{
    entries[number].drop_it();
}

#[tactic(auto, using(crate::proofs::Booking::set_change))]
fn submit_at(entries: &mut Vec<Entry>, number: usize, cube: Shared<Cube>) -> Result<(), AllocError>
    requires { number < length entries.old.items }
    ensures ok { OnOk result (entries.new.items ≡ change (with_submission cube) number entries.old.items) }
    ensures err { OnErr result (entries.new.items ≡ entries.old.items) }
    ensures room { vec_capacity entries.new ≡ vec_capacity entries.old }
    ensures len { vec_len entries.new ≡ vec_len entries.old }
{
    entries[number].submit(cube)
}

/// A submission: a goal is marked, an entry lists the cube.
pub fn submit_in(
    marks: &mut [bool; 64],
    entries: &mut Vec<Entry>,
    origin: Origin,
    cube: Shared<Cube>,
) -> Result<(), AllocError>
    requires { IsWithin (length marks.old) (length entries.old.items) origin }
    ensures marks_ok { OnOk result (marks.new ≡ marked origin marks.old) }
    ensures entries_ok { OnOk result (entries.new.items ≡ listed origin cube entries.old.items) }
    ensures marks_err { OnErr result (marks.new ≡ marks.old) }
    ensures entries_err { OnErr result (entries.new.items ≡ entries.old.items) }
    ensures room { vec_capacity entries.new ≡ vec_capacity entries.old }
    ensures len { vec_len entries.new ≡ vec_len entries.old }
{
    match origin {
        Origin::Goal { disjunct } => {
            marks[disjunct as usize] = true;
            Ok(())
        }
        Origin::Step { entry, .. } => submit_at(entries, entry as usize, cube),
    }
}

/// The first entry that is such, where there is none before this number; the number of all entries where none is.
#[tactic(auto, using(crate::proofs::Booking::none_more, crate::proofs::Booking::found_here))]
pub fn first_from(entries: &[Entry], from: u32, what: Sought) -> u32
    requires none { NoneBefore what entries.now from }
    requires within { from ≤ length entries.now }
    requires counted { length entries.now ≤ 4294967295 }
    ensures { IsFirst what entries.now result }
{
    let mut at = from;
    while (at as usize) < entries.len() && !entries[at as usize].is(what) {
        at += 1;
    }
    at
}
