ghost use Rattle.std.specs.Prelude.{◌≡◌, ◌≢◌, ◌↔◌, true, IsTrue, OnOk, OnErr};
ghost use Rattle.ras_core.specs.declared.work.Work.TheVariants as work;
ghost use Rattle.ras_core.specs.CoreStates.{admitted, with_work, dropped, with_submission};
ghost use Rattle.ras_core.specs.Bookkeeping.{IsSought};

use crate::origin::Origin;
use crate::sought::Sought;
use crate::work::Work;
use ras_logic::{Cube, List, Shared};
use std::alloc::{AllocError, Global};
use std::marker::Model;

/// An entry of a search: a cube with its origin, whether it is kept, the work on it, and its submissions.
#[derive(Drop)]
pub struct Entry {
    cube: Shared<Cube>,
    origin: Origin,
    kept: bool,
    work: Work,
    submissions: List<Shared<Cube>>,
}

impl Model for Entry {
    ghost use Rattle.ras_core.specs.CoreStates.{EntryParts};

    ghost Value = { EntryParts };

    ghost view = { λ e. record { cube = e.cube; origin = e.origin; kept = e.kept; work = e.work; submissions = e.submissions } };
}

impl Entry {
    /// A new entry, kept and free.
    pub fn new(alloc: Global, origin: Origin, cube: Shared<Cube>) -> Entry
        ensures { result ≡ admitted origin cube }
    {
        Entry {
            cube,
            origin,
            kept: true,
            work: Work::Free,
            submissions: List::new(alloc),
        }
    }

    /// The cube that was admitted.
    pub fn cube(&self) -> &Shared<Cube>
        ensures { result.now ≡ self.now.cube }
    {
        &self.cube
    }

    /// Where the cube comes from.
    pub fn origin(&self) -> Origin
        ensures { result ≡ self.now.origin }
    {
        self.origin
    }

    /// The cubes that were admitted or skipped with this entry as their origin, in order.
    pub fn submissions(&self) -> &[Shared<Cube>]
        ensures { result.now ≡ self.now.submissions }
    {
        self.submissions.as_slice()
    }

    /// Whether it was not dropped.
    pub fn is_kept(&self) -> bool
        ensures { IsTrue result ↔ (self.now.kept ≡ true) }
    {
        self.kept
    }

    /// The work on it.
    pub fn work(&self) -> Work
        ensures { result ≡ self.now.work }
    {
        self.work
    }

    /// Whether it is kept, with this work.
    pub fn is_at(&self, work: Work) -> bool
        ensures { IsTrue result ↔ ((self.now.kept ≡ true) × (self.now.work ≡ work)) }
    {
        self.kept && self.work == work
    }

    /// Whether it is such an entry.
    pub fn is(&self, what: Sought) -> bool
        ensures { IsTrue result ↔ IsSought what self.now }
    {
        match what {
            Sought::Free => self.is_at(Work::Free),
            Sought::Unfinished => self.kept && self.work != Work::Done,
        }
    }

    /// From now on the work on it is this.
    pub fn set_work(&mut self, work: Work)
        ensures { self.new ≡ with_work work self.old }
    {
        self.work = work;
    }

    /// It is no longer kept.
    pub fn drop_it(&mut self)
        ensures { self.new ≡ dropped self.old }
    {
        self.kept = false;
    }

    /// One submission more.
    pub fn submit(&mut self, cube: Shared<Cube>) -> Result<(), AllocError>
        ensures ok { OnOk result (self.new ≡ with_submission cube self.old) }
        ensures err { OnErr result (self.new ≡ self.old) }
    {
        self.submissions.push(cube)
    }
}
