ghost use Rattle.std.specs.Prelude.{◌≡◌, ◌↔◌, ℕ, ◌<◌, ◌≤◌, [], true, None, length, All, IsTrue, OnOk, OnErr, IfSome, IfNone};
ghost use Rattle.ras_core.specs.declared.work.Work.TheVariants as work;
ghost use Rattle.ras_core.specs.declared.sought.Sought.TheVariants as sought;
ghost use Rattle.ras_core.specs.declared.event.Event.TheVariants as event;
ghost use Rattle.ras_core.specs.CoreStates.{EntryParts, IsEntry, IsKeptEntry, IsAt, IsQuiet, start, changed, dropped, submit, admit};
ghost use Rattle.ras_core.specs.Events.{IsOpen, AreKept, BookkeepingAllows};
ghost use Rattle.ras_core.specs.Bookkeeping.{with_event, IsSought, NoneBefore};

use crate::entries::{drop_at, first_from, set_work_at, submit_in};
use crate::entry::Entry;
use crate::event::Event;
use crate::found::Found;
use crate::origin::Origin;
use crate::sought::Sought;
use crate::work::Work;
use ras_logic::{Cube, List, Shared};
use std::alloc::{AllocError, Global};
use std::marker::Model;

/// The state of a search, without threads: which events its bookkeeping allows, and what they leave. Its base is empty.
///
/// Which entries are free, and which are not done, is looked up from the first that may be so: `free_from` and
/// `unfinished_from` say how many before it need not be looked at.
#[derive(Drop)]
pub struct CoreState {
    alloc: Global,
    budget: u32,
    goals: u16,
    marks: [bool; 64],
    entries: Vec<Entry>,
    hit: Option<Found>,
    spill: Option<Found>,
    reported: bool,
    free_from: u32,
    unfinished_from: u32,
}

impl Model for CoreState {
    ghost use Rattle.std.specs.Prelude.{[], take};
    ghost use Rattle.ras_core.specs.Bookkeeping.{SearchParts, IsBooked};

    ghost Value = { SearchParts };

    ghost view = { λ s. record {
      budget = s.budget;
      state = record {
        submitted = take s.goals s.marks;
        entries = s.entries.items;
        hit = s.hit;
        spill = s.spill;
        base = [];
        reported = s.reported;
      };
    } };

    ghost invariant = { λ s. IsBooked s.budget s.goals s.marks s.entries.items s.free_from s.unfinished_from };
}

impl CoreState {
    /// A search for at most 64 goals that has not begun. It takes no memory.
    pub fn new(alloc: Global, goals: u16, budget: u32) -> CoreState
        requires { goals ≤ 64 }
        ensures { result ≡ record { budget = budget; state = start goals [] } }
    {
        CoreState {
            alloc,
            budget,
            goals,
            marks: [false; 64],
            entries: Vec::new(alloc),
            hit: None,
            spill: None,
            reported: false,
            free_from: 0,
            unfinished_from: 0,
        }
    }

    /// How many entries there may be.
    pub fn budget(&self) -> u32
        ensures { result ≡ self.now.budget }
    {
        self.budget
    }

    /// The entries in the order in which they were admitted.
    pub fn entries(&self) -> &[Entry]
        ensures entries { result.now ≡ self.now.state.entries }
        ensures few { length self.now.state.entries ≤ self.now.budget }
    {
        self.entries.as_slice()
    }

    /// Whether it was recorded that the search was found quiet.
    pub fn is_reported(&self) -> bool
        ensures { result ≡ self.now.state.reported }
    {
        self.reported
    }

    fn is_kept(&self, entry: u32) -> bool
        ensures { IsTrue result ↔ ((e : EntryParts) × IsKeptEntry self.now.state entry e) }
    {
        let number = entry as usize;
        number < self.entries.len() && self.entries[number].is_kept()
    }

    fn is_at(&self, entry: u32, work: Work) -> bool
        ensures { IsTrue result ↔ ((e : EntryParts) × IsAt self.now.state entry work e) }
    {
        let number = entry as usize;
        number < self.entries.len() && self.entries[number].is_at(work)
    }

    #[tactic(auto, using(crate::proofs::Booking::count_marks))]
    fn goal_count(&self) -> u16
        ensures { result ≡ length self.now.state.submitted }
    {
        self.goals
    }

    fn is_open(&self, origin: Origin) -> bool
        ensures { IsTrue result ↔ IsOpen self.now.state origin }
    {
        match origin {
            Origin::Goal { disjunct } => disjunct < self.goal_count(),
            Origin::Step { entry, .. } => self.is_at(entry, Work::Taken),
        }
    }

    fn are_kept(&self, reasons: &List<u32>) -> bool
        ensures { IsTrue result ↔ AreKept self.now.state reasons.now }
    {
        for reason in reasons.as_slice() {
            if !self.is_kept(*reason) {
                return false;
            }
        }
        true
    }

    fn all_submitted(&self) -> bool
        ensures { IsTrue result ↔ All (λ b. b ≡ true) self.now.state.submitted }
    {
        self.marks[..self.goals as usize].iter().all(|mark| *mark)
    }

    fn all_done(&self) -> bool
        ensures { IsTrue result ↔ ((i : ℕ) (e : EntryParts) → IsKeptEntry self.now.state i e → e.work ≡ work.Done) }
    {
        let entries = self.entries.as_slice();
        first_from(entries, self.unfinished_from, Sought::Unfinished) as usize == entries.len()
    }

    /// Whether every goal was submitted, no hit or spill stands, and every kept entry is done.
    pub fn is_quiet(&self) -> bool
        ensures { IsTrue result ↔ IsQuiet self.now.state }
    {
        self.all_submitted() && self.hit.is_none() && self.spill.is_none() && self.all_done()
    }

    /// The first kept entry that is free.
    pub fn first_free(&mut self) -> Option<u32>
        ensures same { self.new ≡ self.old }
        ensures some { IfSome result (λ n. NoneBefore sought.Free self.old.state.entries n × ((e : EntryParts) × IsAt self.old.state n work.Free e)) }
        ensures none { IfNone result ((n : ℕ) (e : EntryParts) → ¬ IsAt self.old.state n work.Free e) }
    {
        let number = first_from(self.entries.as_slice(), self.free_from, Sought::Free);
        self.free_from = number;
        if (number as usize) < self.entries.len() {
            Some(number)
        } else {
            None
        }
    }

    /// The first kept entry that is not done.
    pub fn first_unfinished(&mut self) -> Option<u32>
        ensures same { self.new ≡ self.old }
        ensures some { IfSome result (λ n. NoneBefore sought.Unfinished self.old.state.entries n
            × ((e : EntryParts) × IsEntry self.old.state n e × IsSought sought.Unfinished e)) }
        ensures none { IfNone result ((n : ℕ) (e : EntryParts) → IsEntry self.old.state n e → ¬ IsSought sought.Unfinished e) }
    {
        let number = first_from(
            self.entries.as_slice(),
            self.unfinished_from,
            Sought::Unfinished,
        );
        self.unfinished_from = number;
        if (number as usize) < self.entries.len() {
            Some(number)
        } else {
            None
        }
    }

    /// Whether the bookkeeping allows an event: by numbers, by what is kept, taken and submitted, by the budget, the hit and
    /// the spill, and by whether idleness was reported. What the states of cubes must be is not looked at.
    pub fn allowed(&self, event: &Event) -> bool
        ensures { IsTrue result ↔ BookkeepingAllows self.now.budget self.now.state event.now }
    {
        match event {
            Event::Claim { entry } => self.is_at(*entry, Work::Free),
            Event::Admit { origin, .. } => self.is_open(*origin) && self.may_admit(),
            Event::Skip {
                origin,
                reasons,
                ..
            } => self.is_open(*origin) && self.are_kept(reasons),
            Event::Drop { entry, by } => {
                *entry != *by && self.is_kept(*entry) && self.is_kept(*by)
            }
            Event::Done { entry } => self.is_at(*entry, Work::Taken),
            Event::GiveBack { entry } => self.is_at(*entry, Work::Taken),
            Event::Hit { origin, .. } => self.is_open(*origin) && self.hit.is_none(),
            Event::Spill { origin, .. } => self.is_open(*origin) && self.may_spill(),
            Event::Idle => self.is_quiet() && !self.reported,
        }
    }

    fn may_admit(&self) -> bool
        ensures { IsTrue result ↔ ((self.now.state.hit ≡ None) × (length self.now.state.entries < self.now.budget)) }
    {
        self.hit.is_none() && self.entries.len() < self.budget as usize
    }

    fn may_spill(&self) -> bool
        ensures { IsTrue result ↔ ((self.now.state.hit ≡ None) × (self.now.state.spill ≡ None) × (length self.now.state.entries ≡ self.now.budget)) }
    {
        self.hit.is_none() && self.spill.is_none() && self.entries.len() == self.budget as usize
    }

    /// The entry, which is kept and free, is taken.
    pub fn claim(&mut self, entry: u32)
        requires { (e : EntryParts) × IsAt self.old.state entry work.Free e }
        ensures { self.new ≡ with_event self.old (event.Claim entry) }
    {
        set_work_at(&mut self.entries, entry as usize, Work::Taken);
    }

    /// The work on the entry, which is kept and taken, is done.
    pub fn finish(&mut self, entry: u32)
        requires { (e : EntryParts) × IsAt self.old.state entry work.Taken e }
        ensures { self.new ≡ with_event self.old (event.Done entry) }
    {
        set_work_at(&mut self.entries, entry as usize, Work::Done);
    }

    /// The entry, which is kept and taken, is free again.
    pub fn give_back(&mut self, entry: u32)
        requires { (e : EntryParts) × IsAt self.old.state entry work.Taken e }
        ensures { self.new ≡ with_event self.old (event.GiveBack entry) }
    {
        set_work_at(&mut self.entries, entry as usize, Work::Free);
        self.free_from = self.free_from.min(entry);
    }

    /// The entry, which is kept, is no longer kept.
    pub fn drop_entry(&mut self, entry: u32)
        requires { (e : EntryParts) × IsKeptEntry self.old.state entry e }
        ensures { self.new ≡ record self.old { state = changed dropped entry self.old.state } }
    {
        drop_at(&mut self.entries, entry as usize);
    }

    /// The cube is a submission of its origin.
    pub fn submit(&mut self, origin: Origin, cube: Shared<Cube>) -> Result<(), AllocError>
        requires { IsOpen self.old.state origin }
        ensures ok { OnOk result (self.new ≡ record self.old { state = submit origin cube self.old.state }) }
        ensures err { OnErr result (self.new ≡ self.old) }
    {
        submit_in(&mut self.marks, &mut self.entries, origin, cube)?;
        Ok(())
    }

    /// A new entry, which is a submission of its origin; both share the cube.
    pub fn admit(
        &mut self,
        origin: Origin,
        kept: Shared<Cube>,
        submitted: Shared<Cube>,
    ) -> Result<(), AllocError>
        requires within { IsOpen self.old.state origin }
        requires room { length self.old.state.entries < self.old.budget }
        requires same { submitted ≡ kept }
        ensures ok { OnOk result (self.new ≡ record self.old { state = submit origin kept (admit origin kept self.old.state) }) }
        ensures err { OnErr result (self.new ≡ self.old) }
    {
        let entry = Entry::new(self.alloc, origin, kept);
        self.entries.reserve(1)?;
        submit_in(&mut self.marks, &mut self.entries, origin, submitted)?;
        self.entries.push_reserved(entry);
        Ok(())
    }

    /// A cube that some initial state meets.
    pub fn keep_hit(&mut self, origin: Origin, cube: Shared<Cube>)
        ensures { self.new ≡ with_event self.old (event.Hit origin cube) }
    {
        self.hit = Some(Found { cube, origin });
    }

    /// A cube that would be an entry, were there room in the budget.
    pub fn keep_spill(&mut self, origin: Origin, cube: Shared<Cube>)
        ensures { self.new ≡ with_event self.old (event.Spill origin cube) }
    {
        self.spill = Some(Found { cube, origin });
    }

    /// The search was found quiet.
    pub fn report_idle(&mut self)
        ensures { self.new ≡ with_event self.old event.Idle }
    {
        self.reported = true;
    }

    /// Takes an event that is allowed. It takes memory only where it keeps the event's cube.
    pub fn apply(&mut self, event: &Event) -> Result<(), AllocError>
        requires { BookkeepingAllows self.old.budget self.old.state event.now }
        ensures ok { OnOk result (self.new ≡ with_event self.old event.now) }
        ensures err { OnErr result (self.new ≡ self.old) }
    {
        match event {
            Event::Claim { entry } => self.claim(*entry),
            Event::Admit { origin, cube } => {
                return self.admit(*origin, cube.another()?, cube.another()?);
            }
            Event::Skip { origin, cube, .. } => return self.submit(*origin, cube.another()?),
            Event::Drop { entry, .. } => self.drop_entry(*entry),
            Event::Done { entry } => self.finish(*entry),
            Event::GiveBack { entry } => self.give_back(*entry),
            Event::Hit { origin, cube } => self.keep_hit(*origin, cube.another()?),
            Event::Spill { origin, cube } => self.keep_spill(*origin, cube.another()?),
            Event::Idle => self.report_idle(),
        }
        Ok(())
    }
}
