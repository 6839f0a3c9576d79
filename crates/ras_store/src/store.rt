ghost use Rattle.std.specs.Prelude.{◌≡◌, ◌≢◌, ◌↔◌, ℕ, ◌+◌, ◌<◌, ◌≤◌, [], length, drop, slice_get, Some, None, All, IsTrue, IfOk, OnOk, OnErr, IfSome, IfNone};
ghost use Rattle.std.specs.Bool.{OnTrue, OnFalse};
ghost use Rattle.ras_core.specs.declared.event.Event.TheVariants as event;
ghost use Rattle.ras_core.specs.declared.work.Work.TheVariants.{Free, Taken};
ghost use Rattle.ras_core.specs.declared.sought.Sought.TheVariants as sought;
ghost use Rattle.ras_core.specs.CoreStates.{EntryParts, IsAt, IsEntry, IsQuiet, cubes_of};
ghost use Rattle.ras_core.specs.Bookkeeping.{IsFirst};
ghost use Rattle.ras_core.specs.Admissible.{NoneIsInitial};
ghost use Rattle.ras_core.specs.Events.{Allowed};
ghost use Rattle.ras_core.specs.Chains.{IsChain};
ghost use Rattle.ras_store.specs.Sites.{origin_of, ComesFromSite, IsTightForSite, IsWitness, IsInitialWitness, AllMeet, AllMeetAny, LeadOnlyFrom};
ghost use Rattle.ras_store.specs.Stores.{new_store, with_event, with_entry, with_hit, with_spill, with_return};
ghost use Rattle.ras_store.specs.Lawful.{IsNewWitness, IsLawfulStore};
ghost use Rattle.ras_store.specs.Holding.{HasHit, HasSpill, IsFirstFree, NoneIsFree, IsGood, IsGoodSite, IsGoneSite, IsKept, AreKept, IsFirstLost, IsFirstMet, AreSubmitted, IsFirstMissing, named_cubes, named_from, kept_from};
ghost use Rattle.ras_store.specs.Comparing.{MeetsNone};
ghost use Rattle.ras_store.specs.Following.{AreOrigins};
ghost use Rattle.ras_store.specs.Outcomes.{IsClaim, IsAtRest, IsAdmission, IsHitting, IsSkipping, IsDropping, IsFinishing, IsReturn, IsQuieting};

use crate::comparing::{first_met, first_missing};
use crate::found::Found;
use crate::named::Named;
use crate::naming::{kept_names, names_from, numbers};
use crate::outcome::{Admitted, Dropped, Finished, Quiet, Skipped};
use crate::parts::{
    make_room_beside, put_found, put_ready, renew_serial, take_ready, three_owners, two_owners,
};
use crate::site::Site;
use crate::ticket::Ticket;
use ras_core::{
    CoreState, Entry, Event, Journal, Link, Origin, Work, a_journal_grows_by_what_is_allowed,
    an_empty_base_is_one,
};
use ras_logic::{Cube, List, Plain, Shared};
use ras_steps::Witness;
use ras_system::System;
use std::alloc::{AllocError, Global};
use std::marker::Model;

/// The value behind the lock of a search: the entries with their witnesses, the hit and the spill, and the journal of which
/// they are the replay. Each call is one event or none.
#[derive(Drop)]
pub struct Store {
    alloc: Global,
    system: System,
    core: CoreState,
    journal: Journal,
    witnesses: Vec<Witness>,
    serials: Vec<u32>,
    ready: Vec<Option<Shared<Cube>>>,
    hit: Option<Found>,
    spill: Option<Found>,
    widest: u32,
}

impl Model for Store {
    ghost use Rattle.ras_store.specs.Stores.{StoreParts};
    ghost use Rattle.ras_store.specs.Stored.{seen, IsStored};

    ghost Value = { StoreParts };

    ghost view = { λ s. seen s.system s.core s.journal.events s.witnesses.items s.serials.items s.hit s.spill };

    ghost invariant = { λ s. IsStored (seen s.system s.core s.journal.events s.witnesses.items s.serials.items s.hit s.spill) s.ready.items s.journal.room s.widest };
}

impl Store {
    /// A store of the system in which nothing has happened, for at most 4,000 entries.
    pub fn new(alloc: Global, system: &System, budget: u32) -> Result<Store, AllocError>
        requires some { 0 < budget }
        requires few { budget ≤ 4000 }
        ensures { IfOk result (λ s. s ≡ new_store system.now budget) }
    {
        system.known();
        an_empty_base_is_one();
        a_journal_grows_by_what_is_allowed();
        let mut journal = Journal::new(alloc);
        journal.make_room(1)?;
        Ok(Store {
            alloc,
            system: system.copy(alloc)?,
            core: CoreState::new(alloc, system.goals().len() as u16, budget),
            journal,
            witnesses: Vec::new(alloc),
            serials: Vec::new(alloc),
            ready: Vec::new(alloc),
            hit: None,
            spill: None,
            widest: 0,
        })
    }

    /// What holds of every store.
    pub fn known(&self)
        ensures { IsLawfulStore self.now }
    {
        let _ = &self.journal;
    }

    /// Whether the store is of this system and budget. The systems are compared whole; it takes no memory.
    pub fn is_of(&self, system: &System, budget: u32) -> bool
        ensures { IsTrue result ↔ ((self.now.system ≡ system.now) × (self.now.budget ≡ budget)) }
    {
        self.system.equal(system) && self.core.budget() == budget
    }

    /// The entries in the order in which they were admitted.
    pub fn entries(&self) -> &[Entry]
        ensures { result.now ≡ self.now.state.entries }
    {
        self.core.entries()
    }

    /// The witness of each entry, in the order of the entries.
    pub fn witnesses(&self) -> &[Witness]
        ensures { result.now ≡ self.now.witnesses }
    {
        self.witnesses.as_slice()
    }

    /// The serial number of each entry, in the order of the entries: the one that its ticket carries while it is taken.
    pub fn serials(&self) -> &[u32]
        ensures { result.now ≡ self.now.serials }
    {
        self.serials.as_slice()
    }

    /// The events in order.
    pub fn journal(&self) -> &Journal
        ensures { result.now.events ≡ self.now.journal }
    {
        &self.journal
    }

    /// The events in order; the rest of the store is dropped.
    pub fn into_journal(self) -> Journal
        ensures { result.events ≡ self.journal }
    {
        self.journal
    }

    /// The hit, if one stands.
    pub fn hit_kept(&self) -> Option<&Found>
        ensures some { IfSome result (λ f. self.now.hit ≡ Some f.now) }
        ensures none { IfNone result (self.now.hit ≡ None) }
    {
        self.hit.as_ref()
    }

    /// The spill, if one stands.
    pub fn spill_kept(&self) -> Option<&Found>
        ensures some { IfSome result (λ f. self.now.spill ≡ Some f.now) }
        ensures none { IfNone result (self.now.spill ≡ None) }
    {
        self.spill.as_ref()
    }

    /// The entries from this number on, kept or not. Each costs a pointer.
    pub fn delta(&self, seen: u32) -> Result<Vec<Named>, AllocError>
        ensures { IfOk result (λ names. names.items ≡ named_from seen (drop seen self.now.state.entries)) }
    {
        names_from(self.alloc, self.core.entries(), seen)
    }

    /// The kept entries in order. Each costs a pointer.
    pub fn kept(&self) -> Result<Vec<Named>, AllocError>
        ensures { IfOk result (λ names. names.items ≡ kept_from 0 self.now.state.entries) }
    {
        kept_names(self.alloc, self.core.entries())
    }

    /// Whether a hit stands.
    fn has_hit(&self) -> bool
        ensures hit { OnTrue result (HasHit self.now.state) }
        ensures no_hit { OnFalse result (self.now.state.hit ≡ None) }
    {
        self.hit.is_some()
    }

    /// Whether a spill stands.
    fn has_spill(&self) -> bool
        ensures spill { OnTrue result (HasSpill self.now.state) }
        ensures no_spill { OnFalse result (self.now.state.spill ≡ None) }
    {
        self.spill.is_some()
    }

    /// How many entries there may be.
    fn budget(&self) -> u32
        ensures { result ≡ self.now.budget }
    {
        self.core.budget()
    }

    /// How many entries there are.
    fn count(&self) -> u32
        ensures { result ≡ length self.now.state.entries }
    {
        self.core.entries().len() as u32
    }

    /// Whether the entry is kept, with this cube.
    fn keeps(&self, named: &Named) -> bool
        ensures { IsTrue result ↔ IsKept self.now.state named.now }
    {
        let entries = self.core.entries();
        let number = named.number as usize;
        if number >= entries.len() {
            return false;
        }
        let entry = &entries[number];
        entry.is_kept() && entry.cube().get().equal(named.cube.get())
    }

    /// The first of the names that is no kept entry.
    fn first_lost(&self, names: &[Named]) -> Option<u32>
        ensures some { IfSome result (IsFirstLost self.now.state names.now) }
        ensures none { IfNone result (AreKept self.now.state names.now) }
    {
        for named in names {
            if !self.keeps(named) {
                return Some(named.number);
            }
        }
        None
    }

    /// Whether the ticket is good.
    fn honours(&self, ticket: &Ticket) -> bool
        ensures { IsTrue result ↔ IsGood self.now ticket.now }
    {
        let entries = self.core.entries();
        let number = ticket.entry as usize;
        if number >= entries.len() {
            return false;
        }
        let entry = &entries[number];
        entry.is_at(Work::Taken)
            && self.serials[number] == ticket.serial
            && entry.cube().get().equal(ticket.cube.get())
    }

    /// The entry of the site's ticket, if that is not good.
    fn gone(&self, site: &Site<'_>) -> Option<u32>
        ensures some { IfSome result (IsGoneSite self.now site.now) }
        ensures none { IfNone result (IsGoodSite self.now site.now) }
    {
        match *site {
            Site::Goal { .. } => None,
            Site::Step { ticket, .. } => {
                if self.honours(ticket) {
                    None
                } else {
                    Some(ticket.entry)
                }
            }
        }
    }

    /// The first entry that the witness meets.
    fn first_met(&self, witness: &Witness) -> Result<Option<u32>, AllocError>
        ensures some { IfOk result (λ o. IfSome o (IsFirstMet witness.now.db witness.now.state (cubes_of self.now.state))) }
        ensures none { IfOk result (λ o. IfNone o (MeetsNone witness.now.db witness.now.state (cubes_of self.now.state))) }
    {
        first_met(self.alloc, self.core.entries(), self.widest, witness)
    }

    /// The first kept entry that is free is taken: a ticket for it, or none where no kept entry is free. It takes no memory.
    /// Its cost is constant, spread over the calls; after an entry was given back, the taken ones behind it are passed over
    /// once more.
    pub fn claim(&mut self) -> Option<Ticket>
        ensures some { IfSome result (IsClaim self.old self.new) }
        ensures none { IfNone result (self.new ≡ self.old) }
        ensures nothing { IfNone result (NoneIsFree self.old.state) }
    {
        let number = self.first_free()?;
        Some(self.take(number))
    }

    /// The first kept entry that is free.
    fn first_free(&mut self) -> Option<u32>
        ensures same { self.new ≡ self.old }
        ensures some { IfSome result (IsFirstFree self.old.state) }
        ensures none { IfNone result (NoneIsFree self.old.state) }
    {
        self.core.first_free()
    }

    /// The entry, which is kept and free, is taken.
    fn take(&mut self, entry: u32) -> Ticket
        requires { (e : EntryParts) × IsAt self.old.state entry Free e }
        ensures entry { result.entry ≡ entry }
        ensures cube { (e : EntryParts) × IsEntry self.old.state entry e × (e.cube ≡ result.cube) }
        ensures serial { slice_get self.old.serials entry ≡ Some result.serial }
        ensures event { self.new ≡ with_event self.old (event.Claim entry) }
    {
        let cube = take_ready(&mut self.ready, entry as usize);
        self.core.claim(entry);
        self.journal.add(Event::Claim { entry });
        let serial = self.serials[entry as usize];
        Ticket {
            entry,
            serial,
            cube,
        }
    }

    /// The work on the ticket's entry ends undone: the entry is free again, and its next ticket has another serial number.
    /// `Gone` where the ticket is not good. Its cost is constant.
    pub fn give_back(&mut self, ticket: &Ticket) -> Result<Finished, AllocError>
        ensures ok { IfOk result (IsReturn self.old self.new ticket.now) }
        ensures err { OnErr result (self.new ≡ self.old) }
    {
        if !self.honours(ticket) {
            return Ok(Finished::Gone {
                number: ticket.entry,
            });
        }
        self.put_back(ticket.entry, ticket.cube.another()?)?;
        Ok(Finished::Done)
    }

    /// The entry, which is kept and taken, is free again, with the pointer for its next ticket.
    fn put_back(&mut self, entry: u32, cube: Shared<Cube>) -> Result<(), AllocError>
        requires { (e : EntryParts) × IsAt self.old.state entry Taken e × (e.cube ≡ cube) }
        ensures ok { OnOk result (self.new ≡ with_return self.old entry) }
        ensures err { OnErr result (self.new ≡ self.old) }
    {
        let number = entry as usize;
        let count = self.core.entries().len() as u32;
        self.journal.make_room(3 * count + 2)?;
        put_ready(&mut self.ready, number, cube);
        renew_serial(&mut self.serials, number);
        self.core.give_back(entry);
        self.journal.add(Event::GiveBack { entry });
        Ok(())
    }

    /// The work on the ticket's entry is done, where each of the cubes is a submission of the entry. `Gone` where the ticket is
    /// not good; `Missing` names the first cube that is no submission. It takes no memory. Cubes in the order in which they
    /// were submitted are compared once each.
    pub fn finish(&mut self, ticket: &Ticket, all: &[Shared<Cube>]) -> Finished
        requires worked_out { LeadOnlyFrom self.old.system ticket.now.cube all.now }
        requires counted { length all.now ≤ 4294967295 }
        ensures { IsFinishing self.old self.new ticket.now all.now result }
    {
        if !self.honours(ticket) {
            return Finished::Gone {
                number: ticket.entry,
            };
        }
        match self.first_missing(ticket.entry, all) {
            Some(index) => Finished::Missing { index },
            None => {
                self.end(ticket.entry);
                Finished::Done
            }
        }
    }

    /// The first of the cubes that is no submission of the entry.
    fn first_missing(&self, entry: u32, all: &[Shared<Cube>]) -> Option<u32>
        requires within { entry < length self.now.state.entries }
        requires counted { length all.now ≤ 4294967295 }
        ensures some { IfSome result (IsFirstMissing self.now.state entry all.now) }
        ensures none { IfNone result (AreSubmitted self.now.state entry all.now) }
    {
        let entry = &self.core.entries()[entry as usize];
        first_missing(entry.submissions(), all)
    }

    /// The work on the entry is done.
    fn end(&mut self, entry: u32)
        requires { Allowed self.old.system self.old.budget self.old.state (event.Done entry) }
        ensures { self.new ≡ with_event self.old (event.Done entry) }
    {
        self.core.finish(entry);
        self.journal.add(Event::Done { entry });
    }

    /// The one entry is dropped for the other, where both are kept. `Gone` names the first of the two that is no kept entry with
    /// its cube. It takes no memory; its cost is that of two comparisons of cubes.
    pub fn drop_by(&mut self, entry: &Named, by: &Named) -> Dropped
        requires different { entry.now.number ≢ by.now.number }
        requires inside { AllMeet self.old.system entry.now.cube by.now.cube }
        ensures { IsDropping self.old self.new entry.now by.now result }
    {
        if !self.keeps(entry) {
            return Dropped::Gone {
                number: entry.number,
            };
        }
        if !self.keeps(by) {
            return Dropped::Gone { number: by.number };
        }
        self.discard(entry.number, by.number);
        Dropped::Done
    }

    /// The one entry is dropped for the other.
    fn discard(&mut self, entry: u32, by: u32)
        requires { Allowed self.old.system self.old.budget self.old.state (event.Drop entry by) }
        ensures { self.new ≡ with_event self.old (event.Drop entry by) }
    {
        self.core.drop_entry(entry);
        self.journal.add(Event::Drop { entry, by });
    }

    /// The cube becomes a submission of its origin, where the ticket is good and the reasons are kept. `Gone` names the ticket's
    /// entry, or else the first reason that is no kept entry with its cube. Its cost is that of comparing the reasons' cubes.
    pub fn skip(
        &mut self,
        site: &Site<'_>,
        cube: Shared<Cube>,
        reasons: &[Named],
    ) -> Result<Skipped, AllocError>
        requires comes { ComesFromSite self.old.system site.now cube }
        requires reasoned { AllMeetAny self.old.system cube (named_cubes reasons.now) }
        ensures ok { IfOk result (IsSkipping self.old self.new site.now cube reasons.now) }
        ensures err { OnErr result (self.new ≡ self.old) }
    {
        self.known();
        if let Some(number) = self.gone(site) {
            return Ok(Skipped::Gone { number });
        }
        if let Some(number) = self.first_lost(reasons) {
            return Ok(Skipped::Gone { number });
        }
        self.submit(site.origin(), cube, numbers(self.alloc, reasons)?)?;
        Ok(Skipped::Noted)
    }

    /// The cube is a submission of its origin, for these reasons.
    fn submit(
        &mut self,
        origin: Origin,
        cube: Shared<Cube>,
        reasons: List<u32>,
    ) -> Result<(), AllocError>
        requires { Allowed self.old.system self.old.budget self.old.state (event.Skip origin cube reasons) }
        ensures ok { OnOk result (self.new ≡ with_event self.old (event.Skip origin cube reasons)) }
        ensures err { OnErr result (self.new ≡ self.old) }
    {
        let submitted = cube.another()?;
        let count = self.core.entries().len() as u32;
        self.journal.make_room(3 * count + 2)?;
        self.core.submit(origin, submitted)?;
        self.journal.add(Event::Skip {
            origin,
            cube,
            reasons,
        });
        Ok(())
    }

    /// The cube becomes an entry with this witness. The answers are judged in this order: `Stopped` where a hit stands; `Gone`
    /// where the ticket is not good; `Overtaken` by the first entry that the witness meets; `Full` where the entries number the
    /// budget, the first time with the cube as the spill; else `In`. The witness is compared with each entry up to the first
    /// that it meets, and never copied.
    pub fn admit(
        &mut self,
        site: &Site<'_>,
        cube: Shared<Cube>,
        witness: Witness,
    ) -> Result<Admitted, AllocError>
        requires comes { ComesFromSite self.old.system site.now cube }
        requires tight { IsTightForSite self.old.system site.now cube }
        requires not_initial { NoneIsInitial self.old.system cube }
        requires witness { IsWitness self.old.system cube witness }
        ensures ok { IfOk result (IsAdmission self.old self.new site.now cube witness) }
        ensures err { OnErr result (self.new ≡ self.old) }
    {
        self.known();
        if self.has_hit() {
            return Ok(Admitted::Stopped);
        }
        if let Some(number) = self.gone(site) {
            return Ok(Admitted::Gone { number });
        }
        if let Some(number) = self.first_met(&witness)? {
            return Ok(Admitted::Overtaken { number });
        }
        let budget = self.budget();
        if self.count() < budget {
            let number = self.enter(site.origin(), cube, witness)?;
            return Ok(Admitted::In { number });
        }
        if !self.has_spill() {
            self.overflow(site.origin(), cube, witness)?;
        }
        Ok(Admitted::Full { budget })
    }

    /// A new entry with its witness.
    fn enter(
        &mut self,
        origin: Origin,
        cube: Shared<Cube>,
        witness: Witness,
    ) -> Result<u32, AllocError>
        requires allowed { Allowed self.old.system self.old.budget self.old.state (event.Admit origin cube) }
        requires new { IsNewWitness self.old.system cube (cubes_of self.old.state) witness }
        ensures number { IfOk result (λ n. n ≡ length self.old.state.entries) }
        ensures ok { OnOk result (self.new ≡ with_entry self.old origin cube witness) }
        ensures err { OnErr result (self.new ≡ self.old) }
    {
        let (kept, submitted, ready) = three_owners(&cube)?;
        cube.get().known();
        let rows = cube.get().rows().len() as u32;
        let number = self.core.entries().len() as u32;
        self.journal.make_room(3 * number + 5)?;
        make_room_beside(&mut self.witnesses, &mut self.serials, &mut self.ready)?;
        self.core.admit(origin, kept, submitted)?;
        self.witnesses.push_reserved(witness);
        self.serials.push_reserved(0);
        self.ready.push_reserved(Some(ready));
        self.journal.add(Event::Admit { origin, cube });
        self.widest = self.widest.max(rows);
        Ok(number)
    }

    /// The spill with its witness.
    fn overflow(
        &mut self,
        origin: Origin,
        cube: Shared<Cube>,
        witness: Witness,
    ) -> Result<(), AllocError>
        requires allowed { Allowed self.old.system self.old.budget self.old.state (event.Spill origin cube) }
        requires new { IsNewWitness self.old.system cube (cubes_of self.old.state) witness }
        ensures ok { OnOk result (self.new ≡ with_spill self.old origin cube witness) }
        ensures err { OnErr result (self.new ≡ self.old) }
    {
        let (kept, found) = two_owners(&cube)?;
        let count = self.core.entries().len() as u32;
        self.journal.make_room(3 * count + 2)?;
        self.core.keep_spill(origin, kept);
        self.journal.add(Event::Spill { origin, cube });
        let found = Found {
            cube: found,
            origin,
            witness,
        };
        put_found(&mut self.spill, found);
        Ok(())
    }

    /// The cube becomes the hit with this witness, which is initial. `Stopped` where a hit stands, which stays; `Gone` where the
    /// ticket is not good; else `In` with the number of entries. Its cost is constant.
    pub fn hit(
        &mut self,
        site: &Site<'_>,
        cube: Shared<Cube>,
        witness: Witness,
    ) -> Result<Admitted, AllocError>
        requires comes { ComesFromSite self.old.system site.now cube }
        requires witness { IsInitialWitness self.old.system cube witness }
        ensures ok { IfOk result (IsHitting self.old self.new site.now cube witness) }
        ensures err { OnErr result (self.new ≡ self.old) }
    {
        self.known();
        if self.has_hit() {
            return Ok(Admitted::Stopped);
        }
        if let Some(number) = self.gone(site) {
            return Ok(Admitted::Gone { number });
        }
        let number = self.count();
        self.strike(site.origin(), cube, witness)?;
        Ok(Admitted::In { number })
    }

    /// The hit with its witness.
    fn strike(
        &mut self,
        origin: Origin,
        cube: Shared<Cube>,
        witness: Witness,
    ) -> Result<(), AllocError>
        requires allowed { Allowed self.old.system self.old.budget self.old.state (event.Hit origin cube) }
        requires initial { IsInitialWitness self.old.system cube witness }
        ensures ok { OnOk result (self.new ≡ with_hit self.old origin cube witness) }
        ensures err { OnErr result (self.new ≡ self.old) }
    {
        let (kept, found) = two_owners(&cube)?;
        let count = self.core.entries().len() as u32;
        self.journal.make_room(3 * count + 2)?;
        self.core.keep_hit(origin, kept);
        self.journal.add(Event::Hit { origin, cube });
        let found = Found {
            cube: found,
            origin,
            witness,
        };
        put_found(&mut self.hit, found);
        Ok(())
    }

    /// Whether every goal was submitted, no hit or spill stands and every kept entry is done. The first `Yes` records it;
    /// `Open` names the first kept entry that is not done, or the number of entries where there is none. It takes no memory.
    /// Its cost is that of the goals, at most 64, and constant in the entries, spread over the calls.
    pub fn quiet(&mut self) -> Quiet
        ensures { IsQuieting self.old self.new result }
    {
        let entry = self.first_unfinished();
        if !self.core.is_quiet() {
            return Quiet::Open { entry };
        }
        self.report();
        Quiet::Yes
    }

    /// The first kept entry that is not done, or the number of entries where there is none.
    fn first_unfinished(&mut self) -> u32
        ensures same { self.new ≡ self.old }
        ensures first { IsFirst sought.Unfinished self.old.state.entries result }
    {
        match self.core.first_unfinished() {
            Some(entry) => entry,
            None => self.core.entries().len() as u32,
        }
    }

    /// The store, which is quiet, was found so.
    fn report(&mut self)
        requires { IsQuiet self.old.state }
        ensures { IsAtRest self.old self.new }
    {
        if !self.core.is_reported() {
            self.core.report_idle();
            self.journal.add(Event::Idle);
        }
    }

    /// The cubes from this entry by its origins to its goal, each with the transition by which its states lead into the next.
    /// Each link costs a pointer.
    pub fn chain(&self, number: u32) -> Result<Vec<Link>, AllocError>
        requires { number < length self.now.state.entries }
        ensures origins { IfOk result (λ links. AreOrigins self.now.state number links.items) }
        ensures leads { IfOk result (λ links. (e : EntryParts) × IsEntry self.now.state number e × IsChain self.now.system e.cube links.items) }
    {
        self.known();
        let entries = self.core.entries();
        let mut links = Vec::new(self.alloc);
        let mut at = number as usize;
        loop {
            let entry = &entries[at];
            match entry.origin() {
                Origin::Step {
                    entry: next,
                    transition,
                } => {
                    links.push(link(entry, Some(transition))?)?;
                    at = next as usize;
                }
                Origin::Goal { .. } => {
                    links.push(link(entry, None)?)?;
                    return Ok(links);
                }
            }
        }
    }
}

/// An entry's cube with a transition.
fn link(entry: &Entry, transition: Option<u16>) -> Result<Link, AllocError>
    ensures { IfOk result (λ l. l ≡ record { cube = entry.now.cube; transition = transition }) }
{
    Ok(Link {
        cube: entry.cube().another()?,
        transition,
    })
}
