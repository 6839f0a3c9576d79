ghost use Rattle.std.specs.Prelude.{◌≡◌, ◌+◌, ◌<◌, ◌≤◌, [], ◌∷◌, ◌++◌, OnOk};

use crate::event::Event;
use std::alloc::{AllocError, Global};
use std::marker::Model;

/// The events of a search in order, and room for some that are yet to come: these are added without taking memory.
#[derive(Drop)]
pub struct Journal {
    events: Vec<Event>,
    room: u32,
}

impl Model for Journal {
    ghost use Rattle.std.specs.Prelude.{◌+◌, ◌≤◌, vec_len, vec_capacity};
    ghost use Rattle.ras_core.specs.Journals.{JournalParts};

    ghost Value = { JournalParts };

    ghost view = { λ j. record { events = j.events.items; room = j.room } };

    ghost invariant = { λ j. (vec_len j.events + j.room ≤ vec_capacity j.events) × (vec_len j.events + j.room ≤ 4294967295) };
}

impl Journal {
    /// No events. It takes no memory.
    pub fn new(alloc: Global) -> Journal
        ensures { result ≡ record { events = []; room = 0 } }
    {
        Journal {
            events: Vec::new(alloc),
            room: 0,
        }
    }

    /// The events in order.
    pub fn events(&self) -> &[Event]
        ensures { result.now ≡ self.now.events }
    {
        self.events.as_slice()
    }

    /// Room for so many events. A `u32` counts the events, with those for which there is room: more are refused as want of
    /// memory.
    pub fn make_room(&mut self, count: u32) -> Result<(), AllocError>
        ensures events { self.new.events ≡ self.old.events }
        ensures ok { OnOk result (count ≤ self.new.room) }
        ensures more { self.old.room ≤ self.new.room }
    {
        if count <= self.room {
            return Ok(());
        }
        if self.events.len() > (u32::MAX - count) as usize {
            return Err(AllocError);
        }
        self.events.reserve(count as usize)?;
        self.room = count;
        Ok(())
    }

    /// One event more, for which there is room. It takes no memory.
    pub fn add(&mut self, event: Event)
        requires { 0 < self.old.room }
        ensures events { self.new.events ≡ self.old.events ++ event ∷ [] }
        ensures room { self.new.room + 1 ≡ self.old.room }
    {
        self.events.push_reserved(event);
        self.room -= 1;
    }
}
