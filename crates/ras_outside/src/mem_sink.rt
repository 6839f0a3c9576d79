ghost use Rattle.std.specs.Prelude.{◌≡◌, ◌≤◌, ◌<◌, ◌+◌, ℕ, List, [], Some, length, option_map, find, ◌==◌, IfOk, IfErr, OnOk, OnErr, IsTrue, false};
ghost use Rattle.ras_outside.specs.SinkFault.{taken_of};

use crate::sink::{Sink, SinkFault};
use std::alloc::{AllocError, Global};
use std::marker::Model;

/// Bytes in memory, for tests. It tells all.
#[derive(Drop)]
pub struct MemSink {
    bytes: Vec<u8>,
    room: usize,
    failing: Vec<(u64, u64)>,
    calls: u64,
    faults: u64,
}

impl Model for MemSink {
    ghost use Rattle.std.specs.Prelude.{◌+◌, ◌≤◌, vec_len, vec_capacity};
    ghost use Rattle.ras_outside.specs.MemSink.{SinkState};

    ghost Value = { SinkState };

    ghost view = { λ s. record {
      written = s.bytes.items;
      room = s.room;
      failing = s.failing.items;
      calls = s.calls;
      faults = s.faults;
    } };

    ghost invariant = { λ s. vec_len s.bytes + s.room ≤ vec_capacity s.bytes };
}

impl MemSink {
    /// A sink with room for `room` bytes, all of it made here. `failing` lists the puts that fail,
    /// counted from 1, each with the bytes that it takes; of two entries for one put the first counts.
    pub fn new(alloc: Global, room: usize, failing: Vec<(u64, u64)>) -> Result<MemSink, AllocError>
        ensures { IfOk result (λ sink. sink ≡ record {
          written = [];
          room = room;
          failing = failing.items;
          calls = 0;
          faults = 0;
        }) }
    {
        Ok(MemSink {
            bytes: Vec::with_capacity(alloc, room)?,
            room,
            failing,
            calls: 0,
            faults: 0,
        })
    }

    /// The bytes that were put so far.
    pub fn written(&self) -> &[u8]
        ensures { result.now ≡ self.now.written }
    {
        self.bytes.as_slice()
    }
}

impl Sink for MemSink {
    ghost use Rattle.ras_outside.specs.MemSink.{accepted_of, put_fails, after_put};

    ghost written = { λ s. Some s.written };

    ghost faults = { λ s. s.faults };

    fn put(&mut self, bytes: &[u8]) -> Result<(), SinkFault>
        ensures after { self.new ≡ after_put self.old bytes.now }
        ensures grows { self.old.faults ≤ self.new.faults }
        ensures ok { OnOk result (put_fails self.old (length bytes.now) ≡ false) }
        ensures failed { OnErr result (IsTrue (put_fails self.old (length bytes.now))) }
        ensures taken { IfErr result (λ fault. taken_of fault ≡ accepted_of self.old (length bytes.now)) }
    {
        self.calls = self.calls.saturating_add(1);
        let len = bytes.len();
        let listed = listed_taken(&self.failing, self.calls);
        let is_short = self.room < len;
        let taken = listed.unwrap_or(len as u64).min(len.min(self.room) as u64) as usize;
        self.bytes.extend_from_slice(&bytes[..taken]).unwrap();
        self.room -= taken;
        if listed.is_none() && !is_short {
            return Ok(());
        }
        self.faults = self.faults.saturating_add(1);
        Err(SinkFault::Failed {
            taken: taken as u64,
        })
    }
}

// The bytes that a call is listed to take, by the first entry for it.
fn listed_taken(failing: &[(u64, u64)], call: u64) -> Option<u64>
    ensures { result ≡ option_map (λ entry. entry.1) (find (λ entry. entry.0 == call) failing.now) }
{
    failing
        .iter()
        .find(|entry| entry.0 == call)
        .map(|entry| entry.1)
}
