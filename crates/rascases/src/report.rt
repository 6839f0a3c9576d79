//! What is told of cases.
ghost use Rattle.std.specs.Prelude.{◌≡◌, ◌<◌};

use crate::case::End;
use ras_outside::{LoadFault, Sink, SinkFault};
use std::alloc::{AllocError, Global};

/// Why no more cases are carried out.
#[derive(Drop)]
pub enum Halt {
    /// This list could not be read.
    Unread { list: &'static str },
    /// The output could not be written.
    Unwritten,
    /// Memory is wanting.
    Memory,
}

impl From<AllocError> for Halt {
    fn from(_: AllocError) -> Halt {
        Halt::Memory
    }
}

impl From<SinkFault> for Halt {
    fn from(_: SinkFault) -> Halt {
        Halt::Unwritten
    }
}

impl Halt {
    /// What a fault of loading this list means.
    pub fn of_load(list: &'static str, fault: LoadFault) -> Halt {
        match fault {
            LoadFault::Memory(_) => Halt::Memory,
            LoadFault::Failed | LoadFault::TooLong => Halt::Unread { list },
        }
    }

    /// Writes why no more cases are carried out; where that cannot be written either, nothing is left to be done.
    pub fn put<K: Sink>(&self, out: &mut K) -> Result<(), SinkFault> {
        match self {
            Halt::Unread { list } => {
                out.put(list.as_bytes())?;
                out.put(b" could not be read\n")
            }
            Halt::Unwritten => out.put(b"the output could not be written\n"),
            Halt::Memory => out.put(b"memory is wanting\n"),
        }
    }
}

/// How many cases ended as wanted, and how many did not.
#[derive(Drop)]
pub struct Counts {
    pub passed: u32,
    pub failed: u32,
}

impl Counts {
    pub fn new() -> Counts {
        Counts {
            passed: 0,
            failed: 0,
        }
    }

    pub fn pass(&mut self)
        ensures { self.new.failed ≡ self.old.failed }
    {
        self.passed = self.passed.saturating_add(1);
    }

    pub fn fail(&mut self)
        ensures failed { 0 < self.new.failed }
        ensures passed { self.new.passed ≡ self.old.passed }
    {
        self.failed = self.failed.saturating_add(1);
    }

    /// Writes the last line.
    pub fn put<K: Sink>(&self, alloc: Global, out: &mut K) -> Result<(), Halt> {
        let passed = self.passed;
        let failed = self.failed;
        let line = format!(in alloc; "{passed} passed, {failed} failed\n")?;
        out.put(line.as_bytes())?;
        Ok(())
    }
}

/// Writes that a line of a list is none.
pub fn put_unread<K: Sink>(
    alloc: Global,
    list: &str,
    number: u32,
    out: &mut K,
) -> Result<(), Halt> {
    let line = format!(in alloc; "{list}:{number} is no line of a list of cases\n")?;
    out.put(line.as_bytes())?;
    Ok(())
}

/// Writes what was wanted of the case that ends in front of a line, and what came.
pub fn put_difference<K: Sink>(
    alloc: Global,
    list: &str,
    number: u32,
    wanted: &End,
    came: &End,
    out: &mut K,
) -> Result<(), Halt> {
    let place = format!(in alloc; "{list}:{number} is not as wanted\n")?;
    out.put(place.as_bytes())?;
    put_end(alloc, "wanted", wanted, out)?;
    put_end(alloc, "came", came, out)
}

fn put_end<K: Sink>(alloc: Global, word: &str, end: &End, out: &mut K) -> Result<(), Halt> {
    let status = end.status;
    let front = format!(in alloc; "{word} {status}\n")?;
    out.put(front.as_bytes())?;
    if let Some(output) = &end.output {
        out.put(output)?;
    }
    Ok(())
}
