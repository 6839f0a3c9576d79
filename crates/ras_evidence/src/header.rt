ghost use Rattle.std.specs.Prelude.{List};
ghost use Rattle.ras_evidence.specs.Headers as first;

use ras_lines::{Spelled, Stop, Words};
use std::alloc::Global;

/// What an evidence says of its system.
#[derive(Clone, Copy, Debug, PartialEq, Eq)]
pub enum Verdict {
    Safe,
    Unsafe,
    Unknown,
}

/// The first line of an evidence.
#[derive(Clone, Copy, Debug, PartialEq, Eq)]
pub struct Header {
    pub version: u32,
    pub verdict: Verdict,
}

impl Spelled for Verdict {
    ghost first = { first.verdict };

    fn read(words: &mut Words<'_>, _alloc: Global) -> Result<Verdict, Stop> {
        if words.has(b"safe") {
            return Ok(Verdict::Safe);
        }
        if words.has(b"unsafe") {
            return Ok(Verdict::Unsafe);
        }
        if words.has(b"unknown") {
            return Ok(Verdict::Unknown);
        }
        Err(Stop::Misfit)
    }
}

impl Spelled for Header {
    ghost first = { first.header };

    fn read(words: &mut Words<'_>, alloc: Global) -> Result<Header, Stop> {
        words.fixed(b"evidence")?;
        let version = words.next_number()?;
        words.fixed(b" ")?;
        let verdict = Verdict::read(words, alloc)?;
        Ok(Header { version, verdict })
    }
}
