ghost use Rattle.std.specs.Prelude.{◌≡◌, ◌≤◌, ◌∷◌, [], MatchOption, List, length};
ghost use Rattle.ras_lines.specs.Lines.{lines_of};
ghost use Rattle.ras_lines.specs.Fronts.{Reads, times};
ghost use Rattle.ras_lines.specs.Numbers as first;
ghost use Rattle.ras_lines.specs.Sections.{at_line, count, numbers, section};

use crate::spelled::{Spelled, counted};
use crate::stop::Stop;
use crate::words::Words;
use ras_logic::{List, Seq};
use std::alloc::Global;

/// The lines that are left to read.
#[derive(Drop)]
pub struct Lines<'a> {
    pub rest: &'a [u8],
}

/// The first line without its end, and the bytes behind it.
fn first_line(bytes: &[u8]) -> Option<(&[u8], &[u8])>
    ensures { MatchOption result (lines_of bytes.now ≡ []) (λ x. lines_of bytes.now ≡ x.0.now ∷ lines_of x.1.now) }
{
    let mut length = 0;
    let mut rest = bytes;
    while let Some((byte, after)) = rest.split_first() {
        if *byte == b'\n' {
            let (line, _) = bytes.split_at(length);
            return Some((line, after));
        }
        length += 1;
        rest = after;
    }
    None
}

/// How many lines end in the bytes.
#[tactic(auto, using(crate::proofs::LineEnds::count_laws))]
pub fn line_count(bytes: &[u8]) -> usize
    ensures count { result ≡ length (lines_of bytes.now) }
    ensures within { result ≤ length bytes.now }
{
    let mut count = 0;
    let mut rest = bytes;
    while let Some((byte, after)) = rest.split_first() {
        if *byte == b'\n' {
            count += 1;
        }
        rest = after;
    }
    count
}

impl Lines<'_> {
    /// A line of these bytes.
    pub fn fixed(&mut self, expected: &[u8]) -> Result<(), Stop>
        ensures { Reads (at_line (first.fixed expected.now)) (lines_of self.old.rest.now) (lines_of self.new.rest.now) result }
    {
        let Some((line, rest)) = first_line(self.rest) else {
            return Err(Stop::Misfit);
        };
        let mut words = Words { rest: line };
        words.fixed(expected)?;
        if !words.rest.is_empty() {
            return Err(Stop::Misfit);
        }
        self.rest = rest;
        Ok(())
    }

    /// A line of a word and a count.
    pub fn count(&mut self, word: &[u8]) -> Result<u32, Stop>
        ensures { Reads (at_line (count word.now)) (lines_of self.old.rest.now) (lines_of self.new.rest.now) result }
    {
        let Some((line, rest)) = first_line(self.rest) else {
            return Err(Stop::Misfit);
        };
        let mut words = Words { rest: line };
        words.fixed(word)?;
        let n = words.next_number()?;
        if !words.rest.is_empty() {
            return Err(Stop::Misfit);
        }
        self.rest = rest;
        Ok(n)
    }

    /// A line of a word, a count and as many numbers.
    pub fn numbers(&mut self, alloc: Global, word: &[u8]) -> Result<List<u32>, Stop>
        ensures { Reads (at_line (numbers word.now)) (lines_of self.old.rest.now) (lines_of self.new.rest.now) result }
    {
        let Some((line, rest)) = first_line(self.rest) else {
            return Err(Stop::Misfit);
        };
        let mut words = Words { rest: line };
        words.fixed(word)?;
        let numbers = counted(&mut words, alloc)?;
        if !words.rest.is_empty() {
            return Err(Stop::Misfit);
        }
        self.rest = rest;
        Ok(numbers)
    }

    /// A line of a value.
    pub fn value<T: Spelled>(&mut self, alloc: Global) -> Result<T, Stop>
        ensures { Reads (at_line T.first) (lines_of self.old.rest.now) (lines_of self.new.rest.now) result }
    {
        let Some((line, rest)) = first_line(self.rest) else {
            return Err(Stop::Misfit);
        };
        let mut words = Words { rest: line };
        let value = T::read(&mut words, alloc)?;
        if !words.rest.is_empty() {
            return Err(Stop::Misfit);
        }
        self.rest = rest;
        Ok(value)
    }

    /// As many lines of values as are announced. What is only announced takes no room.
    #[tactic(auto, using(crate::proofs::Loops::times_laws))]
    fn values<T: Spelled, const ROOM: usize>(
        &mut self,
        alloc: Global,
        count: u32,
    ) -> Result<Seq<T, ROOM>, Stop>
        ensures { Reads (times (at_line T.first) count) (lines_of self.old.rest.now) (lines_of self.new.rest.now) result }
    {
        let mut items = Seq::new(alloc);
        for _ in 0..count {
            let item = self.value(alloc)?;
            items.push(item)?;
        }
        Ok(items)
    }

    /// A line with a count, and as many lines of values.
    pub fn section<T: Spelled, const ROOM: usize>(
        &mut self,
        alloc: Global,
        word: &[u8],
    ) -> Result<Seq<T, ROOM>, Stop>
        ensures { Reads (section word.now (at_line T.first)) (lines_of self.old.rest.now) (lines_of self.new.rest.now) result }
    {
        let count = self.count(word)?;
        self.values(alloc, count)
    }
}
