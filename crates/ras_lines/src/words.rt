ghost use Rattle.std.specs.Prelude.{◌≡◌, ◌∷◌, [], MatchOption, IfSome, IfNone, Some, None};
ghost use Rattle.std.specs.Bool.{OnTrue, OnFalse};
ghost use Rattle.ras_lines.specs.Fronts.{Reads};
ghost use Rattle.ras_lines.specs.Numbers.{behind as bytes_behind, fixed, number, small_number, behind_blank};

use crate::digits::{digit_count, number_of};
use crate::stop::Stop;

/// The bytes of a line that are left to read.
#[derive(Drop)]
pub struct Words<'a> {
    pub rest: &'a [u8],
}

impl Words<'_> {
    /// Whether these bytes come next, which are then read.
    pub fn has(&mut self, expected: &[u8]) -> bool
        ensures yes { OnTrue result (bytes_behind expected.now self.old.rest.now ≡ Some self.new.rest.now) }
        ensures no { OnFalse result (bytes_behind expected.now self.old.rest.now ≡ None) }
        ensures same { OnFalse result (self.new.rest.now ≡ self.old.rest.now) }
    {
        match behind(self.rest, expected) {
            Some(rest) => {
                self.rest = rest;
                true
            }
            None => false,
        }
    }

    /// These bytes.
    pub fn fixed(&mut self, expected: &[u8]) -> Result<(), Stop>
        ensures { Reads (fixed expected.now) self.old.rest.now self.new.rest.now result }
    {
        if self.has(expected) {
            Ok(())
        } else {
            Err(Stop::Misfit)
        }
    }

    /// A number below 2^32.
    pub fn number(&mut self) -> Result<u32, Stop>
        ensures { Reads number self.old.rest.now self.new.rest.now result }
    {
        let (digits, rest) = self.rest.split_at(digit_count(self.rest));
        match number_of(digits) {
            Some(n) => {
                self.rest = rest;
                Ok(n)
            }
            None => Err(Stop::Misfit),
        }
    }

    /// A number below 65,536.
    pub fn small_number(&mut self) -> Result<u16, Stop>
        ensures { Reads small_number self.old.rest.now self.new.rest.now result }
    {
        let n = self.number()?;
        if n < 65_536 {
            Ok(n as u16)
        } else {
            Err(Stop::Misfit)
        }
    }

    /// A blank and a number below 2^32.
    pub fn next_number(&mut self) -> Result<u32, Stop>
        ensures { Reads (behind_blank number) self.old.rest.now self.new.rest.now result }
    {
        self.fixed(b" ")?;
        self.number()
    }
}

/// The bytes behind these bytes, where they come first.
#[tactic(auto, using(crate::proofs::Behind::behind_laws))]
fn behind<'a>(bytes: &'a [u8], expected: &[u8]) -> Option<&'a [u8]>
    ensures { MatchOption result (bytes_behind expected.now bytes.now ≡ None) (λ rest. bytes_behind expected.now bytes.now ≡ Some rest.now) }
{
    if bytes.len() < expected.len() {
        return None;
    }
    let (front, rest) = bytes.split_at(expected.len());
    if front == expected { Some(rest) } else { None }
}
