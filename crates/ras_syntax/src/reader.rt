ghost use Rattle.std.specs.Prelude.{◌≡◌, ◌∷◌, [], MatchOption, false};
ghost use Rattle.ras_syntax.specs.Machine as m;
ghost use Rattle.ras_syntax.specs.Machine.{begins, begins_name, same};
ghost use Rattle.ras_syntax.specs.Places as places;
ghost use Rattle.ras_syntax.specs.Places.{words};
ghost use Rattle.ras_syntax.specs.Reading.{Moves, Took};

use crate::fault::ReadError;
use crate::tree::Name;
use ras_lexer::{Fixed, Token, Word};

/// The tokens that are left to read.
#[derive(Drop)]
pub(crate) struct Reader<'a> {
    pub rest: &'a [Token],
}

fn is(word: &Word, fixed: Fixed) -> bool
    ensures { result ≡ same fixed word.now }
{
    match word {
        Word::Name(_) => false,
        Word::Fixed(found) => *found as u8 == fixed as u8,
    }
}

impl<'a> Reader<'a> {
    /// Takes the token, where the tokens begin with it, and gives its place.
    pub fn eat(&mut self, fixed: Fixed) -> Option<u32>
        ensures { MatchOption result
            ((begins fixed (words self.old.rest.now) ≡ false) × (self.new.rest.now ≡ self.old.rest.now))
            (λ x. self.old.rest.now ≡ places.at x fixed ∷ self.new.rest.now) }
    {
        let (first, rest) = self.rest.split_first()?;
        if is(&first.word, fixed) {
            self.rest = rest;
            Some(first.at)
        } else {
            None
        }
    }

    /// Takes the token, with which the tokens have to begin.
    #[tactic(auto, using(crate::proofs::Skips::no_fixed))]
    pub fn expect(&mut self, fixed: Fixed) -> Result<u32, ReadError>
        ensures reads { Moves (m.fixed fixed ∷ []) self.old.rest.now self.new.rest.now (λ x. []) result }
        ensures took { Took self.old.rest.now self.new.rest.now (λ x. places.at x fixed ∷ []) result }
    {
        match self.eat(fixed) {
            Some(at) => Ok(at),
            None => Err(ReadError::Fault(self.rest.len())),
        }
    }

    /// Takes a name, where the tokens begin with one.
    pub fn eat_name(&mut self) -> Option<Name>
        ensures { MatchOption result
            ((begins_name (words self.old.rest.now) ≡ false) × (self.new.rest.now ≡ self.old.rest.now))
            (λ x. self.old.rest.now ≡ places.of_name x ∷ self.new.rest.now) }
    {
        let (first, rest) = self.rest.split_first()?;
        match &first.word {
            Word::Name(text) => {
                self.rest = rest;
                Some(Name {
                    at: first.at,
                    text: *text,
                })
            }
            Word::Fixed(_) => None,
        }
    }

    /// Takes a name, with which the tokens have to begin.
    #[tactic(auto, using(crate::proofs::Skips::no_name))]
    pub fn name(&mut self) -> Result<Name, ReadError>
        ensures reads { Moves (m.name ∷ []) self.old.rest.now self.new.rest.now (λ x. []) result }
        ensures took { Took self.old.rest.now self.new.rest.now (λ x. places.of_name x ∷ []) result }
    {
        match self.eat_name() {
            Some(name) => Ok(name),
            None => Err(ReadError::Fault(self.rest.len())),
        }
    }
}
