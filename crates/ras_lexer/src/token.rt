ghost use Rattle.std.specs.Prelude.{◌≡◌};
ghost use Rattle.ras_lexer.specs.Words.{spelling};

use crate::fixed::Fixed;
use crate::text::Text;

/// A name, or a reserved word or sign.
#[derive(Clone, Copy, Debug, PartialEq, Eq)]
pub enum Word {
    Name(Text),
    Fixed(Fixed),
}

/// A word at its place, the number of the bytes before it.
#[derive(Clone, Copy, Debug, PartialEq, Eq)]
pub struct Token {
    pub at: u32,
    pub word: Word,
}

impl Word {
    /// The bytes by which it is written.
    pub fn bytes(&self) -> &[u8]
        ensures { result.now ≡ spelling self.now }
    {
        match self {
            Word::Name(text) => text.bytes(),
            Word::Fixed(fixed) => fixed.bytes(),
        }
    }
}
