ghost use Rattle.std.specs.Prelude.{◌≡◌, ◌≤◌, ◌<◌, length};
ghost use Rattle.std.specs.Option.{SomeIff};

use std::marker::Model;

/// The most bytes that a name has.
pub const LONGEST: usize = 64;

/// A name of 1 to 64 bytes, which takes no memory.
#[derive(Clone, Copy, Debug, PartialEq, Eq, Hash)]
pub struct Text {
    bytes: [u8; LONGEST],
    length: u8,
}

impl Model for Text {
    ghost use Rattle.std.specs.Prelude.{ℕ, List};

    ghost Value = { List ℕ };

    ghost use Rattle.ras_lexer.specs.Texts.{name_of, IsPadded, padded, padded_back};

    ghost view = { name_of };

    ghost invariant = { IsPadded };

    ghost inverse = { padded };

    ghost inverse_ok = { padded_back };
}

impl Text {
    /// The name of these bytes; none where they are not 1 to 64.
    pub fn new(bytes: &[u8]) -> Option<Text>
        ensures { SomeIff result ((0 < length bytes.now) × (length bytes.now ≤ 64)) bytes.now }
    {
        if bytes.is_empty() || bytes.len() > LONGEST {
            return None;
        }
        let mut padded = [0; LONGEST];
        padded[..bytes.len()].copy_from_slice(bytes);
        Some(Text {
            bytes: padded,
            length: bytes.len() as u8,
        })
    }

    /// The bytes of the name.
    pub fn bytes(&self) -> &[u8]
        ensures { result.now ≡ self.now }
    {
        &self.bytes[..self.length as usize]
    }
}
