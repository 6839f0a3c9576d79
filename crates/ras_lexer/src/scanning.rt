ghost use Rattle.std.specs.Prelude.{◌≡◌, ◌<◌, ◌≤◌, length};
ghost use Rattle.std.specs.List.{prefix_len};
ghost use Rattle.ras_lexer.specs.Words.{begins_name, is_in_name};
ghost use Rattle.ras_lexer.specs.Pieces.{is_blank, is_in_comment};
ghost use Rattle.ras_lexer.specs.Fronts.{SignOf, WordOf, CommentOf, ScanOf, front_length};

use crate::fault::LexKind;
use crate::fixed::Fixed;
use crate::text::Text;
use crate::token::Word;

/// What stands at the front of bytes.
#[derive(Clone, Copy)]
pub(crate) enum Front {
    /// A blank or a comment, of so many bytes.
    Space(usize),
    Word(Word),
}

/// What is wrong at the front of bytes, and how many of them come before its place.
#[derive(Clone, Copy)]
pub(crate) struct Wrong {
    pub kind: LexKind,
    pub before: usize,
}

impl Front {
    /// How many bytes it has.
    pub fn length(&self) -> usize
        ensures { result ≡ front_length self.now }
    {
        match self {
            Front::Space(length) => *length,
            Front::Word(word) => word.bytes().len(),
        }
    }
}

fn begins_name(byte: u8) -> bool
    ensures { result ≡ begins_name byte }
{
    byte.is_ascii_alphabetic() || byte == b'_'
}

fn is_in_name(byte: u8) -> bool
    ensures { result ≡ is_in_name byte }
{
    byte.is_ascii_alphanumeric() || byte == b'_'
}

fn is_blank(byte: u8) -> bool
    ensures { result ≡ is_blank byte }
{
    (byte == b' ' || byte == b'\t') || (byte == b'\r' || byte == b'\n')
}

/// How many bytes of a name, or of a reserved word, the bytes begin with.
#[tactic(auto, using(crate::proofs::Fronts::run_lengths))]
fn name_length(bytes: &[u8]) -> usize
    ensures value { result ≡ prefix_len is_in_name bytes.now }
    ensures within { result ≤ length bytes.now }
{
    bytes.iter().take_while(|byte| is_in_name(**byte)).count()
}

/// How many bytes come before the end of a comment.
#[tactic(auto, using(crate::proofs::Fronts::run_lengths))]
fn comment_length(bytes: &[u8]) -> usize
    ensures value { result ≡ prefix_len is_in_comment bytes.now }
    ensures within { result ≤ length bytes.now }
{
    bytes.iter().take_while(|byte| **byte != b'\n').count()
}

/// The longest sign at the front.
fn sign(bytes: &[u8]) -> Option<Fixed>
    requires some { 0 < length bytes.now }
    requires no_name { prefix_len is_in_name bytes.now ≡ 0 }
    ensures { SignOf bytes.now result }
{
    if bytes.len() == 1 {
        return Fixed::of(bytes);
    }
    match Fixed::of(&bytes[..2]) {
        Some(sign) => Some(sign),
        None => Fixed::of(&bytes[..1]),
    }
}

/// The longest word at the front, or what is wrong there.
fn word(bytes: &[u8]) -> Result<Word, LexKind>
    requires { 0 < length bytes.now }
    ensures { WordOf bytes.now result }
{
    let length = name_length(bytes);
    if length == 0 {
        return match sign(bytes) {
            Some(sign) => Ok(Word::Fixed(sign)),
            None => Err(LexKind::BadByte),
        };
    }
    if !begins_name(bytes[0]) {
        return Err(LexKind::BadByte);
    }
    let name = &bytes[..length];
    match Fixed::of(name) {
        Some(reserved) => Ok(Word::Fixed(reserved)),
        None => match Text::new(name) {
            Some(text) => Ok(Word::Name(text)),
            None => Err(LexKind::LongName),
        },
    }
}

/// The length of the comment that begins before the bytes, or of its front that is UTF-8.
fn comment(bytes: &[u8]) -> Result<usize, usize>
    ensures { CommentOf bytes.now result }
{
    let length = comment_length(bytes);
    match str::from_utf8(&bytes[..length]) {
        Ok(_) => Ok(length),
        Err(error) => Err(error.valid_up_to()),
    }
}

/// What stands at the front, or what is wrong there.
pub(crate) fn scan(bytes: &[u8]) -> Result<Front, Wrong>
    requires { 0 < length bytes.now }
    ensures { ScanOf bytes.now result }
{
    let Some((first, behind)) = bytes.split_first() else {
        unreachable!()
    };
    if is_blank(*first) {
        return Ok(Front::Space(1));
    }
    if *first == b'#' {
        return match comment(behind) {
            Ok(length) => Ok(Front::Space(length + 1)),
            Err(valid) => Err(Wrong {
                kind: LexKind::BadUtf8,
                before: valid + 1,
            }),
        };
    }
    match word(bytes) {
        Ok(word) => Ok(Front::Word(word)),
        Err(kind) => Err(Wrong { kind, before: 0 }),
    }
}
