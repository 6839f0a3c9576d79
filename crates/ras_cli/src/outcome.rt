ghost use Rattle.std.specs.Prelude.{◌≡◌, ◌++◌, IfOk};
ghost use Rattle.ras_cli.specs.Answers.{status_of, text_of, bundle_word as the_bundle_word, fault_word as the_fault_word, reason_word, numbered};
ghost use Rattle.ras_text.specs.Pieces.{line};

use ras_bundles::BundleKind;
use ras_check::{Invalid, invalid_line};
use ras_evidence::EvidenceKind;
use ras_file::{FileFault, refusal_line};
use ras_text::{put, put_line, put_number};
use std::alloc::{AllocError, Global};

/// Why an evidence is not judged.
#[derive(Clone, Copy, Debug, PartialEq, Eq)]
pub enum Reason {
    /// The bytes are no text of an evidence, with their first fault.
    Fault(EvidenceKind),
    /// It is not one of a violation, so there is no run to write out.
    NoRun,
}

impl Reason {
    fn word(self) -> &'static [u8]
        ensures { result.now ≡ reason_word self }
    {
        match self {
            Reason::Fault(kind) => fault_word(kind),
            Reason::NoRun => b"NO_RUN",
        }
    }
}

/// What came of the words.
#[derive(Debug, Drop)]
pub enum Outcome<'a> {
    /// What they ask for was done, with this text.
    Done(Vec<u8>),
    /// The specification denotes no system, with its first fault.
    NoSystem(FileFault),
    /// The system part of the bundle denotes no system, with the line of its first fault.
    NoBundle { line: u64, kind: BundleKind },
    /// There is no evidence to judge, or no run to write out: the line of its first fault, or its first line.
    NoEvidence { line: u64, reason: Reason },
    /// The evidence is not good, with its first fault.
    Invalid(Invalid),
    /// The file is longer than its limit.
    TooLong { name: &'a str },
    /// The file could not be read.
    NotRead { name: &'a str },
    /// The words are of the form of no command.
    NoCommand,
}

/// What is written where the words are of the form of no command.
const USAGE: &[u8] =
    b"REFUSED words\nusage:\n  rasprove check FILE EVIDENCE\n  rasprove check BUNDLE\n  rasprove replay FILE EVIDENCE\n  rasprove print FILE\n";

fn fault_word(kind: EvidenceKind) -> &'static [u8]
    ensures { result.now ≡ the_fault_word kind }
{
    match kind {
        EvidenceKind::Version => b"VERSION",
        EvidenceKind::Text => b"TEXT",
        EvidenceKind::Ended => b"ENDED",
    }
}

fn bundle_word(kind: BundleKind) -> &'static [u8]
    ensures { result.now ≡ the_bundle_word kind }
{
    match kind {
        BundleKind::Text => b"TEXT",
        BundleKind::Limit => b"LIMIT",
        BundleKind::Range => b"RANGE",
        BundleKind::Sort => b"SORT",
        BundleKind::Cycle => b"CYCLE",
        BundleKind::Target => b"TARGET",
        BundleKind::Disjunct => b"DISJUNCT",
    }
}

/// The same text.
fn copied(alloc: Global, words: &[u8]) -> Result<Vec<u8>, AllocError>
    ensures { IfOk result (λ text. text.items ≡ words.now) }
{
    Vec::from_slice(alloc, words)
}

/// A line of some words and a name.
fn line_with(alloc: Global, words: &[u8], name: &str) -> Result<Vec<u8>, AllocError>
    ensures { IfOk result (λ text. text.items ≡ words.now ++ line name.now) }
{
    let mut text = copied(alloc, words)?;
    put_line(&mut text, name.as_bytes())?;
    Ok(text)
}

/// A line of some words, the number of another line, and a word.
fn numbered_line(
    alloc: Global,
    words: &[u8],
    number: u64,
    word: &[u8],
) -> Result<Vec<u8>, AllocError>
    ensures { IfOk result (λ text. text.items ≡ numbered words.now number word.now) }
{
    let mut text = copied(alloc, words)?;
    put_number(&mut text, number)?;
    put(&mut text, b" ")?;
    put_line(&mut text, word)?;
    Ok(text)
}

impl<'a> Outcome<'a> {
    /// The status with which the program ends.
    pub fn status(&self) -> u8
        ensures { result ≡ status_of self.now }
    {
        match self {
            Outcome::Done(_) => 0,
            Outcome::NoSystem(_) => 30,
            Outcome::NoBundle { .. } => 30,
            Outcome::NoEvidence { .. } => 31,
            Outcome::Invalid(_) => 31,
            Outcome::TooLong { .. } => 32,
            Outcome::NoCommand => 40,
            Outcome::NotRead { .. } => 50,
        }
    }

    /// The text that is written.
    pub fn text(&self, alloc: Global) -> Result<Vec<u8>, AllocError>
        ensures { IfOk result (λ text. text.items ≡ text_of self.now) }
    {
        match self {
            Outcome::Done(text) => copied(alloc, text),
            Outcome::NoSystem(fault) => refusal_line(alloc, fault),
            Outcome::NoBundle { line, kind } => {
                numbered_line(alloc, b"REFUSED bundle LINE ", *line, bundle_word(*kind))
            }
            Outcome::NoEvidence { line, reason } => {
                numbered_line(alloc, b"REFUSED evidence LINE ", *line, reason.word())
            }
            Outcome::Invalid(invalid) => invalid_line(alloc, invalid),
            Outcome::TooLong { name } => line_with(alloc, b"REFUSED long ", name),
            Outcome::NotRead { name } => line_with(alloc, b"REFUSED read ", name),
            Outcome::NoCommand => copied(alloc, USAGE),
        }
    }
}
