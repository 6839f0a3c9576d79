ghost use Rattle.std.specs.Prelude.{◌≡◌, ◌∷◌, ◌++◌, [], List, OnOk};
ghost use Rattle.ras_journals.specs.JournalTexts.{event_line};
ghost use Rattle.ras_writing.specs.EventPieces as piece;

use crate::formulas::put_cube;
use crate::put::{Written, put_counted};
use ras_core::{Event, Origin};
use ras_logic::{Cube, List};
use ras_text::{put, put_word};
use std::alloc::AllocError;

/// ` goal J` or ` step E T`.
fn put_origin(out: &mut Vec<u8>, origin: Origin) -> Result<(), AllocError>
    ensures { OnOk result (out.new.items ≡ out.old.items ++ piece.origin origin) }
{
    match origin {
        Origin::Goal { disjunct } => {
            put(out, b" goal")?;
            put_word(out, disjunct as u64)
        }
        Origin::Step { entry, transition } => {
            put(out, b" step")?;
            put_word(out, entry as u64)?;
            put_word(out, transition as u64)
        }
    }
}

/// A word, an origin and a cube.
fn put_sought(out: &mut Vec<u8>, word: &[u8], origin: Origin, cube: &Cube) -> Result<(), AllocError>
    ensures { OnOk result (out.new.items ≡ out.old.items ++ piece.sought word.now origin cube.now) }
{
    put(out, word)?;
    put_origin(out, origin)?;
    put(out, b" ")?;
    put_cube(out, cube)
}

fn put_skip(
    out: &mut Vec<u8>,
    origin: Origin,
    cube: &Cube,
    reasons: &List<u32>,
) -> Result<(), AllocError>
    ensures { OnOk result (out.new.items ≡ out.old.items ++ piece.skip origin cube.now reasons.now) }
{
    put_sought(out, b"skip", origin, cube)?;
    put(out, b" reasons")?;
    put_counted(out, reasons.as_slice())
}

fn put_drop(out: &mut Vec<u8>, entry: u32, by: u32) -> Result<(), AllocError>
    ensures { OnOk result (out.new.items ≡ out.old.items ++ piece.drop entry by) }
{
    put(out, b"drop")?;
    put_word(out, entry as u64)?;
    put_word(out, by as u64)
}

/// A word and the number of an entry.
fn put_worked(out: &mut Vec<u8>, word: &[u8], entry: u32) -> Result<(), AllocError>
    ensures { OnOk result (out.new.items ≡ out.old.items ++ piece.worked word.now entry) }
{
    put(out, word)?;
    put_word(out, entry as u64)
}

/// The words of an event, without the end of the line.
fn put_words(out: &mut Vec<u8>, event: &Event) -> Result<(), AllocError>
    ensures { OnOk result (out.new.items ≡ out.old.items ++ piece.words event.now) }
{
    match event {
        Event::Claim { entry } => put_worked(out, b"claim", *entry),
        Event::Admit { origin, cube } => put_sought(out, b"admit", *origin, cube.get()),
        Event::Skip {
            origin,
            cube,
            reasons,
        } => put_skip(out, *origin, cube.get(), reasons),
        Event::Drop { entry, by } => put_drop(out, *entry, *by),
        Event::Done { entry } => put_worked(out, b"done", *entry),
        Event::GiveBack { entry } => put_worked(out, b"back", *entry),
        Event::Hit { origin, cube } => put_sought(out, b"hit", *origin, cube.get()),
        Event::Spill { origin, cube } => put_sought(out, b"spill", *origin, cube.get()),
        Event::Idle => put(out, b"idle"),
    }
}

impl Written for Event {
    ghost text = { piece.event };

    fn write(&self, out: &mut Vec<u8>) -> Result<(), AllocError> {
        put_words(out, self)?;
        put(out, b"\n")
    }
}

/// Writes the line of an event behind what is written already, with its end.
#[tactic(auto, using(crate::proofs::EventLaws::event_same))]
pub fn write_event(out: &mut Vec<u8>, event: &Event) -> Result<(), AllocError>
    ensures { OnOk result (out.new.items ≡ out.old.items ++ (event_line event.now ++ 10 ∷ [])) }
{
    event.write(out)
}
