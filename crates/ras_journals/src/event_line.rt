ghost use Rattle.ras_lines.specs.Fronts.{Reads};
ghost use Rattle.ras_journals.specs.JournalReading as first;

use crate::origins::origin;
use ras_core::{Event, Origin};
use ras_lines::{Spelled, Stop, Words, counted};
use ras_logic::{Cube, List, Shared};
use std::alloc::Global;

/// The line of an event.
#[derive(Drop)]
pub struct EventLine {
    pub event: Event,
}

/// A cube, and why it is looked at.
#[derive(Drop)]
struct Sought {
    origin: Origin,
    cube: Shared<Cube>,
}

/// `ORIGIN CUBE`.
fn origin_and_cube(words: &mut Words<'_>, alloc: Global) -> Result<Sought, Stop>
    ensures { Reads first.sought words.old.rest.now words.new.rest.now result }
{
    let origin = origin(words)?;
    words.fixed(b" ")?;
    let cube = Shared::<Cube>::read(words, alloc)?;
    Ok(Sought { origin, cube })
}

/// ` reasons K k1 .. kK`.
fn reasons(words: &mut Words<'_>, alloc: Global) -> Result<List<u32>, Stop>
    ensures { Reads first.reasons words.old.rest.now words.new.rest.now result }
{
    words.fixed(b" reasons")?;
    counted(words, alloc)
}

/// An event of work on an entry.
fn worked(words: &mut Words<'_>) -> Result<Event, Stop>
    ensures { Reads first.worked words.old.rest.now words.new.rest.now result }
{
    if words.has(b"claim ") {
        let entry = words.number()?;
        return Ok(Event::Claim { entry });
    }
    if words.has(b"done ") {
        let entry = words.number()?;
        return Ok(Event::Done { entry });
    }
    if words.has(b"back ") {
        let entry = words.number()?;
        return Ok(Event::GiveBack { entry });
    }
    if words.has(b"drop ") {
        let entry = words.number()?;
        let by = words.next_number()?;
        return Ok(Event::Drop { entry, by });
    }
    if words.has(b"idle") {
        return Ok(Event::Idle);
    }
    Err(Stop::Misfit)
}

fn event(words: &mut Words<'_>, alloc: Global) -> Result<Event, Stop>
    ensures { Reads first.event words.old.rest.now words.new.rest.now result }
{
    if words.has(b"admit ") {
        let Sought { origin, cube } = origin_and_cube(words, alloc)?;
        return Ok(Event::Admit { origin, cube });
    }
    if words.has(b"skip ") {
        let Sought { origin, cube } = origin_and_cube(words, alloc)?;
        let reasons = reasons(words, alloc)?;
        return Ok(Event::Skip {
            origin,
            cube,
            reasons,
        });
    }
    if words.has(b"hit ") {
        let Sought { origin, cube } = origin_and_cube(words, alloc)?;
        return Ok(Event::Hit { origin, cube });
    }
    if words.has(b"spill ") {
        let Sought { origin, cube } = origin_and_cube(words, alloc)?;
        return Ok(Event::Spill { origin, cube });
    }
    worked(words)
}

impl Spelled for EventLine {
    ghost first = { first.event_line };

    fn read(words: &mut Words<'_>, alloc: Global) -> Result<EventLine, Stop> {
        let event = event(words, alloc)?;
        Ok(EventLine { event })
    }
}
