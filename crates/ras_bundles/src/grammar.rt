ghost use Rattle.std.specs.Prelude.{List};
ghost use Rattle.ras_lines.specs.Lines.{lines_of};
ghost use Rattle.ras_lines.specs.Fronts.{Reads, times};
ghost use Rattle.ras_bundles.specs.SystemReading as first;

use crate::system_lines::{
    ConstantLine, FunctionLine, SystemLines, TransitionLines, UpdateLine, VariableLine,
};
use ras_lines::{Lines, Spelled, Stop, Words, counted};
use ras_logic::{Cube, List, Problem, Term};
use std::alloc::Global;

/// Whether a function is total.
fn totality(words: &mut Words<'_>) -> Result<bool, Stop>
    ensures { Reads first.totality words.old.rest.now words.new.rest.now result }
{
    if words.has(b"total") {
        return Ok(true);
    }
    if words.has(b"nullable") {
        return Ok(false);
    }
    Err(Stop::Misfit)
}

impl Spelled for FunctionLine {
    ghost first = { first.function };

    fn read(words: &mut Words<'_>, _alloc: Global) -> Result<FunctionLine, Stop> {
        words.fixed(b"function")?;
        let source = words.next_number()?;
        let target = words.next_number()?;
        words.fixed(b" ")?;
        let total = totality(words)?;
        Ok(FunctionLine {
            source,
            target,
            total,
        })
    }
}

/// The number of the initial constant, if there is one.
fn initial(words: &mut Words<'_>) -> Result<Option<u32>, Stop>
    ensures { Reads first.initial words.old.rest.now words.new.rest.now result }
{
    if words.has(b"none") {
        return Ok(None);
    }
    let n = words.number()?;
    Ok(Some(n))
}

impl Spelled for VariableLine {
    ghost first = { first.variable };

    fn read(words: &mut Words<'_>, _alloc: Global) -> Result<VariableLine, Stop> {
        words.fixed(b"variable")?;
        let sort = words.next_number()?;
        words.fixed(b" ")?;
        let initial = initial(words)?;
        Ok(VariableLine { sort, initial })
    }
}

impl Spelled for UpdateLine {
    ghost first = { first.update };

    fn read(words: &mut Words<'_>, alloc: Global) -> Result<UpdateLine, Stop> {
        words.fixed(b"update")?;
        let target = words.next_number()?;
        words.fixed(b" ")?;
        let term = Term::read(words, alloc)?;
        Ok(UpdateLine { target, term })
    }
}

impl Spelled for ConstantLine {
    ghost first = { first.constants };

    fn read(words: &mut Words<'_>, alloc: Global) -> Result<ConstantLine, Stop> {
        words.fixed(b"consts")?;
        let sorts: List<u32> = counted(words, alloc)?;
        Ok(ConstantLine { sorts })
    }
}

/// The guard and the updates of a transition.
fn transition(lines: &mut Lines<'_>, alloc: Global) -> Result<TransitionLines, Stop>
    ensures { Reads first.transition (lines_of lines.old.rest.now) (lines_of lines.new.rest.now) result }
{
    let guard: List<Problem> = lines.section(alloc, b"guard")?;
    let updates: List<UpdateLine> = lines.section(alloc, b"updates")?;
    Ok(TransitionLines { guard, updates })
}

/// As many transitions as are announced.
#[tactic(auto, using(ras_lines::proofs::Loops::times_laws))]
fn transitions(
    lines: &mut Lines<'_>,
    alloc: Global,
    count: u32,
) -> Result<List<TransitionLines>, Stop>
    ensures { Reads (times first.transition count) (lines_of lines.old.rest.now) (lines_of lines.new.rest.now) result }
{
    let mut items = List::new(alloc);
    for _ in 0..count {
        let item = transition(lines, alloc)?;
        items.push(item)?;
    }
    Ok(items)
}

/// From `bundle 1` to the goals.
pub fn system(lines: &mut Lines<'_>, alloc: Global) -> Result<SystemLines, Stop>
    ensures { Reads first.system (lines_of lines.old.rest.now) (lines_of lines.new.rest.now) result }
{
    lines.fixed(b"bundle 1")?;
    let sorts = lines.count(b"sorts")?;
    let functions: List<FunctionLine> = lines.section(alloc, b"functions")?;
    let constants: ConstantLine = lines.value(alloc)?;
    let variables: List<VariableLine> = lines.section(alloc, b"variables")?;
    let transition_count = lines.count(b"transitions")?;
    let transitions = transitions(lines, alloc, transition_count)?;
    let goals: List<Cube> = lines.section(alloc, b"unsafe")?;
    Ok(SystemLines {
        sorts,
        functions,
        constants,
        variables,
        transitions,
        goals,
    })
}
