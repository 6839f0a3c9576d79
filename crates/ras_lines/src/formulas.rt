ghost use Rattle.std.specs.Prelude.{List};
ghost use Rattle.ras_lines.specs.Fronts.{Reads};
ghost use Rattle.ras_lines.specs.Formulas as first;

use crate::spelled::Spelled;
use crate::stop::Stop;
use crate::words::Words;
use ras_logic::{Base, ConstId, FunId, List, Literal, RelId, SortId, Term, VarId};
use std::alloc::Global;

impl Spelled for RelId {
    ghost first = { first.relation };

    fn read(words: &mut Words<'_>, _alloc: Global) -> Result<RelId, Stop> {
        let n = words.small_number()?;
        Ok(RelId { n })
    }
}

/// A cell of a named row, behind its `r`.
fn cell(words: &mut Words<'_>) -> Result<Base, Stop>
    ensures { Reads first.cell words.old.rest.now words.new.rest.now result }
{
    let row = words.small_number()?;
    words.fixed(b".")?;
    let column = words.small_number()?;
    Ok(Base::Cell { row, column })
}

fn base(words: &mut Words<'_>) -> Result<Base, Stop>
    ensures { Reads first.base words.old.rest.now words.new.rest.now result }
{
    if words.has(b"v") {
        let n = words.small_number()?;
        return Ok(Base::Var(VarId { n }));
    }
    if words.has(b"c") {
        let n = words.small_number()?;
        return Ok(Base::Constant(ConstId { n }));
    }
    if words.has(b"u") {
        let n = words.small_number()?;
        return Ok(Base::Undef(SortId { n }));
    }
    if words.has(b"r") {
        return cell(words);
    }
    Err(Stop::Misfit)
}

/// Functions, each behind a `/`, as long as there are some.
#[tactic(auto, using(crate::proofs::FormulaLaws::path_laws))]
fn path(words: &mut Words<'_>, alloc: Global) -> Result<List<FunId>, Stop>
    ensures { Reads first.path words.old.rest.now words.new.rest.now result }
{
    let mut path = List::new(alloc);
    while words.has(b"/") {
        let n = words.small_number()?;
        path.push(FunId { n })?;
    }
    Ok(path)
}

impl Spelled for Term {
    ghost first = { first.term };

    fn read(words: &mut Words<'_>, alloc: Global) -> Result<Term, Stop> {
        let base = base(words)?;
        let path = path(words, alloc)?;
        Ok(Term { base, path })
    }
}

/// Whether the sign between two terms is `=`, or else `!=`.
fn sign(words: &mut Words<'_>) -> Result<bool, Stop>
    ensures { Reads first.sign words.old.rest.now words.new.rest.now result }
{
    if words.has(b"=") {
        return Ok(true);
    }
    if words.has(b"!=") {
        return Ok(false);
    }
    Err(Stop::Misfit)
}

impl Spelled for Literal {
    ghost first = { first.literal };

    fn read(words: &mut Words<'_>, alloc: Global) -> Result<Literal, Stop> {
        let left = Term::read(words, alloc)?;
        let same = sign(words)?;
        let right = Term::read(words, alloc)?;
        Ok(Literal::Equal { left, right, same })
    }
}
