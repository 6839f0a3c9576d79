ghost use Rattle.std.specs.Prelude.{◌≡◌, ◌++◌, ◌∷◌, [], List, OnOk};
ghost use Rattle.ras_logic.specs.declared.literal.Literal.{Literal};
ghost use Rattle.ras_sat.specs.Facts.{AddsLast, DropsLast};

use ras_logic::{List, Literal, Plain, Problem};
use std::alloc::{AllocError, Global};
use std::mem;

/// One fact more, at the end.
pub fn add_fact(alloc: Global, facts: &mut Problem, fact: &Literal) -> Result<(), AllocError>
    ensures { OnOk result (AddsLast facts.old facts.new fact.now) }
{
    facts.literals.push(fact.copy(alloc)?)?;
    Ok(())
}

/// The last fact is taken away.
pub fn drop_fact(alloc: Global, facts: &mut Problem)
    ensures { DropsLast facts.old facts.new }
{
    let mut literals = mem::replace(&mut facts.literals, List::new(alloc)).into_vec();
    let _last = literals.pop();
    facts.literals = List::from_vec(literals);
}
