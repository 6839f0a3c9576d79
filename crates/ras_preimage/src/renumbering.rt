//! The updated row of a bulk case, under its number in the problem: a case names it by the number of row parameters.
ghost use Rattle.std.specs.Prelude.{◌≡◌, IfOk};
ghost use Rattle.ras_logic.specs.Terms.{base_term, replace_term};
ghost use Rattle.ras_logic.specs.Formulas.{negated, replace};
ghost use Rattle.ras_system.specs.Preimages.{renumbered_row};

use ras_logic::{Base, Literal, Plain, Term};
use std::alloc::{AllocError, Global};

pub fn renumbered_base(updated: u16, number: u16, base: Base) -> Base
    ensures { base_term result ≡ renumbered_row updated number base }
{
    match base {
        Base::Cell { row, column } => Base::Cell {
            row: if row == updated { number } else { row },
            column,
        },
        _ => base,
    }
}

fn renumbered_term(
    alloc: Global,
    updated: u16,
    number: u16,
    term: &Term,
) -> Result<Term, AllocError>
    ensures { IfOk result (λ t. t ≡ replace_term (renumbered_row updated number) term.now) }
{
    Ok(Term {
        base: renumbered_base(updated, number, term.base),
        path: term.path.copy(alloc)?,
    })
}

/// A literal of a case, as the problem has it.
pub fn renumbered(
    alloc: Global,
    updated: u16,
    number: u16,
    literal: &Literal,
) -> Result<Literal, AllocError>
    ensures { IfOk result (λ l. l ≡ replace (renumbered_row updated number) literal.now) }
{
    Ok(Literal::Equal {
        left: renumbered_term(alloc, updated, number, literal.left())?,
        right: renumbered_term(alloc, updated, number, literal.right())?,
        same: literal.says_same(),
    })
}

/// Its negation, as the problem has it.
pub fn refused(
    alloc: Global,
    updated: u16,
    number: u16,
    literal: &Literal,
) -> Result<Literal, AllocError>
    ensures { IfOk result (λ l. l ≡ negated (replace (renumbered_row updated number) literal.now)) }
{
    Ok(renumbered(alloc, updated, number, literal)?.opposite())
}
