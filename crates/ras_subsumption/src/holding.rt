ghost use Rattle.std.specs.Prelude.{◌↔◌, ◌<◌, ◌^◌, IsTrue, All, IfOk};
ghost use Rattle.ras_logic.specs.declared.term.Term.{Term};
ghost use Rattle.ras_logic.specs.Formulas.{replace};
ghost use Rattle.ras_logic.specs.Refutations.{chosen_row};
ghost use Rattle.ras_closure.specs.Numbered.{IsAt};
ghost use Rattle.ras_closure.specs.Closures.{IsNo, AreOfOneSort};
ghost use Rattle.ras_closure.specs.Closings.{IsOfTable};
ghost use Rattle.ras_known.specs.Knowledge.{DifferWherever, IsKnown};
ghost use Rattle.ras_subsumption.specs.Subsumption.{HoldsWherever, AllHoldUnder};

use ras_closure::TermNo;
use ras_known::{Known, are_apart};
use ras_logic::{Cube, Literal};
use std::alloc::{AllocError, Global};

/// Whether two terms of the closure have different values wherever the premise holds. Where classes do not tell it, the terms
/// are supposed to be the same in a copy of the closure.
fn differ_wherever(
    alloc: Global,
    known: &Known<'_>,
    left: TermNo,
    right: TermNo,
) -> Result<bool, AllocError>
    requires known { IsKnown known.now }
    requires left { IsNo known.now.closure.now left }
    requires right { IsNo known.now.closure.now right }
    requires one_sort { AreOfOneSort known.now.closure.now left right }
    ensures { IfOk result (λ b. (s t : Term) → IsAt known.now.closure.now.table.terms left.n s → IsAt known.now.closure.now.table.terms right.n t
        → IsTrue b ↔ DifferWherever known.now.shape.now known.now.premise.now s t) }
{
    known.closure.known();
    let left_class = known.closure.class_of(left);
    let right_class = known.closure.class_of(right);
    if are_apart(known, left_class, right_class) {
        return Ok(true);
    }
    let mut supposed = known.closure.copy(alloc)?;
    Ok(supposed.add_same(left, right).is_err())
}

/// Whether a literal about terms of the closure holds wherever the premise does.
fn holds_wherever(alloc: Global, known: &Known<'_>, literal: &Literal) -> Result<bool, AllocError>
    requires known { IsKnown known.now }
    requires of_table { IsOfTable known.now.closure.now.table literal.now }
    ensures { IfOk result (λ b. IsTrue b ↔ HoldsWherever known.now.shape.now known.now.premise.now literal.now) }
{
    known.closure.known();
    let left = known.closure.term(literal.left()).unwrap();
    let right = known.closure.term(literal.right()).unwrap();
    if literal.says_same() {
        return Ok(known.closure.same(left, right));
    }
    differ_wherever(alloc, known, left, right)
}

/// Whether each literal of a cube under a row map holds wherever the premise does.
pub fn all_hold_under(
    alloc: Global,
    known: &Known<'_>,
    cube: &Cube,
    map: &[u32],
) -> Result<bool, AllocError>
    requires known { IsKnown known.now }
    requires small { All (λ k. k < 2 ^ 16) map.now }
    requires of_table { All (λ l. IsOfTable known.now.closure.now.table (replace (chosen_row map.now) l)) cube.now.literals }
    ensures { IfOk result (λ b. IsTrue b ↔ AllHoldUnder known.now.shape.now known.now.premise.now map.now cube.now.literals) }
{
    for literal in cube.literals() {
        let literal = literal.with_rows(alloc, map)?;
        if !holds_wherever(alloc, known, &literal)? {
            return Ok(false);
        }
    }
    Ok(true)
}
