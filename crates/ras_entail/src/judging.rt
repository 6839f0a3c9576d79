ghost use Rattle.std.specs.Prelude.{◌↔◌, [], false, IsTrue, IfOk, IfSome};
ghost use Rattle.std.specs.Bool.{OnTrue};
ghost use Rattle.ras_logic.specs.Formulas.{LiteralFits, Fits, replace};
ghost use Rattle.ras_logic.specs.Refutations.{AreRowsOf, chosen_row};
ghost use Rattle.ras_known.specs.Knowledge.{IsTruth, IsKnown};
ghost use Rattle.ras_entail.specs.Judgements.{IsNoCell, NamesNoRow, HasFailing, StandsAs};

use ras_known::{Known, truth_of};
use ras_logic::{Base, Cube, Literal};
use std::alloc::{AllocError, Global};

/// What is known of a cube under chosen rows of a premise.
#[derive(Clone, Copy, Debug)]
pub enum Standing {
    /// Some literal fails wherever the premise holds.
    Fails,
    /// Each literal holds wherever the premise does.
    Holds,
    Open,
}

/// Whether a base is no cell of a named row.
fn is_no_cell(base: Base) -> bool
    ensures { IsTrue result ↔ IsNoCell base }
{
    match base {
        Base::Cell { .. } => false,
        _ => true,
    }
}

/// Whether a literal names no row.
fn names_no_row(literal: &Literal) -> bool
    ensures { IsTrue result ↔ NamesNoRow literal.now }
{
    is_no_cell(literal.left().base) && is_no_cell(literal.right().base)
}

/// Whether a literal of a cube is known to fail, whichever rows are chosen. It takes no memory.
fn fails_alone(known: &Known<'_>, cube: &Cube, literal: &Literal) -> bool
    requires known { IsKnown known.now }
    requires fits { LiteralFits known.now.shape.now cube.now.rows [] literal.now }
    ensures no_row { OnTrue result (NamesNoRow literal.now) }
    ensures fails { OnTrue result (IsTruth known.now.shape.now known.now.premise.now literal.now false) }
{
    names_no_row(literal) && truth_of(known, literal) == Some(false)
}

/// Whether some literal of a cube is known to fail, whichever rows are chosen. It takes no memory.
pub fn has_failing(known: &Known<'_>, cube: &Cube) -> bool
    requires known { IsKnown known.now }
    requires fits { Fits known.now.shape.now cube.now }
    ensures { OnTrue result (HasFailing known.now.shape.now known.now.premise.now cube.now) }
{
    cube.known();
    for literal in cube.literals() {
        if fails_alone(known, cube, literal) {
            return true;
        }
    }
    false
}

/// Whether a literal of a cube holds of the chosen rows wherever the premise does, where that is known.
fn truth_under(
    alloc: Global,
    known: &Known<'_>,
    cube: &Cube,
    rows: &[u32],
    literal: &Literal,
) -> Result<Option<bool>, AllocError>
    requires known { IsKnown known.now }
    requires fits { LiteralFits known.now.shape.now cube.now.rows [] literal.now }
    requires rows { AreRowsOf known.now.premise.now.rows cube.now.rows rows.now }
    ensures { IfOk result (λ o. IfSome o (IsTruth known.now.shape.now known.now.premise.now (replace (chosen_row rows.now) literal.now))) }
{
    // its contract says how many rows there are at most
    let _rows = known.premise.rows.len();
    let literal = literal.with_rows(alloc, rows)?;
    Ok(truth_of(known, &literal))
}

/// What is known of a cube under chosen rows of the premise.
pub fn judge(
    alloc: Global,
    known: &Known<'_>,
    cube: &Cube,
    rows: &[u32],
) -> Result<Standing, AllocError>
    requires known { IsKnown known.now }
    requires fits { Fits known.now.shape.now cube.now }
    requires rows { AreRowsOf known.now.premise.now.rows cube.now.rows rows.now }
    ensures { IfOk result (StandsAs known.now.shape.now known.now.premise.now cube.now rows.now) }
{
    cube.known();
    let mut all_hold = true;
    for literal in cube.literals() {
        match truth_under(alloc, known, cube, rows, literal)? {
            Some(false) => return Ok(Standing::Fails),
            Some(true) => {}
            None => all_hold = false,
        }
    }
    if all_hold {
        return Ok(Standing::Holds);
    }
    Ok(Standing::Open)
}
