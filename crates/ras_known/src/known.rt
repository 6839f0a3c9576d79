ghost use Rattle.std.specs.Prelude.{◌≡◌, ◌↔◌, false, All, Contains, IsTrue, IfOk, IfSome};
ghost use Rattle.std.specs.Bool.{OnTrue};
ghost use Rattle.ras_logic.specs.Formulas.{LiteralFits};
ghost use Rattle.ras_logic.specs.Literals.{same_of};
ghost use Rattle.ras_closure.specs.Closings.{IsClosureOf};
ghost use Rattle.ras_known.specs.Knowledge.{AreClassesOf, AreApart, AreKeptApart, IsTruth, IsKnown};

use ras_closure::Closure;
use ras_logic::{Literal, Problem, Shape};
use std::alloc::{AllocError, Global};

/// The classes of the two sides of a literal.
#[derive(Clone, Copy, Debug)]
pub struct Sides {
    pub left: u32,
    pub right: u32,
}

/// A premise with its closure, and the classes of which one of its literals says that they are not the same.
#[derive(Clone, Copy)]
pub struct Known<'a> {
    pub shape: &'a Shape,
    pub premise: &'a Problem,
    pub closure: &'a Closure,
    pub apart: &'a [Sides],
}

/// The classes of both sides of a literal, where both are terms of the closure.
fn classes_of(closure: &Closure, literal: &Literal) -> Option<Sides>
    ensures { IfSome result (AreClassesOf closure.now literal.now) }
{
    let left = closure.term(literal.left())?;
    let right = closure.term(literal.right())?;
    Some(Sides {
        left: closure.class_of(left),
        right: closure.class_of(right),
    })
}

/// The classes of both sides of a literal that says that they are not the same.
fn apart_by(closure: &Closure, literal: &Literal) -> Option<Sides>
    ensures apart { IfSome result (λ s. same_of literal.now ≡ false) }
    ensures classes { IfSome result (AreClassesOf closure.now literal.now) }
{
    if literal.says_same() {
        return None;
    }
    classes_of(closure, literal)
}

/// The classes of which some literal of the premise says that they are not the same.
pub fn all_apart(
    alloc: Global,
    shape: &Shape,
    premise: &Problem,
    closure: &Closure,
) -> Result<Vec<Sides>, AllocError>
    requires { IsClosureOf shape.now premise.now closure.now }
    ensures { IfOk result (λ all. All (AreApart shape.now premise.now closure.now) all.items) }
{
    closure.known();
    let mut all = Vec::new(alloc);
    for literal in premise.literals.as_slice() {
        if let Some(sides) = apart_by(closure, literal) {
            all.push(sides)?;
        }
    }
    Ok(all)
}

/// Whether the two classes stand in the list in this order.
fn is_listed(apart: &[Sides], left: u32, right: u32) -> bool
    ensures { OnTrue result (Contains apart.now (record { left = left; right = right })) }
{
    for sides in apart {
        if sides.left == left && sides.right == right {
            return true;
        }
    }
    false
}

/// Whether two classes are known not to be the same: those of undef and of two constants are not, nor are two of which a
/// literal of the premise says it.
pub fn are_apart(known: &Known<'_>, left: u32, right: u32) -> bool
    requires { IsKnown known.now }
    ensures { OnTrue result (AreKeptApart known.now.shape.now known.now.premise.now known.now.closure.now (record { left = left; right = right })) }
{
    known.closure.known();
    let rigid = known.closure.table().rigid_count();
    if (left as usize) < rigid && (right as usize) < rigid {
        return left != right;
    }
    is_listed(known.apart, left, right) || is_listed(known.apart, right, left)
}

/// Whether a literal that fits holds wherever the premise does, where that is known. It takes no memory.
pub fn truth_of(known: &Known<'_>, literal: &Literal) -> Option<bool>
    requires { IsKnown known.now }
    ensures { LiteralFits known.now.shape.now known.now.premise.now.rows known.now.premise.now.params literal.now
        → IfSome result (IsTruth known.now.shape.now known.now.premise.now literal.now) }
{
    known.closure.known();
    let sides = classes_of(known.closure, literal)?;
    if sides.left == sides.right {
        return Some(literal.says_same());
    }
    if are_apart(known, sides.left, sides.right) {
        return Some(!literal.says_same());
    }
    None
}
