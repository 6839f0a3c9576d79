ghost use Rattle.std.specs.Prelude.{◌≡◌, ℕ, slice_get, None, Some, OnOk, IfOk, true, false};
ghost use Rattle.ras_logic.specs.declared.ids.FunId.{FunId};
ghost use Rattle.ras_logic.specs.declared.function.FunDecl.{FunDecl};
ghost use Rattle.ras_closure.specs.Numbered.{IsAt, IsImageLink};
ghost use Rattle.ras_closure.specs.Closures.{IsNo};
ghost use Rattle.ras_split.specs.Among.{IsAmong};
ghost use Rattle.ras_split.specs.Standing.{CaseParts};
ghost use Rattle.ras_split.specs.Splits.{IsOpen, HasNoTotalImage, IsUndefOf, AddsCases, IsUndefAt, IsDefinedAt, Always, AreSplits, AreCases};

use crate::case::Case;
use crate::standing::is_kept;
use ras_closure::{Closure, Link, TermNo};
use ras_logic::List;
use std::alloc::{AllocError, Global};

/// The number of the undef of a term's sort.
fn undef_of(closure: &Closure, term: TermNo) -> TermNo
    requires { IsNo closure.now term }
    ensures { IsUndefOf closure.now term result }
{
    closure.known();
    TermNo {
        n: u32::from(closure.table().sort(term.n as usize).n),
    }
}

/// The case that a term is undef, if the facts leave it open.
fn add_undef(
    alloc: Global,
    closure: &Closure,
    term: TermNo,
    cases: &mut List<Case>,
) -> Result<(), AllocError>
    requires { IsOpen term.n closure.now }
    ensures { OnOk result (AddsCases closure.now term.n (IsUndefAt closure.now term.n) cases.old cases.new) }
{
    closure.known();
    let undef = undef_of(closure, term);
    let mut more = closure.copy(alloc)?;
    if more.add_same(term, undef).is_err() {
        return Ok(());
    }
    more.known();
    let case = Case::of(alloc, more)?;
    cases.push(case)?;
    Ok(())
}

/// The case that a term is not undef, if the facts leave it open.
fn add_defined(
    alloc: Global,
    closure: Closure,
    term: TermNo,
    cases: &mut List<Case>,
) -> Result<(), AllocError>
    requires { IsOpen term.n closure }
    ensures { OnOk result (AddsCases closure term.n (IsDefinedAt closure term.n) cases.old cases.new) }
{
    closure.known();
    let undef = undef_of(&closure, term);
    let mut more = closure;
    if more.add_apart(term, undef).is_err() {
        return Ok(());
    }
    let case = Case::of(alloc, more)?;
    cases.push(case)?;
    Ok(())
}

/// Whether a term is the image of another one under a total function.
fn is_total_image(closure: &Closure, image: TermNo, term: TermNo) -> bool
    requires { IsNo closure.now image }
    ensures { result ≡ false → (f : FunId) (decl : FunDecl) → IsImageLink closure.now.table.links image.n term.n f
        → slice_get closure.now.table.shape.schema.functions f.n ≡ Some decl → decl.total ≡ true → ⊥ }
{
    closure.known();
    match closure.table().link(image.n as usize) {
        Link::Image { of, function } if of == term.n => closure.table().function(function).total,
        _ => false,
    }
}

/// Whether some term is its image under a total function.
fn has_total_image(closure: &Closure, term: TermNo) -> bool
    ensures { result ≡ false → HasNoTotalImage closure.now term.n }
{
    closure.known();
    for k in 0..closure.table().len() {
        if is_total_image(closure, TermNo { n: k as u32 }, term) {
            return true;
        }
    }
    false
}

/// The cases of a term: the case itself where something stands for the term, or it has no image under a total function.
fn split(alloc: Global, case: Case, term: TermNo, cases: &mut List<Case>) -> Result<(), AllocError>
    requires { IsOpen term.n case.closure }
    ensures { OnOk result (AddsCases case.closure term.n Always cases.old cases.new) }
{
    case.known();
    if !has_total_image(case.closure(), term) {
        cases.push(case)?;
        return Ok(());
    }
    if is_kept(case.closure(), case.standing(), term) {
        cases.push(case)?;
        return Ok(());
    }
    add_undef(alloc, case.closure(), term, cases)?;
    add_defined(alloc, case.into_closure(), term, cases)
}

/// The cases of a term in each of the cases so far.
fn split_all(alloc: Global, cases: List<Case>, term: TermNo) -> Result<List<Case>, AllocError>
    requires { (c : CaseParts) → IsAmong cases c → IsOpen term.n c.closure }
    ensures { IfOk result (AreSplits cases term.n) }
{
    let mut next = List::new(alloc);
    for case in cases.into_vec() {
        split(alloc, case, term, &mut next)?;
    }
    Ok(next)
}

/// The cases of a closure in which each term that has an image under a total function has something that stands for it, or is
/// not undef.
pub fn cases_of(alloc: Global, closure: Closure) -> Result<List<Case>, AllocError>
    requires { closure.clash ≡ None }
    ensures { IfOk result (AreCases closure) }
{
    let count = closure.table().len();
    closure.known();
    let mut cases = List::new(alloc);
    let case = Case::of(alloc, closure)?;
    cases.push(case)?;
    for i in 0..count {
        cases = split_all(alloc, cases, TermNo { n: i as u32 })?;
    }
    Ok(cases)
}
