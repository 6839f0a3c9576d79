ghost use Rattle.std.specs.Prelude.{◌≡◌, ◌↔◌, ◌<◌, ◌++◌, ◌∷◌, [], length, set, IfOk, OnOk, MatchOption, IsTrue, None, Some, true, false};
ghost use Rattle.ras_logic.specs.declared.term.Term.{Term};
ghost use Rattle.ras_logic.specs.Terms.{base_term, image_term};
ghost use Rattle.ras_logic.specs.Formulas.{IsNoParam};
ghost use Rattle.ras_closure.specs.Numbered.{IsAt};
ghost use Rattle.ras_closure.specs.Closures.{IsNo};
ghost use Rattle.ras_split.specs.Among.{IsAmong};
ghost use Rattle.ras_split.specs.Standing.{IsOwn, HasNoOwn, IsGap, IsFull, AreGapsTo, FillsGap, Fills, AreAllStanding, IsKept};

use ras_closure::{Closure, Link, TermNo};
use ras_logic::{Base, FunId, Plain, Term};
use std::alloc::{AllocError, Global};

/// A class that nothing stands for yet, and what can.
#[derive(Debug, Drop)]
pub struct Gap {
    pub class: usize,
    pub term: Term,
}

/// Whether a base is no data parameter.
fn is_no_param(base: Base) -> bool
    ensures { IsTrue result ↔ IsNoParam base }
{
    match base {
        Base::Param(_) => false,
        _ => true,
    }
}

/// The image of a term under a function.
pub fn image_of(alloc: Global, term: &Term, function: FunId) -> Result<Term, AllocError>
    ensures { IfOk result (λ r. r ≡ image_term term.now function) }
{
    let mut path = term.path.copy(alloc)?;
    path.push(function)?;
    Ok(Term {
        base: term.base,
        path,
    })
}

/// The image of what stands for a class, if something does.
fn own_image(
    alloc: Global,
    argument: &Option<Term>,
    function: FunId,
) -> Result<Option<Term>, AllocError>
    ensures { IfOk result (λ o. MatchOption o (argument.now ≡ None) (λ u. (q : Term) × (argument.now ≡ Some q) × (u ≡ image_term q function))) }
{
    match argument {
        None => Ok(None),
        Some(term) => {
            let image = image_of(alloc, term, function)?;
            Ok(Some(image))
        }
    }
}

/// What stands for a term by how it is made.
pub fn own(
    alloc: Global,
    closure: &Closure,
    terms: &[Option<Term>],
    term: TermNo,
) -> Result<Option<Term>, AllocError>
    requires known { IsNo closure.now term }
    requires as_many { length terms.now ≡ length closure.now.table.terms }
    ensures { IfOk result (λ o. MatchOption o (HasNoOwn closure.now terms.now term.n) (IsOwn closure.now terms.now term.n)) }
{
    closure.known();
    match closure.table().link(term.n as usize) {
        Link::Base => {
            let base = closure.table().term(term.n as usize);
            if is_no_param(base.base) {
                let copy = base.copy(alloc)?;
                return Ok(Some(copy));
            }
            Ok(None)
        }
        Link::Image { of, function } => {
            let class = closure.class_of(TermNo { n: of }) as usize;
            own_image(alloc, &terms[class], function)
        }
    }
}

/// The class of a term and what can stand for it, where nothing does yet.
fn gap_at(
    alloc: Global,
    closure: &Closure,
    terms: &[Option<Term>],
    term: TermNo,
) -> Result<Option<Gap>, AllocError>
    requires known { IsNo closure.now term }
    requires as_many { length terms.now ≡ length closure.now.table.terms }
    ensures { IfOk result (λ o. MatchOption o (IsFull closure.now terms.now term.n) (IsGap closure.now terms.now)) }
{
    closure.known();
    let class = closure.class_of(term) as usize;
    if terms[class].is_some() {
        return Ok(None);
    }
    let Some(term) = own(alloc, closure, terms, term)? else {
        return Ok(None);
    };
    Ok(Some(Gap { class, term }))
}

/// Adds a gap, where there is one.
fn push_gap(gaps: &mut Vec<Gap>, gap: Option<Gap>) -> Result<(), AllocError>
    ensures { OnOk result (MatchOption gap (gaps.new.items ≡ gaps.old.items) (λ g. gaps.new.items ≡ gaps.old.items ++ g ∷ [])) }
{
    match gap {
        None => Ok(()),
        Some(gap) => {
            gaps.push(gap)?;
            Ok(())
        }
    }
}

/// The classes that nothing stands for yet, though something can: each with what can by how one of its terms is made.
fn gaps_of(alloc: Global, closure: &Closure, terms: &[Option<Term>]) -> Result<Vec<Gap>, AllocError>
    requires as_many { length terms.now ≡ length closure.now.table.terms }
    ensures { IfOk result (λ r. AreGapsTo closure.now terms.now (length closure.now.table.terms) r.items) }
{
    closure.known();
    let mut gaps = Vec::new(alloc);
    for i in 0..closure.table().len() {
        let gap = gap_at(alloc, closure, terms, TermNo { n: i as u32 })?;
        push_gap(&mut gaps, gap)?;
    }
    Ok(gaps)
}

/// Puts what stands for a class in its place.
fn put(terms: &mut Vec<Option<Term>>, gap: Gap)
    requires { gap.class < length terms.old.items }
    ensures { terms.new.items ≡ set terms.old.items gap.class (Some gap.term) }
{
    let Gap { class, term } = gap;
    terms[class] = Some(term);
}

/// The same where nothing is there yet.
fn fill_gap(terms: &mut Vec<Option<Term>>, gap: Gap)
    requires { gap.class < length terms.old.items }
    ensures { FillsGap terms.old.items gap terms.new.items }
{
    if terms[gap.class].is_some() {
        return;
    }
    put(terms, gap);
}

/// The same of several, in order.
fn fill(terms: &mut Vec<Option<Term>>, gaps: Vec<Gap>)
    requires { (g : Gap) → IsAmong gaps.items g → g.class < length terms.old.items }
    ensures { Fills terms.old.items gaps.items terms.new.items }
{
    for gap in gaps {
        fill_gap(terms, gap);
    }
}

/// Whether there is a gap.
fn has_gap(gaps: &Vec<Gap>) -> bool
    ensures some { result ≡ true → 0 < length gaps.now.items }
    ensures none { result ≡ false → length gaps.now.items ≡ 0 }
{
    !gaps.is_empty()
}

/// For each class a term without data parameters that stands for its terms, where there is one. The terms are found in rounds
/// of one length more each, so each is a shortest one, and of these the first.
pub fn standing_terms(alloc: Global, closure: &Closure) -> Result<Vec<Option<Term>>, AllocError>
    ensures { IfOk result (λ r. AreAllStanding closure.now r.items) }
{
    closure.known();
    let mut terms = Vec::with_capacity(alloc, closure.table().len())?;
    for _i in 0..closure.table().len() {
        terms.push(None)?;
    }
    let mut found = gaps_of(alloc, closure, &terms)?;
    while has_gap(&found) {
        fill(&mut terms, found);
        found = gaps_of(alloc, closure, &terms)?;
    }
    Ok(terms)
}

/// Whether something stands for a term.
pub fn is_kept(closure: &Closure, terms: &[Option<Term>], term: TermNo) -> bool
    requires known { IsNo closure.now term }
    requires standing { AreAllStanding closure.now terms.now }
    ensures { result ≡ true → (t : Term) → IsAt closure.now.table.terms term.n t → IsKept closure.now t }
{
    closure.known();
    let class = closure.class_of(term) as usize;
    terms[class].is_some()
}
