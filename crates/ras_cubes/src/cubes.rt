ghost use Rattle.std.specs.Prelude.{◌≡◌, length, IfOk, OnOk};
ghost use Rattle.ras_logic.specs.Terms.{undef_term as the_undef};
ghost use Rattle.ras_closure.specs.Closures.{IsNo};
ghost use Rattle.ras_closure.specs.Numbered.{IsImageLink};
ghost use Rattle.ras_cubes.specs.Dues.{AddsDue, IsTermDue, IsImageDue, IsFactDueOf, IsFactDue, IsDueTo, IsCubeOf, IsCubeOfCase, SidesAreTerms};

use ras_closure::{Closure, Link, TermNo};
use ras_logic::{Base, FunId, List, Literal, Plain, Problem, SortId, Term};
use ras_split::{Case, own};
use std::alloc::{AllocError, Global};

/// The undef of a sort.
fn undef_term(alloc: Global, sort: SortId) -> Term
    ensures { result ≡ the_undef sort }
{
    Term {
        base: Base::Undef(sort),
        path: List::new(alloc),
    }
}

/// That what stands for a term by how it is made is the same as what stands for its class.
fn add_term(
    alloc: Global,
    closure: &Closure,
    terms: &[Option<Term>],
    term: TermNo,
    literals: &mut List<Literal>,
) -> Result<(), AllocError>
    requires known { IsNo closure.now term }
    requires as_many { length terms.now ≡ length closure.now.table.terms }
    ensures { OnOk result (AddsDue (IsTermDue closure.now terms.now term.n) literals.old literals.new) }
{
    closure.known();
    let class = closure.class_of(term) as usize;
    let Some(by) = &terms[class] else {
        return Ok(());
    };
    let Some(own) = own(alloc, closure, terms, term)? else {
        return Ok(());
    };
    if own.equal(by) {
        return Ok(());
    }
    let right = by.copy(alloc)?;
    literals.push(Literal::Equal {
        left: own,
        right,
        same: true,
    })?;
    Ok(())
}

/// That what stands for the image of a term under a total function is not undef, where nothing stands for the term.
fn add_image_of(
    alloc: Global,
    closure: &Closure,
    terms: &[Option<Term>],
    image: TermNo,
    of: u32,
    function: FunId,
    literals: &mut List<Literal>,
) -> Result<(), AllocError>
    requires known { IsNo closure.now image }
    requires as_many { length terms.now ≡ length closure.now.table.terms }
    requires link { IsImageLink closure.now.table.links image.n of function }
    ensures { OnOk result (AddsDue (IsImageDue closure.now terms.now image.n) literals.old literals.new) }
{
    closure.known();
    let decl = closure.table().function(function);
    if !decl.total {
        return Ok(());
    }
    let argument = closure.class_of(TermNo { n: of }) as usize;
    if terms[argument].is_some() {
        return Ok(());
    }
    let class = closure.class_of(image) as usize;
    let Some(by) = &terms[class] else {
        return Ok(());
    };
    let left = by.copy(alloc)?;
    literals.push(Literal::Equal {
        left,
        right: undef_term(alloc, decl.target),
        same: false,
    })?;
    Ok(())
}

/// The same of a term that may be a base.
fn add_image(
    alloc: Global,
    closure: &Closure,
    terms: &[Option<Term>],
    term: TermNo,
    literals: &mut List<Literal>,
) -> Result<(), AllocError>
    requires known { IsNo closure.now term }
    requires as_many { length terms.now ≡ length closure.now.table.terms }
    ensures { OnOk result (AddsDue (IsImageDue closure.now terms.now term.n) literals.old literals.new) }
{
    match closure.table().link(term.n as usize) {
        Link::Base => Ok(()),
        Link::Image { of, function } => {
            add_image_of(alloc, closure, terms, term, of, function, literals)
        }
    }
}

/// That what stands for the sides of a literal is not the same, where the literal says so.
fn add_fact(
    alloc: Global,
    closure: &Closure,
    terms: &[Option<Term>],
    fact: &Literal,
    literals: &mut List<Literal>,
) -> Result<(), AllocError>
    requires sides { SidesAreTerms closure.now fact.now }
    requires as_many { length terms.now ≡ length closure.now.table.terms }
    ensures { OnOk result (AddsDue (IsFactDueOf closure.now terms.now fact.now) literals.old literals.new) }
{
    if fact.says_same() {
        return Ok(());
    }
    closure.known();
    let left_no = closure.term(fact.left()).unwrap();
    let right_no = closure.term(fact.right()).unwrap();
    let left_class = closure.class_of(left_no) as usize;
    let right_class = closure.class_of(right_no) as usize;
    let Some(left_by) = &terms[left_class] else {
        return Ok(());
    };
    let Some(right_by) = &terms[right_class] else {
        return Ok(());
    };
    let left = left_by.copy(alloc)?;
    let right = right_by.copy(alloc)?;
    literals.push(Literal::Equal {
        left,
        right,
        same: false,
    })?;
    Ok(())
}

fn add_terms(
    alloc: Global,
    closure: &Closure,
    terms: &[Option<Term>],
    literals: &mut List<Literal>,
) -> Result<(), AllocError>
    requires as_many { length terms.now ≡ length closure.now.table.terms }
    ensures { OnOk result (AddsDue (IsDueTo (IsTermDue closure.now terms.now) (length closure.now.table.terms)) literals.old literals.new) }
{
    closure.known();
    for i in 0..closure.table().len() {
        add_term(alloc, closure, terms, TermNo { n: i as u32 }, literals)?;
    }
    Ok(())
}

fn add_images(
    alloc: Global,
    closure: &Closure,
    terms: &[Option<Term>],
    literals: &mut List<Literal>,
) -> Result<(), AllocError>
    requires as_many { length terms.now ≡ length closure.now.table.terms }
    ensures { OnOk result (AddsDue (IsDueTo (IsImageDue closure.now terms.now) (length closure.now.table.terms)) literals.old literals.new) }
{
    closure.known();
    for i in 0..closure.table().len() {
        add_image(alloc, closure, terms, TermNo { n: i as u32 }, literals)?;
    }
    Ok(())
}

fn add_facts(
    alloc: Global,
    closure: &Closure,
    problem: &Problem,
    terms: &[Option<Term>],
    literals: &mut List<Literal>,
) -> Result<(), AllocError>
    requires problem { closure.now.table.problem ≡ problem.now }
    requires as_many { length terms.now ≡ length closure.now.table.terms }
    ensures { OnOk result (AddsDue (IsDueTo (IsFactDue closure.now terms.now) (length problem.now.literals)) literals.old literals.new) }
{
    closure.known();
    for fact in problem.literals.as_slice() {
        add_fact(alloc, closure, terms, fact, literals)?;
    }
    Ok(())
}

/// The cube of what a closure asserts, by what stands for its classes.
fn cube_by(
    alloc: Global,
    problem: &Problem,
    closure: &Closure,
    terms: &[Option<Term>],
) -> Result<Problem, AllocError>
    requires problem { closure.now.table.problem ≡ problem.now }
    requires as_many { length terms.now ≡ length closure.now.table.terms }
    ensures { IfOk result (IsCubeOf closure.now terms.now) }
{
    closure.known();
    let mut literals = List::new(alloc);
    add_terms(alloc, closure, terms, &mut literals)?;
    add_images(alloc, closure, terms, &mut literals)?;
    add_facts(alloc, closure, problem, terms, &mut literals)?;
    let rows = problem.rows.copy(alloc)?;
    let params = List::new(alloc);
    Ok(Problem {
        rows,
        params,
        literals,
    })
}

/// The cube of a case: what its facts say of the terms that stand for its terms, with each equation once for each of its
/// terms.
pub fn cube_of(alloc: Global, problem: &Problem, case: &Case) -> Result<Problem, AllocError>
    requires { case.now.closure.table.problem ≡ problem.now }
    ensures { IfOk result (IsCubeOfCase case.now) }
{
    case.known();
    cube_by(alloc, problem, case.closure(), case.standing())
}
