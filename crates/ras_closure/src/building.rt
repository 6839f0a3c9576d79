ghost use Rattle.std.specs.Prelude.{◌≡◌, ℕ, ◌+◌, ◌<◌, ◌≤◌, length, take, slice_get, Some, IfOk, OnOk, List, MatchOption, All, ◌++◌, ◌∷◌, []};
ghost use Rattle.ras_logic.specs.Clashes.{IsTerm};
ghost use Rattle.ras_closure.specs.Numbered.{IsAt};
ghost use Rattle.ras_closure.specs.Building.{IsPart, Grows, LinkFits, prefix_at, HasPrefixes, HasSides, HaveSides, HasFunctions, SidesKnown, AreFixed, fixed_term};
ghost use Rattle.ras_logic.specs.Formulas.{LiteralFits};

use crate::link::Link;
use ras_logic::{Base, ConstId, List, Literal, Plain, Problem, Schema, Shape, SortId, Term};
use std::alloc::{AllocError, Global};

/// The number of a term in a list.
fn position(terms: &List<Term>, term: &Term) -> Option<usize>
    ensures { MatchOption result ((i : ℕ) → IsAt terms.now i term.now → ⊥) (λ i. IsAt terms.now i term.now) }
{
    let terms = terms.as_slice();
    for i in 0..terms.len() {
        if terms[i].equal(term) {
            return Some(i);
        }
    }
    None
}

/// Puts a term at the end, with its link.
fn append(
    terms: &mut List<Term>,
    links: &mut List<Link>,
    term: Term,
    link: Link,
) -> Result<(), AllocError>
    ensures terms { OnOk result (terms.new ≡ terms.old ++ term ∷ []) }
    ensures links { OnOk result (links.new ≡ links.old ++ link ∷ []) }
    ensures few { OnOk result (length terms.old + 1 < 4294967295) }
{
    if terms.len() >= 4294967294 {
        return Err(AllocError);
    }
    terms.push(term)?;
    links.push(link)?;
    Ok(())
}

/// The place of a term in the list, to which it is added where it is not there.
fn place(
    schema: &Schema,
    problem: &Problem,
    terms: &mut List<Term>,
    links: &mut List<Link>,
    term: Term,
    link: Link,
) -> Result<u32, AllocError>
    requires part { IsPart schema.now problem.now.literals terms.old links.old }
    requires known { IsTerm schema.now problem.now.literals term }
    requires fits { LinkFits schema.now terms.old term link }
    ensures part { OnOk result (IsPart schema.now problem.now.literals terms.new links.new) }
    ensures grows { OnOk result (Grows terms.old terms.new) }
    ensures place { IfOk result (λ i. IsAt terms.new i term) }
{
    // only the contract speaks of these
    let _schema = schema;
    let _problem = problem;
    if let Some(i) = position(terms, &term) {
        return Ok(i as u32);
    }
    let i = terms.len();
    append(terms, links, term, link)?;
    Ok(i as u32)
}

/// The first part of a term.
fn prefix_of(alloc: Global, term: &Term, k: usize) -> Result<Term, AllocError>
    requires { k ≤ length term.now.path }
    ensures { IfOk result (λ p. p ≡ prefix_at term.now k) }
{
    let mut path = List::new(alloc);
    for j in 0..k {
        path.push(term.path.as_slice()[j])?;
    }
    Ok(Term {
        base: term.base,
        path,
    })
}

/// Puts a term and its prefixes into the list.
fn place_term(
    alloc: Global,
    schema: &Schema,
    problem: &Problem,
    terms: &mut List<Term>,
    links: &mut List<Link>,
    term: &Term,
) -> Result<(), AllocError>
    requires part { IsPart schema.now problem.now.literals terms.old links.old }
    requires known { IsTerm schema.now problem.now.literals term.now }
    requires functions { HasFunctions schema.now term.now }
    ensures part { OnOk result (IsPart schema.now problem.now.literals terms.new links.new) }
    ensures grows { OnOk result (Grows terms.old terms.new) }
    ensures prefixes { OnOk result (HasPrefixes terms.new term.now (length term.now.path)) }
{
    let base = prefix_of(alloc, term, 0)?;
    let mut at = place(schema, problem, terms, links, base, Link::Base)?;
    for k in 0..term.path.len() {
        let function = term.path.as_slice()[k];
        let longer = prefix_of(alloc, term, k + 1)?;
        at = place(
            schema,
            problem,
            terms,
            links,
            longer,
            Link::Image { of: at, function },
        )?;
    }
    Ok(())
}

/// Puts both sides of a literal, with their prefixes, into the list.
fn place_literal(
    alloc: Global,
    schema: &Schema,
    problem: &Problem,
    terms: &mut List<Term>,
    links: &mut List<Link>,
    literal: &Literal,
) -> Result<(), AllocError>
    requires part { IsPart schema.now problem.now.literals terms.old links.old }
    requires known { SidesKnown schema.now problem.now.literals literal.now }
    ensures part { OnOk result (IsPart schema.now problem.now.literals terms.new links.new) }
    ensures grows { OnOk result (Grows terms.old terms.new) }
    ensures sides { OnOk result (HasSides terms.new literal.now) }
{
    place_term(alloc, schema, problem, terms, links, literal.left())?;
    place_term(alloc, schema, problem, terms, links, literal.right())?;
    Ok(())
}

/// Puts the sides of all literals into the list.
pub fn place_literals(
    alloc: Global,
    shape: &Shape,
    problem: &Problem,
    terms: &mut List<Term>,
    links: &mut List<Link>,
) -> Result<(), AllocError>
    requires part { IsPart shape.now.schema problem.now.literals terms.old links.old }
    requires fit { All (LiteralFits shape.now problem.now.rows problem.now.params) problem.now.literals }
    ensures part { OnOk result (IsPart shape.now.schema problem.now.literals terms.new links.new) }
    ensures grows { OnOk result (Grows terms.old terms.new) }
    ensures sides { OnOk result (HaveSides terms.new problem.now.literals (length problem.now.literals)) }
{
    let literals = problem.literals.as_slice();
    for k in 0..literals.len() {
        place_literal(alloc, shape.schema(), problem, terms, links, &literals[k])?;
    }
    Ok(())
}

/// The undef of a sort, or a constant.
fn fixed(alloc: Global, sorts: usize, i: usize) -> Term
    requires within { i < sorts + 65536 }
    requires few { sorts < 65536 }
    ensures { result ≡ fixed_term sorts i }
{
    let base = if i < sorts {
        Base::Undef(SortId { n: i as u16 })
    } else {
        Base::Constant(ConstId {
            n: (i - sorts) as u16,
        })
    };
    Term {
        base,
        path: List::new(alloc),
    }
}

/// Puts every sort's undef and the constants into the empty list.
pub fn place_fixed(
    alloc: Global,
    schema: &Schema,
    problem: &Problem,
    terms: &mut List<Term>,
    links: &mut List<Link>,
) -> Result<(), AllocError>
    requires few { length schema.now.constants < 65536 }
    requires terms { terms.old ≡ [] }
    requires links { links.old ≡ [] }
    ensures part { OnOk result (IsPart schema.now problem.now.literals terms.new links.new) }
    ensures fixed { OnOk result (AreFixed schema.now.sorts terms.new (schema.now.sorts + length schema.now.constants)) }
{
    // only the contract speaks of it
    let _problem = problem;
    let sorts = schema.sort_count() as usize;
    for i in 0..sorts + schema.constants().len() {
        append(terms, links, fixed(alloc, sorts, i), Link::Base)?;
    }
    Ok(())
}
