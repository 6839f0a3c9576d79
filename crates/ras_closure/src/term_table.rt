ghost use Rattle.std.specs.Prelude.{◌≡◌, ◌↔◌, ◌≤◌, ℕ, ◌+◌, ◌<◌, length, slice_get, Some, MatchOption, IfOk, IfSome, IsTrue, All};
ghost use Rattle.ras_logic.specs.Formulas.{Fits};
ghost use Rattle.ras_logic.specs.Terms.{base_term, sort_of as the_sort};
ghost use Rattle.ras_logic.specs.declared.term.Term.{Term};
ghost use Rattle.ras_closure.specs.Numbered.{IsAt, IsImageLink, IsTable, rigid_count};

use crate::building::{place_fixed, place_literals};
use crate::link::Link;
use ras_logic::{Base, FunDecl, FunId, List, Plain, Problem, RelId, Shape, SortId, Term, sort_of};
use std::alloc::{AllocError, Global};
use std::marker::Model;

/// The terms of a problem, by number: every sort's undef, then the constants, then the others, each after what it is the
/// image of.
#[derive(Debug, Drop)]
pub struct TermTable {
    shape: Shape,
    problem: Problem,
    terms: List<Term>,
    links: List<Link>,
}

impl Model for TermTable {
    ghost use Rattle.ras_closure.specs.Numbered.{TableParts};

    ghost Value = { TableParts };

    ghost view = { λ t. record { shape = t.shape; problem = t.problem; terms = t.terms; links = t.links } };

    ghost use Rattle.ras_closure.specs.Numbered.{IsTable};

    ghost invariant = { λ t. IsTable (record { shape = t.shape; problem = t.problem; terms = t.terms; links = t.links }) };
}

impl TermTable {
    /// The terms of a problem with their prefixes, after every sort's undef and the constants.
    pub fn new(alloc: Global, shape: &Shape, problem: &Problem) -> Result<TermTable, AllocError>
        requires { Fits shape.now problem.now }
        ensures shape { IfOk result (λ t. t.shape ≡ shape.now) }
        ensures problem { IfOk result (λ t. t.problem ≡ problem.now) }
    {
        shape.known();
        let mut terms = List::new(alloc);
        let mut links = List::new(alloc);
        place_fixed(alloc, shape.schema(), problem, &mut terms, &mut links)?;
        place_literals(alloc, shape, problem, &mut terms, &mut links)?;
        let shape = shape.copy(alloc)?;
        let problem = problem.copy(alloc)?;
        Ok(TermTable {
            shape,
            problem,
            terms,
            links,
        })
    }

    /// The same terms under the same numbers, in memory of their own.
    pub fn copy(&self, alloc: Global) -> Result<TermTable, AllocError>
        ensures { IfOk result (λ t. t ≡ self.now) }
    {
        let links = self.links.copy(alloc)?;
        let terms = self.terms.copy(alloc)?;
        let problem = self.problem.copy(alloc)?;
        let shape = self.shape.copy(alloc)?;
        Ok(TermTable {
            shape,
            problem,
            terms,
            links,
        })
    }

    /// What every table keeps.
    pub fn known(&self)
        ensures { IsTable self.now }
    {
        // to look at a field gives the proof the invariant
        let _ = &self.links;
    }

    /// For each term how it is made.
    pub fn links(&self) -> &[Link]
        ensures { result.now ≡ self.now.links }
    {
        self.links.as_slice()
    }

    /// How many functions the schema has.
    pub fn function_count(&self) -> usize
        ensures { result ≡ length self.now.shape.schema.functions }
    {
        self.shape.schema().function_count() as usize
    }

    /// A function of the schema.
    pub fn function(&self, function: FunId) -> FunDecl
        requires { function.n < length self.now.shape.schema.functions }
        ensures known { slice_get self.now.shape.schema.functions function.n ≡ Some result }
        ensures source { result.source.n < length self.now.terms }
        ensures target { result.target.n < length self.now.terms }
    {
        self.known();
        self.shape.schema().function(function)
    }

    /// How many terms are undef or a constant: the first ones.
    pub fn rigid_count(&self) -> usize
        ensures { result ≡ rigid_count self.now }
    {
        self.shape.schema().sort_count() as usize + self.shape.schema().constants().len()
    }

    /// How many sorts the schema has.
    pub fn sort_count(&self) -> usize
        ensures { result ≡ self.now.shape.schema.sorts }
    {
        self.shape.schema().sort_count() as usize
    }

    /// The shape that the problem is over.
    pub fn shape(&self) -> &Shape
        ensures { result.now ≡ self.now.shape }
    {
        &self.shape
    }

    /// The named rows of the problem.
    pub fn rows(&self) -> &[RelId]
        ensures { result.now ≡ self.now.problem.rows }
    {
        self.problem.rows.as_slice()
    }

    /// The data parameters of the problem.
    pub fn params(&self) -> &[SortId]
        ensures { result.now ≡ self.now.problem.params }
    {
        self.problem.params.as_slice()
    }

    /// How many artifact variables the shape has.
    pub fn var_count(&self) -> usize
        ensures count { result ≡ length self.now.shape.vars }
        ensures few { result ≤ 4294967295 }
    {
        self.shape.var_count() as usize
    }

    /// How many data parameters the problem has.
    pub fn param_count(&self) -> usize
        ensures count { result ≡ length self.now.problem.params }
        ensures few { result ≤ 4294967295 }
    {
        self.problem.params.len()
    }

    /// The term of a number.
    pub fn term(&self, term: usize) -> &Term
        requires { term < length self.now.terms }
        ensures { IsAt self.now.terms term result.now }
    {
        &self.terms.as_slice()[term]
    }

    /// How a term is made.
    pub fn link(&self, term: usize) -> Link
        requires { term < length self.now.terms }
        ensures { slice_get self.now.links term ≡ Some result }
    {
        self.known();
        self.links.as_slice()[term]
    }

    /// The sort of a term.
    pub fn sort(&self, term: usize) -> SortId
        requires { term < length self.now.terms }
        ensures is_sort { (t : Term) → IsAt self.now.terms term t → the_sort self.now.shape self.now.problem.rows self.now.problem.params t ≡ Some result }
        ensures exists { result.n < self.now.shape.schema.sorts }
    {
        self.known();
        let found = sort_of(self.shape(), self.rows(), self.params(), self.term(term));
        match found {
            Some(sort) => sort,
            None => unreachable!(),
        }
    }

    /// How many terms there are.
    pub fn len(&self) -> usize
        ensures { result ≡ length self.now.terms }
    {
        self.terms.len()
    }

    /// The number of a base, if it is a term of the table: those of undef and of the constants are known, and each other
    /// one is looked for from the end, where the terms of the literals are.
    fn find_base(&self, base: Base) -> Option<u32>
        ensures { MatchOption result ((i : ℕ) → IsAt self.now.terms i (base_term base) → ⊥) (λ i. IsAt self.now.terms i (base_term base)) }
    {
        self.known();
        if let Some(number) = self.fixed_number(base) {
            return Some(number);
        }
        for i in (0..self.len()).rev() {
            if is_base(self.term(i), base) {
                return Some(i as u32);
            }
        }
        None
    }

    /// The number of a sort's undef or of a constant.
    fn fixed_number(&self, base: Base) -> Option<u32>
        ensures { IfSome result (λ i. IsAt self.now.terms i (base_term base)) }
    {
        self.known();
        let sorts = self.shape.schema().sort_count();
        match base {
            Base::Undef(sort) if sort.n < sorts => Some(u32::from(sort.n)),
            Base::Constant(c) if c.n < self.shape.schema().constant_count() => {
                Some(u32::from(sorts) + u32::from(c.n))
            }
            _ => None,
        }
    }

    /// The number of the image of a term by a function, if it is one of the table's.
    fn find_image(&self, of: u32, function: FunId) -> Option<u32>
        ensures { MatchOption result ((i : ℕ) → IsImageLink self.now.links i of function → ⊥) (λ i. IsImageLink self.now.links i of function) }
    {
        link_number(self.links.as_slice(), Link::Image { of, function })
    }

    /// The number of a term, if it is one of the table's. It compares no paths: it goes from the base to the images.
    pub fn find(&self, term: &Term) -> Option<u32>
        ensures { MatchOption result ((i : ℕ) → IsAt self.now.terms i term.now → ⊥) (λ i. IsAt self.now.terms i term.now) }
    {
        self.known();
        let mut at = self.find_base(term.base)?;
        for function in term.path.as_slice() {
            at = self.find_image(at, *function)?;
        }
        Some(at)
    }
}

/// Whether a term is a base alone.
fn is_base(term: &Term, base: Base) -> bool
    ensures { IsTrue result ↔ (term.now ≡ base_term base) }
{
    term.base == base && term.path.as_slice().is_empty()
}

/// The number of the term that is made like this.
fn link_number(links: &[Link], link: Link) -> Option<u32>
    requires { length links.now ≤ 4294967295 }
    ensures { MatchOption result ((i : ℕ) → ¬ (slice_get links.now i ≡ Some link)) (λ i. slice_get links.now i ≡ Some link) }
{
    for (i, other) in links.iter().enumerate() {
        if *other == link {
            return Some(i as u32);
        }
    }
    None
}
