ghost use Rattle.std.specs.Prelude.{◌≡◌, map, IfOk};
ghost use Rattle.ras_names.specs.Checks.{used_check};
ghost use Rattle.ras_names.specs.TermChecks as checks;
ghost use Rattle.ras_names.specs.Placed as placed;
ghost use Rattle.ras_scope.specs.Placing.{placed_base, placed_call, placed_term};
ghost use Rattle.ras_scope.specs.Agreeing.{Agrees};
ghost use Rattle.ras_scope.specs.Answering.{Answers};
ghost use Rattle.ras_scope.specs.Seeing.{Sees};
ghost use Rattle.ras_terms.specs.Meanings.{sort_alone, term_at};
ghost use Rattle.ras_terms.specs.Calling.{called_value, source_checks, applied, start_of, IsBaseRead, IsTermRead};

use ras_logic::{Base, FunDecl, FunId, List, SortId, Term};
use ras_names::SpecKind;
use ras_scope::declared::Declared;
use ras_scope::fault::{SpecError, fault};
use ras_scope::scope::Scope;
use ras_syntax as tree;
use std::alloc::Global;

/// What a term says: `undef` alone takes the sort that its place wants, and any other term has a sort.
#[derive(Drop)]
pub enum Meaning {
    Undef,
    Sorted(Term, SortId),
}

impl Meaning {
    /// The sort of the term, if it has one of its own.
    pub fn sort(&self) -> Option<SortId>
        ensures { result ≡ sort_alone self.now }
    {
        match self {
            Meaning::Undef => None,
            Meaning::Sorted(_, sort) => Some(*sort),
        }
    }

    /// The term where its place wants a sort.
    pub fn at_sort(self, alloc: Global, sort: SortId) -> Term
        ensures { result ≡ term_at sort self }
    {
        match self {
            Meaning::Undef => Term {
                base: Base::Undef(sort),
                path: List::new(alloc),
            },
            Meaning::Sorted(term, _) => term,
        }
    }
}

/// A function of a term: its place, its number and its sorts.
#[derive(Clone, Copy)]
pub struct Called {
    pub at: u32,
    pub function: FunId,
    pub decl: FunDecl,
}

/// The functions of a term from the outside in.
fn read_calls(
    alloc: Global,
    declared: &Declared,
    calls: &[tree::Call],
) -> Result<Vec<Called>, SpecError>
    ensures checks { Answers (map (used_check declared.now.functions.names) (map placed_call calls.now)) result }
    ensures value { (file : placed.File) → Agrees file declared.now → IfOk result (λ called. called.items ≡ map (called_value file) (map placed_call calls.now)) }
{
    let mut called = Vec::new(alloc);
    for call in calls {
        let (function, decl) = declared.function(&call.function)?;
        called.push(Called {
            at: call.function.at,
            function,
            decl,
        })?;
    }
    Ok(called)
}

/// What stands inside all functions, and its sort; none for `undef`.
fn read_base(scope: &Scope, base: &tree::Base) -> Result<Option<(Base, SortId)>, SpecError>
    ensures checks { (seen : checks.Scope) → Sees scope.now seen → Answers (checks.base_checks seen (placed_base base.now)) result }
    ensures value { (seen : checks.Scope) → Sees scope.now seen → IfOk result (IsBaseRead seen (placed_base base.now)) }
{
    match base {
        tree::Base::Undef(_) => Ok(None),
        tree::Base::Plain(name) => Ok(Some(scope.plain(name)?)),
        tree::Base::Cell(row, _, column) => Ok(Some(scope.cell(row, column)?)),
    }
}

/// What the functions are applied to, and its sort: `undef` is one of the source of the innermost function.
fn start(called: &[Called], base: Option<(Base, SortId)>) -> Option<(Base, SortId)>
    ensures { result ≡ start_of called.now base }
{
    match base {
        Some(found) => Some(found),
        None => match called.last() {
            Some(inner) => Some((Base::Undef(inner.decl.source), inner.decl.source)),
            None => None,
        },
    }
}

/// The functions are applied from the inside out, each to its source.
fn apply(alloc: Global, called: &[Called], base: Base, start: SortId) -> Result<Meaning, SpecError>
    ensures checks { Answers (source_checks start called.now) result }
    ensures value { IfOk result (λ m. m ≡ applied base start called.now) }
{
    let mut path = List::new(alloc);
    let mut sort = start;
    for i in 0..called.len() {
        let call = called[called.len() - 1 - i];
        if call.decl.source != sort {
            return fault(call.at, SpecKind::WrongSort);
        }
        path.push(call.function)?;
        sort = call.decl.target;
    }
    Ok(Meaning::Sorted(Term { base, path }, sort))
}

/// What a term says: its names are judged from left to right, and then its sorts.
pub fn read_term(alloc: Global, scope: &Scope, term: &tree::Term) -> Result<Meaning, SpecError>
    ensures checks { (seen : checks.Scope) → Sees scope.now seen → Answers (checks.term_checks seen (placed_term term.now)) result }
    ensures value { (seen : checks.Scope) → Sees scope.now seen → IfOk result (IsTermRead seen (placed_term term.now)) }
{
    let called = read_calls(alloc, scope.declared, term.calls.as_slice())?;
    let base = read_base(scope, &term.base)?;
    match start(called.as_slice(), base) {
        Some((base, sort)) => apply(alloc, called.as_slice(), base, sort),
        None => Ok(Meaning::Undef),
    }
}

/// The place of the first token of a term.
pub fn term_place(term: &tree::Term) -> u32
    ensures { result ≡ placed.term_place (placed_term term.now) }
{
    match term.calls.as_slice().first() {
        Some(call) => call.function.at,
        None => match &term.base {
            tree::Base::Undef(at) => *at,
            tree::Base::Plain(name) => name.at,
            tree::Base::Cell(row, _, _) => row.at,
        },
    }
}
