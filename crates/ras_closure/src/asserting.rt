ghost use Rattle.std.specs.Prelude.{◌≡◌, ◌↔◌, IsTrue, false, None, IfOk, MatchOption};
ghost use Rattle.std.specs.Bool.{OnTrue, OnFalse};
ghost use Rattle.ras_logic.specs.Formulas.{Fits};
ghost use Rattle.ras_logic.specs.Clashes.{FactsClash};
ghost use Rattle.ras_closure.specs.Closures.{IsNo, AreOfOneSort, AddsFact, FactsClashIn};
ghost use Rattle.ras_closure.specs.Closings.{IsOfTable, AddsLiteral, HasFirst, IsClosureOf};

use crate::closure::Closure;
use crate::term_no::TermNo;
use ras_logic::{Literal, Problem, Shape};
use std::alloc::{AllocError, Global};

/// Asserts that two terms are the same, or that they are not; whether what was asserted clashes then.
fn assert_terms(closure: &mut Closure, left: TermNo, right: TermNo, same: bool) -> bool
    requires left { IsNo closure.old left }
    requires right { IsNo closure.old right }
    requires one_sort { AreOfOneSort closure.old left right }
    requires no_clash { closure.old.clash ≡ None }
    ensures added { AddsFact closure.old closure.new same left right }
    ensures clash { IsTrue result ↔ FactsClashIn closure.new }
    ensures none { result ≡ false → closure.new.clash ≡ None }
{
    if same {
        return closure.add_same(left, right).is_err();
    }
    closure.add_apart(left, right).is_err()
}

/// Asserts a fact; whether what was asserted clashes then.
fn assert_fact(closure: &mut Closure, fact: &Literal) -> bool
    requires of_table { IsOfTable closure.old.table fact.now }
    requires no_clash { closure.old.clash ≡ None }
    ensures added { AddsLiteral closure.old closure.new fact.now }
    ensures clash { IsTrue result ↔ FactsClashIn closure.new }
    ensures none { result ≡ false → closure.new.clash ≡ None }
{
    closure.known();
    let left_no = closure.term(fact.left()).unwrap();
    let right_no = closure.term(fact.right()).unwrap();
    assert_terms(closure, left_no, right_no, fact.says_same())
}

/// Asserts the literals of a problem; whether they clash.
fn assert_all(closure: &mut Closure, problem: &Problem) -> bool
    requires fits { Fits closure.old.table.shape problem.now }
    requires none { HasFirst closure.old.table.shape problem.now 0 closure.old }
    ensures clash { OnTrue result (FactsClash closure.old.table.shape.schema problem.now.literals) }
    ensures all { OnFalse result (IsClosureOf closure.old.table.shape problem.now closure.new) }
{
    for fact in problem.literals.as_slice() {
        if assert_fact(closure, fact) {
            return true;
        }
    }
    false
}

impl Closure {
    /// The closure of a problem's literals; none where they clash. The problem fits the shape.
    pub fn of(
        alloc: Global,
        shape: &Shape,
        problem: &Problem,
    ) -> Result<Option<Closure>, AllocError>
        requires { Fits shape.now problem.now }
        ensures { IfOk result (λ o. MatchOption o (FactsClash shape.now.schema problem.now.literals) (IsClosureOf shape.now problem.now)) }
    {
        let mut closure = Closure::with(alloc, shape, problem)?;
        if assert_all(&mut closure, problem) {
            return Ok(None);
        }
        Ok(Some(closure))
    }
}
