ghost use Rattle.std.specs.Prelude.{◌≡◌, ◌↔◌, ◌<◌, ℕ, length, None, IsTrue, IsSome, IsErr, true, false, IfErr, IfOk, IfSome};
ghost use Rattle.ras_logic.specs.declared.literal.Literal.{Literal};
ghost use Rattle.ras_logic.specs.declared.term.Term.{Term};
ghost use Rattle.ras_logic.specs.Formulas.{Fits};
ghost use Rattle.ras_logic.specs.Clashes.{IsTerm};
ghost use Rattle.ras_closure.specs.Numbered.{IsAt, IsTable};
ghost use Rattle.ras_closure.specs.Classes.{class};
ghost use Rattle.ras_closure.specs.Closures.{ClosureParts, IsClosure, AreOfOneSort, Asserts, IsNo, IsFactOf, AreTogetherIn, FactsClashIn, HasNoModel, NamesConflict};
ghost use Rattle.ras_closure.specs.SmallModels.{IsModelOf, IsSmallFor};

use crate::clash::Clash;
use crate::classes::Classes;
use crate::marks::Marks;
use crate::model::{self, model_of};
use crate::room::Room;
use crate::saturation::{saturate, unite};
use crate::signatures::Signatures;
use crate::steps::Steps;
use crate::term_no::TermNo;
use crate::term_table::TermTable;
use ras_logic::{Problem, Shape, Term};
use std::alloc::{AllocError, Global};
use std::marker::Model;

/// The terms of a problem, what was asserted of them, and which of them are the same by it.
#[derive(Debug, Drop)]
pub struct Closure {
    table: TermTable,
    marks: Marks,
    classes: Classes,
    // what it holds is tested when it is read, so no contract speaks of it
    signatures: Signatures,
    clash: Option<Clash>,
    steps: Steps,
}

impl Model for Closure {
    ghost use Rattle.std.specs.Prelude.{◌≡◌, length};
    ghost use Rattle.ras_closure.specs.Closures.{ClosureParts, IsClosure};

    ghost Value = { ClosureParts };

    ghost view = { λ c. record { table = c.table; marks = c.marks; classes = c.classes; clash = c.clash } };

    ghost invariant = { λ c. IsClosure (record { table = c.table; marks = c.marks; classes = c.classes; clash = c.clash })
        × (c.signatures.width ≡ length c.table.terms) × (c.signatures.functions ≡ length c.table.shape.schema.functions) };
}

impl Closure {
    /// A closure over the terms of a problem that fits the shape, with their prefixes, every constant and every sort's
    /// undef. Nothing is asserted yet. All memory for later assertions is taken now: two bytes for each pair of terms, and
    /// four for each term and function. There may be at most 4,294,967,294 terms: more are refused as want of memory.
    pub fn with(alloc: Global, shape: &Shape, problem: &Problem) -> Result<Closure, AllocError>
        requires { Fits shape.now problem.now }
        ensures shape { IfOk result (λ c. c.table.shape ≡ shape.now) }
        ensures problem { IfOk result (λ c. c.table.problem ≡ problem.now) }
        ensures none { IfOk result (λ c. (l : Literal) → IsFactOf c l → ⊥) }
        ensures no_clash { IfOk result (λ c. c.clash ≡ None) }
    {
        let table = TermTable::new(alloc, shape, problem)?;
        table.known();
        let room = Room::new(alloc, &table)?;
        let Room {
            marks,
            mut classes,
            mut signatures,
        } = room;
        let mut steps = Steps { entries: 0 };
        let clash = saturate(
            &table,
            &marks,
            &mut classes,
            &mut signatures,
            &mut steps,
            None,
        );
        Ok(Closure {
            table,
            marks,
            classes,
            signatures,
            clash,
            steps,
        })
    }

    /// A closure with the same terms under the same numbers and the same assertions, in memory of its own.
    pub fn copy(&self, alloc: Global) -> Result<Closure, AllocError>
        ensures { IfOk result (λ c. c ≡ self.now) }
    {
        let marks = self.marks.copy()?;
        let classes = self.classes.copy()?;
        let signatures = Signatures::new(alloc, self.table.function_count(), self.table.len())?;
        let table = self.table.copy(alloc)?;
        Ok(Closure {
            table,
            marks,
            classes,
            signatures,
            clash: self.clash,
            steps: self.steps,
        })
    }

    /// What every closure keeps.
    pub fn known(&self)
        ensures table { IsTable self.now.table }
        ensures closure { IsClosure self.now }
    {
        self.table.known();
    }

    /// The terms, by number.
    pub fn table(&self) -> &TermTable
        ensures { result.now ≡ self.now.table }
    {
        &self.table
    }

    /// The number of a term; none where it is no term of `with`.
    pub fn term(&self, term: &Term) -> Option<TermNo>
        ensures known { IsSome result ↔ IsTerm self.now.table.shape.schema self.now.table.problem.literals term.now }
        ensures number { IfSome result (λ no. IsAt self.now.table.terms no.n term.now) }
        ensures within { IfSome result (IsNo self.now) }
    {
        self.table.known();
        let i = self.table.find(term)?;
        Some(TermNo { n: i })
    }

    /// Whether two terms have one sort, as an assertion of them requires.
    pub fn are_of_one_sort(&self, left: TermNo, right: TermNo) -> bool
        requires left { IsNo self.now left }
        requires right { IsNo self.now right }
        ensures { IsTrue result ↔ AreOfOneSort self.now left right }
    {
        let left_sort = self.table.sort(left.n as usize);
        let right_sort = self.table.sort(right.n as usize);
        left_sort == right_sort
    }

    /// The class of a term, as the number of a term in it: two terms have one class exactly where they are the same by what
    /// was asserted. A later assertion can change it.
    pub fn class_of(&self, term: TermNo) -> u32
        requires { IsNo self.now term }
        ensures class { result ≡ class self.now.classes term.n }
        ensures exact { (j : ℕ) (s t : Term) → IsAt self.now.table.terms term.n s → IsAt self.now.table.terms j t → (result ≡ class self.now.classes j) ↔ AreTogetherIn self.now s t }
    {
        self.known();
        self.classes.of(term.n as usize)
    }

    /// Whether two terms are the same by what was asserted.
    pub fn same(&self, left: TermNo, right: TermNo) -> bool
        requires left { IsNo self.now left }
        requires right { IsNo self.now right }
        ensures { (s t : Term) → IsAt self.now.table.terms left.n s → IsAt self.now.table.terms right.n t → IsTrue result ↔ AreTogetherIn self.now s t }
    {
        let left_class = self.class_of(left);
        let right_class = self.class_of(right);
        left_class == right_class
    }

    /// The clash that an assertion answered, if one did: the closure is spent then.
    pub fn clash(&self) -> Option<Clash>
        ensures { result ≡ self.now.clash }
    {
        self.clash
    }

    /// Adds the fact that two terms are the same, with all that follows from it.
    fn note_same(&mut self, left: TermNo, right: TermNo) -> Result<(), Clash>
        requires left { IsNo self.old left }
        requires right { IsNo self.old right }
        requires one_sort { AreOfOneSort self.old left right }
        ensures { Asserts self.old self.new true left right result }
    {
        if let Some(clash) = self.clash {
            return Err(clash);
        }
        self.table.known();
        self.marks.note(true, left.n as usize, right.n as usize);
        let clash = unite(
            &self.table,
            &self.marks,
            &mut self.classes,
            &mut self.signatures,
            &mut self.steps,
            left.n as usize,
            right.n as usize,
        );
        self.clash = clash;
        match clash {
            None => Ok(()),
            Some(clash) => Err(clash),
        }
    }

    /// Adds the fact that two terms are not the same.
    fn note_apart(&mut self, left: TermNo, right: TermNo) -> Result<(), Clash>
        requires left { IsNo self.old left }
        requires right { IsNo self.old right }
        requires one_sort { AreOfOneSort self.old left right }
        ensures { Asserts self.old self.new false left right result }
    {
        if let Some(earlier) = self.clash {
            return Err(earlier);
        }
        self.table.known();
        self.marks.note(false, left.n as usize, right.n as usize);
        let left_class = self.classes.of(left.n as usize);
        let right_class = self.classes.of(right.n as usize);
        if left_class == right_class {
            let clash = Clash { left, right };
            self.clash = Some(clash);
            return Err(clash);
        }
        Ok(())
    }

    /// How many entries of its tables the closure has looked at in all assertions.
    pub fn steps(&self) -> u64 {
        self.steps.entries
    }

    /// Asserts that two terms of one sort are the same. A clash comes exactly where nothing satisfies what was asserted
    /// with this; it names two terms that must be the same, and were asserted apart, or are two constants, or a constant
    /// and undef. After a clash the closure is spent: it takes no assertion, and answers the same clash. It takes no
    /// memory.
    pub fn add_same(&mut self, left: TermNo, right: TermNo) -> Result<(), Clash>
        requires left { IsNo self.old left }
        requires right { IsNo self.old right }
        requires one_sort { AreOfOneSort self.old left right }
        ensures asserted { Asserts self.old self.new true left right result }
        ensures no_model { IsErr result ↔ HasNoModel self.new }
        ensures facts_clash { IsErr result ↔ FactsClashIn self.new }
        ensures conflict { IfErr result (NamesConflict self.new) }
    {
        let answer = self.note_same(left, right);
        self.known();
        answer
    }

    /// Asserts that two terms of one sort are not the same, with the same answers.
    pub fn add_apart(&mut self, left: TermNo, right: TermNo) -> Result<(), Clash>
        requires left { IsNo self.old left }
        requires right { IsNo self.old right }
        requires one_sort { AreOfOneSort self.old left right }
        ensures asserted { Asserts self.old self.new false left right result }
        ensures no_model { IsErr result ↔ HasNoModel self.new }
        ensures facts_clash { IsErr result ↔ FactsClashIn self.new }
        ensures conflict { IfErr result (NamesConflict self.new) }
    {
        let answer = self.note_apart(left, right);
        self.known();
        answer
    }

    /// A small model of what was asserted: one element for each class of its sort other than undef's, and one more in a
    /// sort where an image under a total function is missing. Condition: there is no clash.
    pub fn model(&self, alloc: Global) -> Result<model::Model, AllocError>
        requires { self.now.clash ≡ None }
        ensures model { IfOk result (λ m. IsModelOf self.now m.db m.values) }
        ensures small { IfOk result (λ m. IsSmallFor self.now m.db m.values) }
    {
        self.table.known();
        let model = model_of(alloc, &self.table, &self.classes)?;
        Ok(model)
    }
}
