ghost use Rattle.std.specs.Prelude.{◌∷◌, ◌++◌, [], length};
ghost use Rattle.std.specs.List.{flat_map};
ghost use Rattle.ras_syntax.specs.Machine as m;
ghost use Rattle.ras_syntax.specs.Places as places;
ghost use Rattle.ras_syntax.specs.Reading.{Moves, Took};

use crate::fault::ReadError;
use crate::reader::Reader;
use crate::tree::{
    AndLiteral, Base, Call, Comparison, Conjunction, Guard, Literal, OrConjunction, Term,
};
use ras_lexer::Fixed;
use std::alloc::Global;

/// The front of a term: a call round the rest of it, or its base.
#[derive(Clone, Copy)]
pub(crate) enum Front {
    Outer(Call),
    Last(Base),
}

/// Terms, literals, conjunctions and guards.
impl<'a> Reader<'a> {
    #[tactic(auto, using(crate::proofs::Skips::no_front, crate::proofs::Skips::no_tail))]
    fn front(&mut self) -> Result<Front, ReadError>
        ensures reads { Moves (m.term ∷ []) self.old.rest.now self.new.rest.now (λ x. places.front_left x)
            result }
        ensures took { Took self.old.rest.now self.new.rest.now (λ x. places.of_front x) result }
    {
        if let Some(at) = self.eat(Fixed::Undef) {
            return Ok(Front::Last(Base::Undef(at)));
        }
        let Some(name) = self.eat_name() else {
            return Err(ReadError::Fault(self.rest.len()));
        };
        if let Some(open) = self.eat(Fixed::OpenParen) {
            let function = name;
            return Ok(Front::Outer(Call { function, open }));
        }
        if let Some(dot) = self.eat(Fixed::Dot) {
            let column = self.name()?;
            return Ok(Front::Last(Base::Cell(name, dot, column)));
        }
        Ok(Front::Last(Base::Plain(name)))
    }

    #[tactic(auto, using(crate::proofs::Loops::closes_more, std::proofs::lemmas::Grind::common_steps))]
    fn fronts(&mut self, alloc: Global) -> Result<(Vec<Call>, Base), ReadError>
        ensures reads { Moves (m.term ∷ []) self.old.rest.now self.new.rest.now
            (λ x. m.closes (length x.0.items)) result }
        ensures took { Took self.old.rest.now self.new.rest.now
            (λ x. flat_map places.of_call x.0.items ++ places.of_base x.1) result }
    {
        let mut calls = Vec::new(alloc);
        loop {
            match self.front()? {
                Front::Outer(call) => calls.push(call)?,
                Front::Last(base) => return Ok((calls, base)),
            }
        }
    }

    #[tactic(auto, using(crate::proofs::Loops::closes_left, std::proofs::lemmas::Grind::common_steps))]
    fn closes(&mut self, alloc: Global, count: usize) -> Result<Vec<u32>, ReadError>
        ensures reads { Moves (m.closes count) self.old.rest.now self.new.rest.now (λ x. []) result }
        ensures took { Took self.old.rest.now self.new.rest.now (λ x. flat_map places.of_close x.items)
            result }
    {
        let mut places = Vec::new(alloc);
        for _ in 0..count {
            let at = self.expect(Fixed::CloseParen)?;
            places.push(at)?;
        }
        Ok(places)
    }

    /// Reads a term, in a loop.
    pub fn term(&mut self, alloc: Global) -> Result<Term, ReadError>
        ensures reads { Moves (m.term ∷ []) self.old.rest.now self.new.rest.now (λ x. []) result }
        ensures took { Took self.old.rest.now self.new.rest.now (λ x. places.of_term x) result }
    {
        let (calls, base) = self.fronts(alloc)?;
        let closes = self.closes(alloc, calls.len())?;
        Ok(Term {
            calls,
            base,
            closes,
        })
    }

    #[tactic(auto, using(crate::proofs::Skips::no_comparison))]
    fn comparison(&mut self) -> Result<(u32, Comparison), ReadError>
        ensures reads { Moves (m.comparison ∷ []) self.old.rest.now self.new.rest.now (λ x. []) result }
        ensures took { Took self.old.rest.now self.new.rest.now
            (λ x. places.at x.0 (places.of_comparison x.1) ∷ []) result }
    {
        if let Some(at) = self.eat(Fixed::Equal) {
            return Ok((at, Comparison::Equal));
        }
        match self.eat(Fixed::NotEqual) {
            Some(at) => Ok((at, Comparison::NotEqual)),
            None => Err(ReadError::Fault(self.rest.len())),
        }
    }

    fn literal(&mut self, alloc: Global) -> Result<Literal, ReadError>
        ensures reads { Moves (m.term ∷ m.comparison ∷ m.term ∷ []) self.old.rest.now self.new.rest.now
            (λ x. []) result }
        ensures took { Took self.old.rest.now self.new.rest.now (λ x. places.of_literal x) result }
    {
        let left = self.term(alloc)?;
        let (at, comparison) = self.comparison()?;
        let right = self.term(alloc)?;
        Ok(Literal {
            left,
            at,
            comparison,
            right,
        })
    }

    #[tactic(auto, using(crate::proofs::Skips::no_ands, std::proofs::lemmas::Grind::common_steps))]
    fn ands(&mut self, alloc: Global) -> Result<Vec<AndLiteral>, ReadError>
        ensures reads { Moves (m.ands ∷ []) self.old.rest.now self.new.rest.now (λ x. []) result }
        ensures took { Took self.old.rest.now self.new.rest.now (λ x. flat_map places.of_and x.items) result }
    {
        let mut ands = Vec::new(alloc);
        while let Some(at) = self.eat(Fixed::And) {
            let literal = self.literal(alloc)?;
            ands.push(AndLiteral { at, literal })?;
        }
        Ok(ands)
    }

    /// Reads a conjunction.
    #[tactic(auto, using(crate::proofs::Skips::conjunction_is_literal))]
    pub fn conjunction(&mut self, alloc: Global) -> Result<Conjunction, ReadError>
        ensures reads { Moves (m.conjunction ∷ []) self.old.rest.now self.new.rest.now (λ x. []) result }
        ensures took { Took self.old.rest.now self.new.rest.now (λ x. places.of_conjunction x) result }
    {
        if let Some(at) = self.eat(Fixed::True) {
            return Ok(Conjunction::True(at));
        }
        let first = self.literal(alloc)?;
        let others = self.ands(alloc)?;
        Ok(Conjunction::All(first, others))
    }

    #[tactic(auto, using(crate::proofs::Skips::no_ors, std::proofs::lemmas::Grind::common_steps))]
    fn ors(&mut self, alloc: Global) -> Result<Vec<OrConjunction>, ReadError>
        ensures reads { Moves (m.ors ∷ []) self.old.rest.now self.new.rest.now (λ x. []) result }
        ensures took { Took self.old.rest.now self.new.rest.now (λ x. flat_map places.of_or x.items) result }
    {
        let mut ors = Vec::new(alloc);
        while let Some(at) = self.eat(Fixed::Or) {
            let conjunction = self.conjunction(alloc)?;
            ors.push(OrConjunction { at, conjunction })?;
        }
        Ok(ors)
    }

    /// Reads a guard.
    pub fn guard(&mut self, alloc: Global) -> Result<Guard, ReadError>
        ensures reads { Moves (m.conjunction ∷ m.ors ∷ []) self.old.rest.now self.new.rest.now (λ x. [])
            result }
        ensures took { Took self.old.rest.now self.new.rest.now (λ x. places.of_guard x) result }
    {
        let first = self.conjunction(alloc)?;
        let others = self.ors(alloc)?;
        Ok(Guard { first, others })
    }
}
