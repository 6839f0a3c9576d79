ghost use Rattle.std.specs.Prelude.{◌≡◌, IfOk};
ghost use Rattle.ras_closure.specs.Closures.{IsClosure};
ghost use Rattle.ras_closure.specs.Numbered.{IsTable};
ghost use Rattle.ras_split.specs.Standing.{AreAllStanding};

use crate::standing::standing_terms;
use ras_closure::Closure;
use ras_logic::Term;
use std::alloc::{AllocError, Global};
use std::marker::Model;

/// What was asserted of the terms of a problem, and for each class a shortest term without data parameters that stands for
/// its terms, where there is one.
#[derive(Debug, Drop)]
pub struct Case {
    closure: Closure,
    standing: Vec<Option<Term>>,
}

impl Model for Case {
    ghost use Rattle.ras_split.specs.Standing.{CaseParts, AreAllStanding};

    ghost Value = { CaseParts };

    ghost view = { λ c. record { closure = c.closure; terms = c.standing.items } };

    ghost invariant = { λ c. AreAllStanding c.closure c.standing.items };
}

impl Case {
    /// The case of what a closure asserts.
    pub fn of(alloc: Global, closure: Closure) -> Result<Case, AllocError>
        ensures { IfOk result (λ c. c.closure ≡ closure) }
    {
        let standing = standing_terms(alloc, &closure)?;
        Ok(Case { closure, standing })
    }

    /// What every case keeps.
    pub fn known(&self)
        ensures table { IsTable self.now.closure.table }
        ensures closure { IsClosure self.now.closure }
        ensures standing { AreAllStanding self.now.closure self.now.terms }
    {
        self.closure.known();
    }

    /// What was asserted.
    pub fn closure(&self) -> &Closure
        ensures { result.now ≡ self.now.closure }
    {
        &self.closure
    }

    /// For each class what stands for its terms.
    pub fn standing(&self) -> &[Option<Term>]
        ensures { result.now ≡ self.now.terms }
    {
        self.standing.as_slice()
    }

    /// The closure, to assert more.
    pub fn into_closure(self) -> Closure
        ensures { result ≡ self.closure }
    {
        let Case { closure, .. } = self;
        closure
    }
}
