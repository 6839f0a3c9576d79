ghost use Rattle.std.specs.Prelude.{◌≡◌, ◌<◌, ◌^◌, All, IfOk};
ghost use Rattle.ras_logic.specs.Literals.{left_of, right_of, same_of};
ghost use Rattle.ras_logic.specs.Formulas.{negated, replace};
ghost use Rattle.ras_logic.specs.Refutations.{chosen_row};

use crate::plain::Plain;
use crate::term::Term;
use std::alloc::{AllocError, Global};

/// That two terms of one sort are the same, or that they are not.
#[derive(Debug, Drop)]
pub enum Literal {
    Equal { left: Term, right: Term, same: bool },
}

impl Literal {
    /// The left side.
    pub fn left(&self) -> &Term
        ensures { result.now ≡ left_of self.now }
    {
        match self {
            Literal::Equal { left, .. } => left,
        }
    }

    /// The right side.
    pub fn right(&self) -> &Term
        ensures { result.now ≡ right_of self.now }
    {
        match self {
            Literal::Equal { right, .. } => right,
        }
    }

    /// Whether it says that its sides are the same.
    pub fn says_same(&self) -> bool
        ensures { result ≡ same_of self.now }
    {
        match self {
            Literal::Equal { same, .. } => *same,
        }
    }

    /// The literal that holds just where this one does not. It takes no memory.
    pub fn opposite(self) -> Literal
        ensures { result ≡ negated self }
    {
        match self {
            Literal::Equal { left, right, same } => Literal::Equal {
                left,
                right,
                same: !same,
            },
        }
    }

    /// The same literal of the chosen rows: the number at a row's place stands for the row.
    pub fn with_rows(&self, alloc: Global, chosen: &[u32]) -> Result<Literal, AllocError>
        requires { All (λ k. k < 2 ^ 16) chosen.now }
        ensures { IfOk result (λ l. l ≡ replace (chosen_row chosen.now) self.now) }
    {
        Ok(Literal::Equal {
            left: self.left().with_rows(alloc, chosen)?,
            right: self.right().with_rows(alloc, chosen)?,
            same: self.says_same(),
        })
    }
}

impl Plain for Literal {
    fn copy(&self, alloc: Global) -> Result<Self, AllocError> {
        match self {
            Literal::Equal { left, right, same } => Ok(Literal::Equal {
                left: left.copy(alloc)?,
                right: right.copy(alloc)?,
                same: *same,
            }),
        }
    }

    fn equal(&self, other: &Self) -> bool {
        match (self, other) {
            (
                Literal::Equal { left, right, same },
                Literal::Equal {
                    left: other_left,
                    right: other_right,
                    same: other_same,
                },
            ) => left.equal(other_left) && right.equal(other_right) && *same == *other_same,
        }
    }
}
