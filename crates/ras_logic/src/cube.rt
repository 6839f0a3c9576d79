ghost use Rattle.std.specs.Prelude.{◌≡◌, ◌↔◌, ◌≤◌, length, IsTrue, IfOk, IfErr, OnOk, IfNone, IfSome, [], All};
ghost use Rattle.ras_logic.specs.Formulas.{IsCube, IsNoParam, HasNoParam};
ghost use Rattle.ras_logic.specs.Places.{IsFirstBad};
ghost use Rattle.ras_logic.specs.CubeFaults.{IsCubeFault};

use crate::cube_fault::CubeFault;
use crate::ids::RelId;
use crate::literal::Literal;
use crate::plain::Plain;
use crate::problem::Problem;
use crate::seq::{List, Rows};
use crate::term::Base;
use std::alloc::{AllocError, Global};
use std::marker::Model;

/// A problem without data parameters.
#[derive(Debug, Drop)]
pub struct Cube {
    rows: Rows,
    literals: List<Literal>,
}

impl Model for Cube {
    ghost use Rattle.std.specs.Prelude.{[], All};
    ghost use Rattle.ras_logic.specs.declared.problem.Problem.{Problem};

    ghost Value = { Problem };

    ghost use Rattle.ras_logic.specs.Formulas.{HasNoParam};

    ghost view = { λ c. record { rows = c.rows; params = []; literals = c.literals } };

    ghost invariant = { λ c. All HasNoParam c.literals };
}

impl Cube {
    /// A cube, or the first literal that names a data parameter. It takes no memory.
    pub fn new(rows: Rows, literals: List<Literal>) -> Result<Cube, CubeFault>
        ensures value { IfOk result (λ c. c ≡ record { rows = rows; params = []; literals = literals }) }
        ensures none { OnOk result (All HasNoParam literals) }
        ensures fault { IfErr result (IsCubeFault literals) }
    {
        match first_with_param(literals.as_slice()) {
            Some(literal) => Err(CubeFault::Param { literal }),
            None => Ok(Cube { rows, literals }),
        }
    }

    /// What every cube is.
    pub fn known(&self)
        ensures cube { IsCube self.now }
        ensures rows { length self.now.rows ≤ 65535 }
        ensures literals { length self.now.literals ≤ 4294967295 }
    {
        // their contracts say how long the lists are at most
        let _rows = self.rows.len();
        let _literals = self.literals.len();
    }

    pub fn rows(&self) -> &[RelId]
        ensures { result.now ≡ self.now.rows }
    {
        self.rows.as_slice()
    }

    pub fn literals(&self) -> &[Literal]
        ensures { result.now ≡ self.now.literals }
    {
        self.literals.as_slice()
    }

    /// The same rows and literals, with no data parameters.
    pub fn problem(&self, alloc: Global) -> Result<Problem, AllocError>
        ensures { IfOk result (λ p. p ≡ self.now) }
    {
        Ok(Problem {
            rows: self.rows.copy(alloc)?,
            params: List::new(alloc),
            literals: self.literals.copy(alloc)?,
        })
    }
}

impl Plain for Cube {
    fn copy(&self, alloc: Global) -> Result<Cube, AllocError> {
        Ok(Cube {
            rows: self.rows.copy(alloc)?,
            literals: self.literals.copy(alloc)?,
        })
    }

    fn equal(&self, other: &Cube) -> bool {
        self.rows.equal(&other.rows) && self.literals.equal(&other.literals)
    }
}

/// Whether a base is no data parameter.
fn is_no_param(base: Base) -> bool
    ensures { IsTrue result ↔ IsNoParam base }
{
    match base {
        Base::Param(_) => false,
        _ => true,
    }
}

/// Whether a literal names no data parameter.
fn has_no_param(literal: &Literal) -> bool
    ensures { IsTrue result ↔ HasNoParam literal.now }
{
    match literal {
        Literal::Equal { left, right, .. } => is_no_param(left.base) && is_no_param(right.base),
    }
}

/// The place of the first literal that names a data parameter.
fn first_with_param(literals: &[Literal]) -> Option<u32>
    requires { length literals.now ≤ 4294967295 }
    ensures none { IfNone result (All HasNoParam literals.now) }
    ensures first { IfSome result (IsFirstBad HasNoParam literals.now) }
{
    for (place, literal) in literals.iter().enumerate() {
        if !has_no_param(literal) {
            return Some(place as u32);
        }
    }
    None
}
