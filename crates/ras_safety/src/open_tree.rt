ghost use Rattle.std.specs.Prelude.{IfOk};
ghost use Rattle.ras_logic.specs.Trees.{IsWhole};
ghost use Rattle.ras_system.specs.Obligations.{with_formulas};
ghost use Rattle.ras_safety.specs.Judging.{JudgesNext};

use ras_logic::{Cube, Problem, Shared, Tree};
use ras_refute::{CloseError, TreeFault, closes};
use ras_system::System;
use std::alloc::{AllocError, Global};

/// An obligation that its tree does not close, with the tree's first fault.
#[derive(Clone, Copy)]
pub struct OpenTree {
    pub number: u32,
    pub fault: TreeFault,
}

/// The first of the obligations so far that its tree does not close: the one before, or that of this number, or none.
pub fn first_open(
    alloc: Global,
    system: &System,
    number: u32,
    before: Option<OpenTree>,
    premise: &Problem,
    formulas: &[Shared<Cube>],
    tree: &Tree,
) -> Result<Option<OpenTree>, AllocError>
    requires { IsWhole tree.now }
    ensures { IfOk result (JudgesNext system.now (with_formulas formulas.now premise.now) tree.now number before) }
{
    if let Some(first) = before {
        return Ok(Some(first));
    }
    match closes(alloc, system.shape(), premise, formulas, tree) {
        Ok(()) => Ok(None),
        Err(CloseError::Fault(fault)) => Ok(Some(OpenTree { number, fault })),
        Err(CloseError::Memory(error)) => Err(error),
    }
}
