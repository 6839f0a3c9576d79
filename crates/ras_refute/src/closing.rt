ghost use Rattle.std.specs.Prelude.{◌≡◌, reverse, IfOk, OnOk, IfErr};
ghost use Rattle.ras_logic.specs.Trees.{IsWhole};
ghost use Rattle.ras_logic.specs.Refutations.{Closes};
ghost use Rattle.ras_refute.specs.Faults.{IsTreeFault, OnFault};

use crate::tree_fault::CloseError;
use crate::walk::pass;
use ras_logic::{Cube, Literal, Plain, Problem, Shape, Shared, Tree};
use std::alloc::{AllocError, Global};

/// The literals of a premise, the first of them last: a fact that is added later stands behind it.
fn first_facts(alloc: Global, premise: &Problem) -> Result<Vec<Literal>, AllocError>
    ensures { IfOk result (λ v. v.items ≡ reverse premise.now.literals) }
{
    let mut facts = premise.literals.copy(alloc)?.into_vec();
    facts.reverse();
    Ok(facts)
}

/// Whether a whole tree refutes the premise by cases on the formulas, or its first fault. The law `a_closed_tree_is_sound`
/// of `ras_logic` says what a tree shows that does.
///
/// The root's facts are the premise's literals. A split names a formula by its place in the list, and for each row of the
/// formula in order a row of the premise, of the same relation; no row is named twice. It has a child for each literal of the
/// formula in order, whose facts are those of the split and the opposite of that literal, with the formula's rows replaced
/// by those named. The facts of a leaf clash. Neither the premise nor the formulas need fit the shape.
///
/// The fault is the first in preorder; at one node a formula that is not there comes before rows, and those before children.
/// Where memory runs out the answer says nothing of the tree.
pub fn closes(
    alloc: Global,
    shape: &Shape,
    premise: &Problem,
    formulas: &[Shared<Cube>],
    tree: &Tree,
) -> Result<(), CloseError>
    requires { IsWhole tree.now }
    ensures sound { OnOk result (Closes shape.now.schema premise.now formulas.now tree.now.nodes) }
    ensures fault { IfErr result (λ e. OnFault e (IsTreeFault shape.now.schema premise.now formulas.now tree.now.nodes)) }
    ensures refused { IfErr result (λ e. OnFault e (λ _. ¬ Closes shape.now.schema premise.now formulas.now tree.now.nodes)) }
{
    let mut facts = first_facts(alloc, premise)?;
    let mut splits = Vec::new(alloc);
    for (number, node) in tree.nodes.as_slice().iter().enumerate() {
        pass(
            alloc,
            shape.schema(),
            &premise.rows,
            formulas,
            number as u32,
            node,
            &mut facts,
            &mut splits,
        )?;
    }
    Ok(())
}
