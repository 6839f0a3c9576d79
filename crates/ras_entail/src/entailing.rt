ghost use Rattle.std.specs.Prelude.{◌≡◌, ◌≤◌, [], ◌∷◌, length, All, IfOk};
ghost use Rattle.ras_logic.specs.declared.tree.Node.TheVariants.{Leaf};
ghost use Rattle.ras_logic.specs.Formulas.{Fits};
ghost use Rattle.ras_known.specs.Knowledge.{IsKnown};
ghost use Rattle.ras_entail.specs.Entails.{IsEntailment};

use crate::entail::Entail;
use crate::scanning::{are_cubes, instances_of};
use crate::witnesses::witness_of;
use ras_closure::Closure;
use ras_known::{Known, all_apart};
use ras_logic::{Cube, List, Node, Problem, Shape, Shared, Tree};
use ras_sat::{Decision, decide};
use std::alloc::{AllocError, Global};

/// A tree of one node, a leaf.
fn leaf(alloc: Global) -> Result<Tree, AllocError>
    ensures { IfOk result (λ t. t.nodes ≡ Leaf ∷ []) }
{
    let mut nodes = List::new(alloc);
    nodes.push(Node::Leaf)?;
    Ok(Tree { nodes })
}

/// Whether the states of a premise that does not clash are among those of a list of cubes.
fn entails_by(alloc: Global, known: &Known<'_>, list: &[Shared<Cube>]) -> Result<Entail, AllocError>
    requires known { IsKnown known.now }
    requires list { All (Fits known.now.shape.now) list.now }
    requires few { length list.now ≤ 4294967295 }
    ensures { IfOk result (IsEntailment known.now.shape.now known.now.premise.now list.now) }
{
    let shape = known.shape;
    let premise = known.premise;
    shape.known();
    are_cubes(list);
    let instances = instances_of(alloc, known, list)?;
    match decide(alloc, shape, premise, list, instances.as_slice())? {
        Decision::Refuted(tree) => Ok(Entail::Yes(tree)),
        Decision::Model(model) => {
            let witness = witness_of(alloc, shape, premise, model)?;
            Ok(Entail::Escape(witness))
        }
    }
}

/// Whether the states of the premise are among those of a list of cubes: a tree that refutes the premise by cases on the
/// cubes, or a state with just the premise's rows that meets it and no cube of the list.
///
/// The closure of the premise is made once. A cube with more rows of a relation than the premise takes no memory, nor does
/// one of which a literal that names no row is known to fail. Where all literals of an instance are known to hold, the
/// tree is a single split.
pub fn entails(
    alloc: Global,
    shape: &Shape,
    premise: &Problem,
    list: &[Shared<Cube>],
) -> Result<Entail, AllocError>
    requires premise { Fits shape.now premise.now }
    requires list { All (Fits shape.now) list.now }
    requires few { length list.now ≤ 4294967295 }
    ensures { IfOk result (IsEntailment shape.now premise.now list.now) }
{
    shape.known();
    are_cubes(list);
    match Closure::of(alloc, shape, premise)? {
        None => Ok(Entail::Yes(leaf(alloc)?)),
        Some(closure) => {
            let apart = all_apart(alloc, shape, premise, &closure)?;
            let known = Known {
                shape,
                premise,
                closure: &closure,
                apart: &apart,
            };
            entails_by(alloc, &known, list)
        }
    }
}
