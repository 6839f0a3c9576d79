ghost use Rattle.std.specs.Prelude.{All, IfOk};
ghost use Rattle.ras_logic.specs.Formulas.{Fits};
ghost use Rattle.ras_logic.specs.Clashes.{FactsClash};
ghost use Rattle.ras_logic.specs.Refutations.{Closes};
ghost use Rattle.ras_sat.specs.Instances.{IsInstance, IsByInstance};
ghost use Rattle.ras_sat.specs.Needed.{IsEachSplitNeeded};
ghost use Rattle.ras_sat.specs.Answers.{IfRefuted, IfModel, IsEscape, IsLoneLeaf};

use crate::decision::Decision;
use crate::instance::Instance;
use crate::opposites::all_opposites;
use crate::search::{Search, enter, leave};
use crate::step::Step;
use crate::task::Task;
use ras_logic::{Cube, Plain, Problem, Shape, Shared};
use std::alloc::{AllocError, Global};

/// Whether the premise can hold while each instance has a literal that does not: a model of that, or a tree that refutes the
/// premise by cases on the instances.
///
/// The premise and the formulas fit the shape. An instance names a formula of the list, and for each row of the formula in
/// order a row of the premise, of the same relation; no row is named twice. An instance may stand in the list more than once.
///
/// A premise that clashes alone gives a lone leaf. No split of a tree is idle: without the literal that the split adds for a
/// child, the child's tree does not close. Instances whose literals are known to hold, all or all but one, are split on
/// first, then those with the fewest literals; an instance that the facts falsify is never split on.
pub fn decide(
    alloc: Global,
    shape: &Shape,
    premise: &Problem,
    formulas: &[Shared<Cube>],
    instances: &[Instance],
) -> Result<Decision, AllocError>
    requires premise { Fits shape.now premise.now }
    requires formulas { All (Fits shape.now) formulas.now }
    requires instances { All (IsInstance premise.now.rows formulas.now) instances.now }
    ensures refuted { IfOk result (λ d. IfRefuted d (λ t. Closes shape.now.schema premise.now formulas.now t.nodes)) }
    ensures by_instances { IfOk result (λ d. IfRefuted d (λ t. All (IsByInstance instances.now) t.nodes)) }
    ensures needed { IfOk result (λ d. IfRefuted d (λ t. IsEachSplitNeeded shape.now.schema premise.now formulas.now t.nodes)) }
    ensures clashing { FactsClash shape.now.schema premise.now.literals → IfOk result IsLoneLeaf }
    ensures model { IfOk result (λ d. IfModel d (λ m. IsEscape shape.now premise.now formulas.now instances.now m.db m.values)) }
{
    let opposites = all_opposites(alloc, shape, premise, formulas, instances)?;
    let task = Task {
        shape,
        premise,
        formulas,
        instances,
        opposites: &opposites,
    };
    let mut search = Search {
        facts: premise.copy(alloc)?,
        open: Vec::new(alloc),
    };
    let mut step = Step::Enter;
    loop {
        step = match step {
            Step::Enter => enter(alloc, &task, &mut search)?,
            Step::Leave(tree) => match search.open.pop() {
                None => return Ok(Decision::Refuted(tree)),
                Some(split) => leave(alloc, &task, &mut search, split, tree)?,
            },
            Step::End(model) => return Ok(Decision::Model(model)),
        };
    }
}
