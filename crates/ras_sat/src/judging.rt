ghost use Rattle.std.specs.Prelude.{IfOk};
ghost use Rattle.ras_closure.specs.Closings.{IsClosureOf};
ghost use Rattle.ras_sat.specs.Tasks.{IsTask};
ghost use Rattle.ras_sat.specs.Verdicts.{IsCase, IsVerdict};

use crate::choice::choose;
use crate::task::Task;
use crate::verdict::Verdict;
use ras_closure::Closure;
use ras_known::{Known, all_apart};
use ras_logic::Problem;
use std::alloc::{AllocError, Global};

/// What is so of facts that do not clash.
fn judge_by(
    alloc: Global,
    task: &Task<'_>,
    facts: &Problem,
    closure: &Closure,
) -> Result<Verdict, AllocError>
    requires task { IsTask task.now }
    requires facts { IsCase task.now facts.now }
    requires closure { IsClosureOf task.now.shape.now facts.now closure.now }
    ensures { IfOk result (IsVerdict task.now facts.now.literals) }
{
    task.shape.known();
    let model = closure.model(alloc)?;
    // what is known only guides the order of splits
    let apart = all_apart(alloc, task.shape, facts, closure)?;
    let known = Known {
        shape: task.shape,
        premise: facts,
        closure,
        apart: &apart,
    };
    match choose(task, &known, &model) {
        None => Ok(Verdict::Escape(model)),
        Some(instance) => Ok(Verdict::Open(instance)),
    }
}

/// What is so of the facts of a case.
pub fn judge(alloc: Global, task: &Task<'_>, facts: &Problem) -> Result<Verdict, AllocError>
    requires task { IsTask task.now }
    requires facts { IsCase task.now facts.now }
    ensures { IfOk result (IsVerdict task.now facts.now.literals) }
{
    match Closure::of(alloc, task.shape, facts)? {
        None => Ok(Verdict::Clash),
        Some(closure) => judge_by(alloc, task, facts, &closure),
    }
}
