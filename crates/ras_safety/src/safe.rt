ghost use Rattle.std.specs.Prelude.{◌≡◌, ◌<◌, ◌^◌, All, None, OnOk, IfErr, IfSome, IfNone, length};
ghost use Rattle.ras_logic.specs.Formulas.{Fits, IsCube};
ghost use Rattle.ras_logic.specs.Trees.{IsWhole};
ghost use Rattle.ras_system.specs.Evidence.{IsGoodSafe};
ghost use Rattle.ras_safety.specs.Faults.{IsFirstMisfit, IsSafeFault, OnFault};
ghost use Rattle.ras_safety.specs.Judging.{IsFoundBy};

use crate::judge::Judge;
use crate::open_tree::OpenTree;
use crate::safe_fault::{SafeFault, SafetyError};
use ras_logic::{Cube, Shared, Tree, cube_fits};
use ras_obligations::{Halt, visit_obligations};
use ras_system::System;
use std::alloc::Global;

/// The number of the first formula that does not fit.
fn first_misfit(system: &System, formulas: &[Shared<Cube>]) -> Option<u32>
    requires { length formulas.now < 2 ^ 32 }
    ensures none { IfNone result (All (Fits system.now.shape) formulas.now) }
    ensures cubes { IfNone result (All IsCube formulas.now) }
    ensures first { IfSome result (IsFirstMisfit system.now formulas.now) }
{
    for (number, formula) in formulas.iter().enumerate() {
        formula.get().known();
        if !cube_fits(system.shape(), formula.get()) {
            return Some(number as u32);
        }
    }
    None
}

/// What the judge of all trees found first.
fn found(judge: &Judge<'_>) -> Result<(), SafeFault>
    ensures closed { OnOk result ((judge.now.passed ≡ length judge.now.trees.now) × (judge.now.first ≡ None)) }
    ensures fault { IfErr result (IsFoundBy judge.now.trees.now judge.now.passed judge.now.first) }
{
    if judge.passed != judge.trees.len() {
        return Err(SafeFault::Count);
    }
    match judge.first {
        None => Ok(()),
        Some(OpenTree { number, fault }) => Err(SafeFault::Obligation { number, fault }),
    }
}

/// Whether an evidence of safety is good, or what is wrong with it first. There are fewer than 2^32 formulas and trees, and each
/// tree is whole. Each obligation is let go once its tree is judged.
pub fn check_safe(
    alloc: Global,
    system: &System,
    formulas: &[Shared<Cube>],
    trees: &[Tree],
) -> Result<(), SafetyError>
    requires few_formulas { length formulas.now < 2 ^ 32 }
    requires few_trees { length trees.now < 2 ^ 32 }
    requires whole { All IsWhole trees.now }
    ensures good { OnOk result (IsGoodSafe system.now formulas.now trees.now) }
    ensures fault { IfErr result (λ e. OnFault e (IsSafeFault system.now formulas.now trees.now)) }
{
    if let Some(number) = first_misfit(system, formulas) {
        return Err(SafetyError::Fault(SafeFault::Formula { number }));
    }
    let mut judge = Judge {
        trees,
        passed: 0,
        first: None,
    };
    match visit_obligations(alloc, system, formulas, &mut judge) {
        Ok(()) => found(&judge).map_err(SafetyError::Fault),
        Err(Halt::Stopped) => Err(SafetyError::Fault(SafeFault::Count)),
        Err(Halt::Memory(error)) => Err(SafetyError::Memory(error)),
    }
}
