ghost use Rattle.std.specs.Prelude.{◌≤◌, ◌∷◌, [], map, flat_map, length, All, OnOk, IfErr};
ghost use Rattle.ras_logic.specs.Formulas.{Fits};
ghost use Rattle.ras_system.specs.Obligations.{start_obligations, obligations, with_formulas, preimages as all_preimages};
ghost use Rattle.ras_obligations.specs.Visits.{Visits, Bars, OnStopped};

use crate::halt::Halt;
use crate::premises::initial_premise;
use ras_logic::{Cube, Problem, Shared};
use ras_preimage::pre;
use ras_system::System;
use std::alloc::Global;

/// What takes the obligations of a certificate one after the other: each is a premise, which is to be refuted by cases on formulas.
pub trait Visitor {
    ghost use Rattle.std.specs.Prelude.{◌≤◌, ◌∷◌, [], ◌++◌, List, length, All, OnOk, IfErr};
    ghost use Rattle.ras_logic.specs.Formulas.{Fits};
    ghost use Rattle.ras_system.specs.Systems.{SystemParts};
    ghost use Rattle.ras_system.specs.Obligations.{Obligation, with_formulas};
    ghost use Rattle.ras_obligations.specs.Visits.{Visits, Bars, OnStopped};

    ghost Given: { Type 0 };

    // what it was given, and keeps
    ghost given: { Self → Given };

    // what it asks of itself
    ghost ready: { Self → Type 0 };

    // it has visited these obligations of a system, in this order
    ghost visited: { SystemParts → Self → List Obligation → Type 0 };

    // why it stopped at one of these
    ghost barred: { SystemParts → Self → List Obligation → Type 0 };

    /// Takes the next obligation.
    fn visit(
        &mut self,
        alloc: Global,
        system: &System,
        premise: &Problem,
        formulas: &[Shared<Cube>],
    ) -> Result<(), Halt>
        requires ready { ready self.now }
        requires premise { Fits system.now.shape premise.now }
        requires formulas { All (Fits system.now.shape) formulas.now }
        requires few { length formulas.now ≤ 4294967295 }
        ensures ready { OnOk result (ready self.new) }
        ensures visited { OnOk result (Visits given (visited system.now) (with_formulas formulas.now premise.now ∷ []) self.old self.new) }
        ensures barred { IfErr result (λ h. OnStopped h (Bars given (visited system.now) (barred system.now) (with_formulas formulas.now premise.now ∷ []) self.old self.new)) };

    // what bars some obligations bars them with more
    ghost bars_more: { (system : SystemParts) (s : Self) (os more : List Obligation) → barred system s os → barred system s (os ++ more) };
}

/// Visits the formulas at the start, which no formula refutes.
fn visit_starts<V: Visitor>(
    alloc: Global,
    system: &System,
    formulas: &[Shared<Cube>],
    visitor: &mut V,
) -> Result<(), Halt>
    requires ready { V.ready visitor.now }
    requires fit { All (Fits system.now.shape) formulas.now }
    requires few { length formulas.now ≤ 4294967295 }
    ensures ready { OnOk result (V.ready visitor.new) }
    ensures visited { OnOk result (Visits V.given (V.visited system.now) (start_obligations system.now formulas.now) visitor.old visitor.new) }
    ensures barred { IfErr result (λ h. OnStopped h (Bars V.given (V.visited system.now) (V.barred system.now) (start_obligations system.now formulas.now) visitor.old visitor.new)) }
{
    for formula in formulas {
        let premise = initial_premise(alloc, system, formula.get())?;
        visitor.visit(alloc, system, &premise, &[])?;
    }
    Ok(())
}

/// Visits the goals.
fn visit_goals<V: Visitor>(
    alloc: Global,
    system: &System,
    formulas: &[Shared<Cube>],
    visitor: &mut V,
) -> Result<(), Halt>
    requires ready { V.ready visitor.now }
    requires fit { All (Fits system.now.shape) formulas.now }
    requires few { length formulas.now ≤ 4294967295 }
    ensures ready { OnOk result (V.ready visitor.new) }
    ensures visited { OnOk result (Visits V.given (V.visited system.now) (map (with_formulas formulas.now) system.now.goals) visitor.old visitor.new) }
    ensures barred { IfErr result (λ h. OnStopped h (Bars V.given (V.visited system.now) (V.barred system.now) (map (with_formulas formulas.now) system.now.goals) visitor.old visitor.new)) }
{
    system.known();
    for goal in system.goals() {
        let premise = goal.problem(alloc)?;
        visitor.visit(alloc, system, &premise, formulas)?;
    }
    Ok(())
}

/// Visits premises that the formulas refute.
fn visit_premises<V: Visitor>(
    alloc: Global,
    system: &System,
    premises: &[Problem],
    formulas: &[Shared<Cube>],
    visitor: &mut V,
) -> Result<(), Halt>
    requires ready { V.ready visitor.now }
    requires premises { All (Fits system.now.shape) premises.now }
    requires fit { All (Fits system.now.shape) formulas.now }
    requires few { length formulas.now ≤ 4294967295 }
    ensures ready { OnOk result (V.ready visitor.new) }
    ensures visited { OnOk result (Visits V.given (V.visited system.now) (map (with_formulas formulas.now) premises.now) visitor.old visitor.new) }
    ensures barred { IfErr result (λ h. OnStopped h (Bars V.given (V.visited system.now) (V.barred system.now) (map (with_formulas formulas.now) premises.now) visitor.old visitor.new)) }
{
    for premise in premises {
        visitor.visit(alloc, system, premise, formulas)?;
    }
    Ok(())
}

/// Visits the preimages of a formula, the list of a transition after that of another.
fn visit_preimages<V: Visitor>(
    alloc: Global,
    system: &System,
    formula: &Cube,
    formulas: &[Shared<Cube>],
    visitor: &mut V,
) -> Result<(), Halt>
    requires ready { V.ready visitor.now }
    requires formula { Fits system.now.shape formula.now }
    requires fit { All (Fits system.now.shape) formulas.now }
    requires few { length formulas.now ≤ 4294967295 }
    ensures ready { OnOk result (V.ready visitor.new) }
    ensures visited { OnOk result (Visits V.given (V.visited system.now) (map (with_formulas formulas.now) (all_preimages system.now formula.now)) visitor.old visitor.new) }
    ensures barred { IfErr result (λ h. OnStopped h (Bars V.given (V.visited system.now) (V.barred system.now) (map (with_formulas formulas.now) (all_preimages system.now formula.now)) visitor.old visitor.new)) }
{
    system.known();
    for number in 0..system.transitions().len() as u16 {
        let premises = pre(alloc, system, number, formula)?;
        visit_premises(alloc, system, premises.as_slice(), formulas, visitor)?;
    }
    Ok(())
}

/// Visits the preimages of each formula.
fn visit_steps<V: Visitor>(
    alloc: Global,
    system: &System,
    formulas: &[Shared<Cube>],
    visitor: &mut V,
) -> Result<(), Halt>
    requires ready { V.ready visitor.now }
    requires fit { All (Fits system.now.shape) formulas.now }
    requires few { length formulas.now ≤ 4294967295 }
    ensures ready { OnOk result (V.ready visitor.new) }
    ensures visited { OnOk result (Visits V.given (V.visited system.now) (map (with_formulas formulas.now) (flat_map (all_preimages system.now) formulas.now)) visitor.old visitor.new) }
    ensures barred { IfErr result (λ h. OnStopped h (Bars V.given (V.visited system.now) (V.barred system.now) (map (with_formulas formulas.now) (flat_map (all_preimages system.now) formulas.now)) visitor.old visitor.new)) }
{
    for formula in formulas {
        visit_preimages(alloc, system, formula.get(), formulas, visitor)?;
    }
    Ok(())
}

/// Hands each obligation of the formulas to the visitor, in order: first each formula at the start, then each goal, then each
/// preimage of each formula. The preimages of a formula under one transition are held at once, and no more.
pub fn visit_obligations<V: Visitor>(
    alloc: Global,
    system: &System,
    formulas: &[Shared<Cube>],
    visitor: &mut V,
) -> Result<(), Halt>
    requires ready { V.ready visitor.now }
    requires fit { All (Fits system.now.shape) formulas.now }
    requires few { length formulas.now ≤ 4294967295 }
    ensures visited { OnOk result (Visits V.given (V.visited system.now) (obligations system.now formulas.now) visitor.old visitor.new) }
    ensures barred { IfErr result (λ h. OnStopped h (Bars V.given (V.visited system.now) (V.barred system.now) (obligations system.now formulas.now) visitor.old visitor.new)) }
{
    visit_starts(alloc, system, formulas, visitor)?;
    visit_goals(alloc, system, formulas, visitor)?;
    visit_steps(alloc, system, formulas, visitor)
}
