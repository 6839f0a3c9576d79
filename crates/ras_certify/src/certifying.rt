ghost use Rattle.std.specs.Prelude.{◌≤◌, length, All, IfOk};
ghost use Rattle.ras_logic.specs.Formulas.{Fits, IsCube};
ghost use Rattle.ras_system.specs.Obligations.{obligations};
ghost use Rattle.ras_system.specs.Evidence.{IsGoodSafe};
ghost use Rattle.ras_certify.specs.Holding.{ObligationHolds};

use ras_entail::{Entail, entails};
use ras_logic::{Cube, List, Problem, Shared, Tree};
use ras_obligations::{Halt, Visitor, visit_obligations};
use ras_system::System;
use std::alloc::{AllocError, Global};

/// The trees of the obligations so far.
#[derive(Drop)]
struct Certifier {
    trees: List<Tree>,
}

impl Visitor for Certifier {
    ghost use Rattle.std.specs.Prelude.{All};
    ghost use Rattle.std.specs.List.{AllZip};
    ghost use Rattle.ras_system.specs.Evidence.{ClosesObligation};
    ghost use Rattle.ras_certify.specs.Holding.{ObligationHolds};
    ghost use Rattle.ras_obligations.proofs.Fronts.{not_all_with_more};

    ghost Given = { Unit {0} };

    ghost given = { λ _. tt };

    ghost ready = { λ _. Unit {0} };

    ghost visited = { λ system certifier os. AllZip (ClosesObligation system) os certifier.trees };

    ghost barred = { λ system _ os. ¬ All (ObligationHolds system.shape) os };

    ghost bars_more = { λ system _ os more. not_all_with_more (ObligationHolds system.shape) os more };

    fn visit(
        &mut self,
        alloc: Global,
        system: &System,
        premise: &Problem,
        formulas: &[Shared<Cube>],
    ) -> Result<(), Halt> {
        match entails(alloc, system.shape(), premise, formulas)? {
            Entail::Yes(tree) => {
                self.trees.push(tree)?;
                Ok(())
            }
            Entail::Escape(_) => Err(Halt::Stopped),
        }
    }
}

/// What each formula of a list is: a cube.
fn are_cubes(formulas: &[Shared<Cube>])
    ensures { All IsCube formulas.now }
{
    for formula in formulas {
        formula.get().known();
    }
}

/// A tree for each obligation of the formulas, in order, which closes it. Obligations hold where the states of their premises
/// are among those of their formulas. There are fewer than 2^32 formulas, and each fits the system.
pub fn certify(
    alloc: Global,
    system: &System,
    formulas: &[Shared<Cube>],
) -> Result<List<Tree>, AllocError>
    requires few { length formulas.now ≤ 4294967295 }
    requires fit { All (Fits system.now.shape) formulas.now }
    requires hold { All (ObligationHolds system.now.shape) (obligations system.now formulas.now) }
    ensures { IfOk result (IsGoodSafe system.now formulas.now) }
{
    are_cubes(formulas);
    let mut certifier = Certifier {
        trees: List::new(alloc),
    };
    match visit_obligations(alloc, system, formulas, &mut certifier) {
        Ok(()) => Ok(certifier.trees),
        Err(Halt::Memory(error)) => Err(error),
        Err(Halt::Stopped) => unreachable!(),
    }
}
