ghost use Rattle.std.specs.Prelude.{List, All};
ghost use Rattle.ras_logic.specs.declared.problem.Problem.{Problem};
ghost use Rattle.ras_logic.specs.declared.tree.Tree.{Tree};
ghost use Rattle.ras_system.specs.Systems.{SystemParts, IsSystem};
ghost use Rattle.ras_system.specs.Obligations.{obligations};
ghost use Rattle.ras_system.specs.Evidence.{IsGoodSafe};
ghost use Rattle.ras_certify.specs.Holding.{ObligationHolds};

/// Where an evidence of safety is good, its obligations hold: what is asked for a certificate is no more than there must be.
pub fn good_evidence_has_obligations_that_hold()
    ensures { (system : SystemParts) (formulas : List Problem) (trees : List Tree) → IsSystem system → IsGoodSafe system formulas trees
        → All (ObligationHolds system.shape) (obligations system formulas) }
{
    ras_backwards::a_preimage_fits();
}
