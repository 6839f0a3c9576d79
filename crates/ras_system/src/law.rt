ghost use Rattle.std.specs.Prelude.{List, ◌≡◌, ◌↔◌, [], None, All};
ghost use Rattle.ras_logic.specs.declared.problem.Problem.{Problem};
ghost use Rattle.ras_logic.specs.declared.tree.Tree.{Tree};
ghost use Rattle.ras_logic.specs.Shapes.{IsShape};
ghost use Rattle.ras_logic.specs.Formulas.{IsCube};
ghost use Rattle.ras_system.specs.Systems.{SystemParts, IsSystem};
ghost use Rattle.ras_system.specs.SystemFaults.{HasSystemLimits, first_fault};
ghost use Rattle.ras_system.specs.Runs.{IsSafe};
ghost use Rattle.ras_system.specs.Invariants.{IsInvariant};
ghost use Rattle.ras_system.specs.Evidence.{IsGoodSafe};

/// A shape and cubes are without fault exactly where they make a system within the limits.
pub fn no_fault_is_first_exactly_in_a_system()
    ensures { (system : SystemParts) → IsShape system.shape → All IsCube system.goals
        → ((first_fault system ≡ None) ↔ (IsSystem system × HasSystemLimits system)) }
{}

/// An invariant suffices: a system that has one is safe.
pub fn an_invariant_suffices()
    ensures { (system : SystemParts) (formulas : List Problem) → IsSystem system → IsInvariant system formulas → IsSafe system }
{}

/// A good evidence of safety suffices, for a system without relations: its formulas are an invariant.
pub fn a_good_evidence_suffices()
    ensures { (system : SystemParts) (formulas : List Problem) (trees : List Tree) → IsSystem system → system.shape.relations ≡ []
        → IsGoodSafe system formulas trees → IsSafe system }
{}
