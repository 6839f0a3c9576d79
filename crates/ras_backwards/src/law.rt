ghost use Rattle.std.specs.Prelude.{◌≡◌, ℕ, List, ◌↔◌, All, slice_get, Some};
ghost use Rattle.ras_logic.specs.declared.problem.Problem.{Problem};
ghost use Rattle.ras_logic.specs.declared.raw_db.RawDb.{RawDb};
ghost use Rattle.ras_logic.specs.declared.tree.Tree.{Tree};
ghost use Rattle.ras_logic.specs.Shapes.{ShapeParts};
ghost use Rattle.ras_logic.specs.Formulas.{Fits, IsCube};
ghost use Rattle.ras_system.specs.declared.state.State.{State};
ghost use Rattle.ras_system.specs.declared.transition.Transition.{Transition};
ghost use Rattle.ras_system.specs.States.{IsState, Meets, MeetsAny};
ghost use Rattle.ras_system.specs.Systems.{SystemParts, IsSystem, IsTransition};
ghost use Rattle.ras_system.specs.Runs.{IsSafe};
ghost use Rattle.ras_system.specs.Invariants.{IsInvariant};
ghost use Rattle.ras_system.specs.Evidence.{IsGoodSafe};
ghost use Rattle.ras_system.specs.Preimages.{preimage};
ghost use Rattle.ras_backwards.specs.Leading.{LeadsBy, LeadsIn, LeadsByChoice, choice_by};

/// The list of a preimage is exact: in every database, a state has a step by the transition to a state that meets the cube
/// exactly where it meets a problem of the list. It is so for a transition of a shape, and by its number in a system.
pub fn a_preimage_is_exact()
    ensures transition { (shape : ShapeParts) (t : Transition) (cube : Problem) (d : RawDb) (s : State) → IsTransition shape t → Fits shape cube
        → IsCube cube → IsState shape d s → (LeadsBy d s t cube ↔ MeetsAny d s (preimage t cube)) }
    ensures system { (system : SystemParts) (number : ℕ) (t : Transition) (cube : Problem) (d : RawDb) (s : State) → IsSystem system
        → slice_get system.transitions number ≡ Some t → Fits system.shape cube → IsCube cube → IsState system.shape d s
        → (LeadsIn system d s number cube ↔ MeetsAny d s (preimage t cube)) }
{}

/// Where a state meets a problem of a preimage, the first of the rows by which it does, and the data parameters, are the choice
/// of a step to a state that meets the cube.
pub fn a_problem_gives_its_step()
    ensures { (system : SystemParts) (number : ℕ) (t : Transition) (cube p : Problem) (d : RawDb) (s : State) (place : ℕ) → IsSystem system
        → slice_get system.transitions number ≡ Some t → Fits system.shape cube → IsCube cube → IsState system.shape d s
        → slice_get (preimage t cube) place ≡ Some p → (m : Meets d s p) → LeadsByChoice system d s (choice_by number t m.0 m.1) cube }
{}

/// Each problem of a preimage fits the shape.
pub fn a_preimage_fits()
    ensures { (shape : ShapeParts) (t : Transition) (cube : Problem) → IsTransition shape t → Fits shape cube → IsCube cube
        → All (Fits shape) (preimage t cube) }
{}

/// The formulas of a good evidence of safety are an invariant.
pub fn a_good_evidence_has_an_invariant()
    ensures { (system : SystemParts) (formulas : List Problem) (trees : List Tree) → IsSystem system → IsGoodSafe system formulas trees
        → IsInvariant system formulas }
{}

/// A good evidence of safety suffices, with relations and data parameters too.
pub fn a_good_evidence_suffices()
    ensures { (system : SystemParts) (formulas : List Problem) (trees : List Tree) → IsSystem system → IsGoodSafe system formulas trees → IsSafe system }
{}
