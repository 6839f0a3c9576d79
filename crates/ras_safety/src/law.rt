ghost use Rattle.std.specs.Prelude.{◌≡◌, List};
ghost use Rattle.ras_logic.specs.declared.problem.Problem.{Problem};
ghost use Rattle.ras_logic.specs.declared.tree.Tree.{Tree};
ghost use Rattle.ras_system.specs.Systems.{SystemParts};
ghost use Rattle.ras_system.specs.Evidence.{IsGoodSafe};
ghost use Rattle.ras_safety.specs.declared.safe_fault.SafeFault.{SafeFault};
ghost use Rattle.ras_safety.specs.Faults.{IsSafeFault};

use ras_refute::a_fault_is_no_closing;

/// An evidence of safety with a fault is not good.
pub fn a_fault_is_not_good()
    ensures { (system : SystemParts) (formulas : List Problem) (trees : List Tree) (fault : SafeFault)
        → IsSafeFault system formulas trees fault → ¬ IsGoodSafe system formulas trees }
{
    a_fault_is_no_closing();
}

/// No two faults of an evidence of safety are the first.
pub fn the_first_fault_is_one()
    ensures { (system : SystemParts) (formulas : List Problem) (trees : List Tree) (fault other : SafeFault)
        → IsSafeFault system formulas trees fault → IsSafeFault system formulas trees other → fault ≡ other }
{
    a_fault_is_no_closing();
    ras_refute::the_first_fault_is_one();
}
