ghost use Rattle.std.specs.Prelude.{◌≡◌, ℕ, List, All};
ghost use Rattle.ras_logic.specs.declared.raw_db.RawDb.{RawDb};
ghost use Rattle.ras_logic.specs.Formulas.{IsCube};
ghost use Rattle.ras_system.specs.Systems.{SystemParts};
ghost use Rattle.ras_system.specs.Runs.{IsSafe};
ghost use Rattle.ras_steps.specs.declared.run.Run.{Run};
ghost use Rattle.ras_violation.specs.declared.violation_fault.ViolationFault.{ViolationFault};
ghost use Rattle.ras_violation.specs.Violations.{IsGoodViolation};
ghost use Rattle.ras_violation.specs.ViolationFaults.{IsViolationFault};
ghost use Rattle.ras_violation.specs.ReplayTexts.{IsReplayText};

/// An evidence with a fault is no violation.
pub fn a_fault_is_no_violation()
    ensures { (system : SystemParts) (d : RawDb) (run : Run) (fault : ViolationFault) → IsViolationFault system d run fault → ¬ IsGoodViolation system d run }
{
    ras_database::a_fault_is_no_database();
    ras_steps::a_fault_is_no_step();
}

/// An evidence that is no violation has a first fault.
pub fn no_violation_has_a_fault()
    ensures { (system : SystemParts) (d : RawDb) (run : Run) → (¬ IsGoodViolation system d run) → (fault : ViolationFault) × IsViolationFault system d run fault }
{
    ras_steps::a_fault_is_no_step();
}

/// No two faults are the first.
pub fn the_first_fault_is_one()
    ensures { (system : SystemParts) (d : RawDb) (run : Run) (fault other : ViolationFault) → IsViolationFault system d run fault → IsViolationFault system d run other
        → fault ≡ other }
{
    ras_database::the_first_fault_is_one();
    ras_database::a_fault_is_no_database();
    ras_steps::the_first_fault_is_one();
    ras_steps::a_fault_is_no_step();
}

/// A system with a violation is not safe.
pub fn a_violation_is_not_safe()
    ensures { (system : SystemParts) (d : RawDb) (run : Run) → IsGoodViolation system d run → ¬ IsSafe system }
{}

/// A violation has one text.
pub fn a_violation_has_one_text()
    ensures { (system : SystemParts) (d : RawDb) (run : Run) (text other : List ℕ) → All IsCube system.goals → IsReplayText system d run text → IsReplayText system d run other
        → text ≡ other }
{}
