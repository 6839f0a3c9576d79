ghost use Rattle.std.specs.Prelude.{◌≡◌, ◌⊎◌, List};
ghost use Rattle.ras_system.specs.Systems.{SystemParts};
ghost use Rattle.ras_evidence.specs.declared.value.Entry.{Entry};
ghost use Rattle.ras_spent.specs.declared.spent_fault.SpentFault.{SpentFault};
ghost use Rattle.ras_spent.specs.Entries.{IsGoodSpent};
ghost use Rattle.ras_spent.specs.EntryFaults.{IsSpentFault, HasSpentFault};

/// An evidence of a spent budget with a fault is not good.
pub fn a_fault_is_not_good()
    ensures { (system : SystemParts) (entries : List Entry) (spill : Entry) (fault : SpentFault)
        → IsSpentFault system entries spill fault → ¬ IsGoodSpent system entries spill }
{
    ras_database::a_fault_is_no_database();
    ras_steps::a_fault_is_no_step();
}

/// No two faults of an evidence of a spent budget are the first.
pub fn the_first_fault_is_one()
    ensures { (system : SystemParts) (entries : List Entry) (spill : Entry) (fault other : SpentFault)
        → IsSpentFault system entries spill fault → IsSpentFault system entries spill other → fault ≡ other }
{
    ras_database::a_fault_is_no_database();
    ras_database::the_first_fault_is_one();
    ras_steps::a_fault_is_no_step();
    ras_steps::the_first_fault_is_one();
}

/// No evidence of a spent budget is neither good nor has a first fault. Which of the two is so cannot be told without asking
/// whether an initial state of some database meets a formula.
pub fn no_evidence_is_without_a_verdict()
    ensures { (system : SystemParts) (entries : List Entry) (spill : Entry)
        → ¬ (¬ (IsGoodSpent system entries spill ⊎ HasSpentFault system entries spill)) }
{}
