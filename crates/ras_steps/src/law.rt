ghost use Rattle.std.specs.Prelude.{◌≡◌};
ghost use Rattle.ras_logic.specs.declared.raw_db.RawDb.{RawDb};
ghost use Rattle.ras_system.specs.declared.state.State.{State};
ghost use Rattle.ras_system.specs.declared.choice.Choice.{Choice};
ghost use Rattle.ras_system.specs.Systems.{SystemParts};
ghost use Rattle.ras_system.specs.Steps.{IsStep};
ghost use Rattle.ras_steps.specs.declared.step_fault.StepFault.{StepFault};
ghost use Rattle.ras_steps.specs.StepFaults.{IsStepFault};
ghost use Rattle.ras_steps.specs.ReplayFaults.{IsMemory};

/// A fault other than want of memory comes only where there is no step by the choice.
pub fn a_fault_is_no_step()
    ensures { (system : SystemParts) (d : RawDb) (s : State) (c : Choice) (fault : StepFault) → IsStepFault system d s c fault → ¬ IsMemory fault
        → (next : State) → ¬ IsStep system d s c next }
{}

/// Where there is no step by the choice, it has a first fault other than want of memory.
pub fn no_step_has_a_fault()
    ensures { (system : SystemParts) (d : RawDb) (s : State) (c : Choice) → ((next : State) → ¬ IsStep system d s c next)
        → (fault : StepFault) × IsStepFault system d s c fault × (¬ IsMemory fault) }
{}

/// Memory is wanting only where there is a step.
pub fn a_want_of_memory_is_a_step()
    ensures { (system : SystemParts) (d : RawDb) (s : State) (c : Choice) (fault : StepFault) → IsStepFault system d s c fault → IsMemory fault
        → (next : State) × IsStep system d s c next }
{}

/// No two faults other than want of memory are the first.
pub fn the_first_fault_is_one()
    ensures { (system : SystemParts) (d : RawDb) (s : State) (c : Choice) (fault other : StepFault) → IsStepFault system d s c fault → IsStepFault system d s c other
        → ¬ IsMemory fault → ¬ IsMemory other → fault ≡ other }
{}
