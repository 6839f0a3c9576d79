ghost use Rattle.std.specs.Prelude.{◌≡◌, ◌<◌, length, slice_get, Some, IfOk, IfErr};
ghost use Rattle.ras_system.specs.Systems.{IsSystem};
ghost use Rattle.ras_system.specs.SystemFaults.{HasSystemLimits, first_fault};

use crate::checks::check_system;
use crate::system_fault::SystemFault;
use crate::transition::Transition;
use ras_logic::{ConstId, Cube, List, Plain, Shape, VarId};
use std::alloc::{AllocError, Global};
use std::marker::Model;

/// A relational artifact system: a shape, the initial constants, the transitions and the goals.
#[derive(Debug, Drop)]
pub struct System {
    shape: Shape,
    initial: List<Option<ConstId>>,
    transitions: List<Transition>,
    goals: List<Cube>,
}

impl Model for System {
    ghost use Rattle.ras_system.specs.Systems.{SystemParts, IsSystem};
    ghost use Rattle.ras_system.specs.SystemFaults.{HasSystemLimits};

    ghost Value = { SystemParts };

    ghost view = { λ s. record { shape = s.shape; initial = s.initial; transitions = s.transitions; goals = s.goals } };

    ghost invariant = { λ s. IsSystem (record { shape = s.shape; initial = s.initial; transitions = s.transitions; goals = s.goals })
        × HasSystemLimits (record { shape = s.shape; initial = s.initial; transitions = s.transitions; goals = s.goals }) };
}

impl System {
    /// A system: an initial constant or none for each variable, at most 256 transitions and 64 goals, each within its
    /// limits; or the first fault. It takes no memory.
    pub fn new(
        shape: Shape,
        initial: List<Option<ConstId>>,
        transitions: List<Transition>,
        goals: List<Cube>,
    ) -> Result<System, SystemFault>
        ensures value { IfOk result (λ s. s ≡ record { shape = shape; initial = initial; transitions = transitions; goals = goals }) }
        ensures system { IfOk result IsSystem }
        ensures limits { IfOk result HasSystemLimits }
        ensures fault { IfErr result (λ f. first_fault (record { shape = shape; initial = initial; transitions = transitions; goals = goals }) ≡ Some f) }
    {
        shape.known();
        check_system(
            &shape,
            initial.as_slice(),
            transitions.as_slice(),
            goals.as_slice(),
        )?;
        Ok(System {
            shape,
            initial,
            transitions,
            goals,
        })
    }

    /// What `System::new` found to hold.
    pub fn known(&self)
        ensures system { IsSystem self.now }
        ensures limits { HasSystemLimits self.now }
    {
        let _ = &self.goals;
    }

    pub fn shape(&self) -> &Shape
        ensures { result.now ≡ self.now.shape }
    {
        &self.shape
    }

    /// The declared initial constant of a variable, if there is one.
    pub fn initial_of(&self, var: VarId) -> Option<ConstId>
        requires { var.n < length self.now.initial }
        ensures { slice_get self.now.initial var.n ≡ Some result }
    {
        self.initial.as_slice()[var.n as usize]
    }

    pub fn transitions(&self) -> &[Transition]
        ensures { result.now ≡ self.now.transitions }
    {
        self.transitions.as_slice()
    }

    pub fn goals(&self) -> &[Cube]
        ensures { result.now ≡ self.now.goals }
    {
        self.goals.as_slice()
    }
}

impl Plain for System {
    fn copy(&self, alloc: Global) -> Result<System, AllocError> {
        Ok(System {
            shape: self.shape.copy(alloc)?,
            initial: self.initial.copy(alloc)?,
            transitions: self.transitions.copy(alloc)?,
            goals: self.goals.copy(alloc)?,
        })
    }

    fn equal(&self, other: &System) -> bool {
        self.shape.equal(&other.shape)
            && self.initial.equal(&other.initial)
            && self.transitions.equal(&other.transitions)
            && self.goals.equal(&other.goals)
    }
}
