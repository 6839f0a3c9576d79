ghost use Rattle.std.specs.Prelude.{◌≡◌};
ghost use Rattle.ras_safety.specs.declared.safe_fault.SafetyError.TheVariants.{Memory};

use ras_refute::TreeFault;
use std::alloc::AllocError;
use thiserror::Error;

/// What is wrong with an evidence of safety, in the order in which it is looked for.
#[derive(Clone, Copy, Debug, PartialEq, Eq, Error)]
pub enum SafeFault {
    /// The first formula that does not fit the system.
    #[error("formula {number} does not fit")]
    Formula { number: u32 },
    /// There are not as many trees as obligations.
    #[error("a wrong number of trees")]
    Count,
    /// The first obligation that its tree does not close, with the tree's first fault.
    #[error("obligation {number}: {fault}")]
    Obligation { number: u32, fault: TreeFault },
}

/// Why an evidence is not found to be good.
#[derive(Debug, Drop, Error)]
pub enum SafetyError {
    #[error(transparent)]
    Fault(SafeFault),
    #[error(transparent)]
    Memory(AllocError),
}

impl From<AllocError> for SafetyError {
    ghost from_gives = { λ error result. result ≡ Memory error };

    fn from(error: AllocError) -> SafetyError {
        SafetyError::Memory(error)
    }
}
