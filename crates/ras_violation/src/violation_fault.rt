ghost use Rattle.std.specs.Prelude.{◌≡◌};
ghost use Rattle.ras_violation.specs.declared.violation_fault.ViolationError.TheVariants.{Memory};

use ras_database::DbFault;
use ras_steps::ReplayFault;
use std::alloc::AllocError;
use thiserror::Error;

/// What is wrong with an evidence of a violation, in the order in which it is looked for.
#[derive(Clone, Copy, Debug, PartialEq, Eq, Error)]
pub enum ViolationFault {
    /// The numbers are no database of the system, with their first fault.
    #[error("no database: {0}")]
    Database(DbFault),
    /// The first state is none of the database.
    #[error("the first state does not fit")]
    StartNotFitting,
    /// The first state is no initial one.
    #[error("the first state is not initial")]
    StartNotInitial,
    /// The first step that is refused, which is never for want of memory.
    #[error("{0}")]
    Step(ReplayFault),
    /// The last state meets no goal.
    #[error("the last state is not unsafe")]
    EndNotUnsafe,
}

/// Why an evidence is not found to be a violation.
#[derive(Debug, Drop, Error)]
pub enum ViolationError {
    #[error(transparent)]
    Fault(ViolationFault),
    #[error(transparent)]
    Memory(AllocError),
}

impl From<AllocError> for ViolationError {
    ghost from_gives = { λ error result. result ≡ Memory error };

    fn from(error: AllocError) -> ViolationError {
        ViolationError::Memory(error)
    }
}
