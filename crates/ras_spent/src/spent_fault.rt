ghost use Rattle.std.specs.Prelude.{◌≡◌};
ghost use Rattle.ras_spent.specs.declared.spent_fault.SpentError.TheVariants.{Memory};

use ras_database::DbFault;
use ras_steps::ReplayFault;
use std::alloc::AllocError;
use thiserror::Error;

/// What is wrong with an entry, in the order in which it is looked for.
#[derive(Clone, Copy, Debug, PartialEq, Eq, Error)]
pub enum EntryFault {
    /// The formula does not fit the system.
    #[error("the formula does not fit")]
    NotFitting,
    /// An initial state of some database meets the formula.
    #[error("an initial state meets the formula")]
    Initial,
    /// The numbers are no database of the system, with their first fault.
    #[error("no database: {0}")]
    Database(DbFault),
    /// The first state is none of the database.
    #[error("the first state does not fit")]
    StartNotFitting,
    /// The first state does not meet the entry's formula.
    #[error("the first state does not meet the formula")]
    Outside,
    /// The first of the formulas before that the first state meets.
    #[error("the first state meets formula {number}, which came before")]
    Earlier { number: u32 },
    /// The first step that is refused, which is never for want of memory.
    #[error("{0}")]
    Step(ReplayFault),
    /// The last state meets no goal.
    #[error("the last state is not unsafe")]
    EndNotUnsafe,
}

/// The first entry that is not good, with its first fault.
#[derive(Clone, Copy, Debug, PartialEq, Eq, Error)]
#[error("entry {entry}: {fault}")]
pub struct SpentFault {
    /// The number of the entry; that of the spill is the number of the entries before it.
    pub entry: u32,
    pub fault: EntryFault,
}

/// Why an evidence is not found to be good.
#[derive(Debug, Drop, Error)]
pub enum SpentError {
    #[error(transparent)]
    Fault(SpentFault),
    #[error(transparent)]
    Memory(AllocError),
}

impl From<AllocError> for SpentError {
    ghost from_gives = { λ error result. result ≡ Memory error };

    fn from(error: AllocError) -> SpentError {
        SpentError::Memory(error)
    }
}
