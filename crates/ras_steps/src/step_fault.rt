ghost use Rattle.std.specs.Prelude.{◌≡◌};
ghost use Rattle.ras_steps.specs.declared.step_fault.StepFault.TheVariants.{Memory};

use std::alloc::AllocError;
use thiserror::Error;

/// Why there is no step by a choice, the first fault in the order of the variants. Each number is that of a parameter.
#[derive(Clone, Copy, Debug, PartialEq, Eq, Error)]
pub enum StepFault {
    /// The system has no transition of that number.
    #[error("no such transition")]
    NoTransition,
    /// The rows or the values are not as many as the parameters.
    #[error("a wrong number of rows or values")]
    WrongCount,
    /// The first row parameter whose relation has no row of the chosen number.
    #[error("no row for row parameter {row}")]
    RowOutside { row: u32 },
    /// The first row parameter that has the relation and the row of an earlier one, and that one.
    #[error("row parameter {second} repeats {first}")]
    RowRepeated { first: u32, second: u32 },
    /// The first data parameter whose value is no element of its sort.
    #[error("no element for data parameter {value}")]
    ValueOutside { value: u32 },
    /// No disjunct of the guard holds.
    #[error("the guard does not hold")]
    GuardFalse,
    /// There is a step, but no memory for the new state.
    #[error(transparent)]
    Memory(AllocError),
}

impl From<AllocError> for StepFault {
    ghost from_gives = { λ error result. result ≡ Memory error };

    fn from(error: AllocError) -> StepFault {
        StepFault::Memory(error)
    }
}
