ghost use Rattle.std.specs.Prelude.{◌≡◌, Err, alloc_error};
ghost use Rattle.ras_scope.specs.declared.fault.SpecError.TheVariants.{Fault, Memory};

use ras_names::{SpecFault, SpecKind};
use std::alloc::{AllocError, AllocFailed};
use thiserror::Error;

/// Why a tree denotes no system.
#[derive(Debug, Drop, Error)]
pub enum SpecError {
    #[error("{:?} at byte {}", .0.kind, .0.at)]
    Fault(SpecFault),
    #[error("out of memory")]
    Memory(AllocError),
}

impl From<AllocError> for SpecError {
    ghost from_gives = { λ _ e. e ≡ Memory alloc_error };

    fn from(_error: AllocError) -> SpecError {
        SpecError::Memory(AllocError)
    }
}

impl<T: Drop> From<AllocFailed<T>> for SpecError {
    ghost from_gives = { λ _ e. e ≡ Memory alloc_error };

    fn from(_error: AllocFailed<T>) -> SpecError {
        SpecError::Memory(AllocError)
    }
}

/// The answer that a place has a fault.
pub fn fault<T>(at: u32, kind: SpecKind) -> Result<T, SpecError>
    ensures { result ≡ Err (Fault (record { at = at; kind = kind })) }
{
    Err(SpecError::Fault(SpecFault { at, kind }))
}
