ghost use Rattle.std.specs.Prelude.{◌≡◌};
ghost use Rattle.ras_bundles.specs.declared.fault.BundleError.TheVariants.{Memory};
ghost use Rattle.ras_bundles.specs.Judging.{behind_error};

use ras_evidence::{EvidenceFault, ReadError};
use std::alloc::AllocError;
use thiserror::Error;

/// What is wrong in a line of the system part of a bundle, in the order in which it is told where a line has several.
#[derive(Clone, Copy, Debug, PartialEq, Eq)]
pub enum BundleKind {
    /// No system part goes on with this line, or it is missing or not ended.
    Text,
    /// A count is beyond its limit, or a cube has too many literals.
    Limit,
    /// A number names nothing, or a row is named.
    Range,
    /// Sorts do not agree.
    Sort,
    /// The function closes a cycle with those above it.
    Cycle,
    /// The variable is assigned a second time in the transition.
    Target,
    /// The guard has no disjunct.
    Disjunct,
}

/// Why bytes were not read as a bundle. Lines are counted from 1 at the first of the bundle.
#[derive(Debug, Drop, Error)]
pub enum BundleError {
    #[error("the system part has a fault in line {line}")]
    System { line: u64, kind: BundleKind },
    #[error("the evidence has a fault in line {}", .0.line)]
    Evidence(EvidenceFault),
    #[error("out of memory")]
    Memory(AllocError),
}

impl From<AllocError> for BundleError {
    ghost from_gives = { λ error result. result ≡ Memory error };

    fn from(error: AllocError) -> BundleError {
        BundleError::Memory(error)
    }
}

impl From<ReadError> for BundleError {
    ghost from_gives = { λ error result. result ≡ behind_error error };

    fn from(error: ReadError) -> BundleError {
        match error {
            ReadError::Fault(fault) => BundleError::Evidence(fault),
            ReadError::Memory(error) => BundleError::Memory(error),
        }
    }
}
