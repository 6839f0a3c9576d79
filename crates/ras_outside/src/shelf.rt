ghost use Rattle.std.specs.Prelude.{◌≡◌, ◌≢◌, ℕ, ◌≤◌, List, IfOk, vec_len};
ghost use Rattle.ras_outside.specs.Count.{Rose};
ghost use Rattle.ras_outside.specs.Told.{Told, holds, IsTold, HoldsMoreThan};

use std::alloc::{AllocError, Global};
use thiserror::Error;

/// Why a shelf gave no bytes.
#[derive(Clone, Copy, Debug, PartialEq, Eq, Error)]
pub enum LoadFault {
    #[error("the file could not be read")]
    Failed,
    #[error("the file is too long")]
    TooLong,
    #[error("out of memory")]
    Memory(AllocError),
}

/// Files by name.
pub trait Shelf {
    // what it tells of each name, given as its bytes
    ghost told: { Self → List ℕ → Told };

    // how many loads of each name have failed
    ghost faults: { Self → List ℕ → ℕ };

    /// Reads a file of at most `most` bytes whole.
    fn load(&mut self, alloc: Global, name: &str, most: u64) -> Result<Vec<u8>, LoadFault>
        ensures within { IfOk result (λ bytes. vec_len bytes ≤ most) }
        ensures bytes { IfOk result (λ bytes. IsTold (told self.old name.now)
            → told self.old name.now ≡ holds bytes.items) }
        ensures too_long { result ≡ Err LoadFault.TooLong → IsTold (told self.old name.now)
            → HoldsMoreThan (told self.old name.now) most }
        ensures failed { result ≡ Err LoadFault.Failed
            → Rose (faults self.old name.now) (faults self.new name.now) }

        // What is held stays. No count falls, and only a load that failed raises one.
        ensures held { (other : List ℕ) → told self.new other ≡ told self.old other }
        ensures grows { (other : List ℕ) → faults self.old other ≤ faults self.new other }
        ensures stands { result ≢ Err LoadFault.Failed
            → (other : List ℕ) → faults self.new other ≡ faults self.old other };
}
