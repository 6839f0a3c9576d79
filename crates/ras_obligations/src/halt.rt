ghost use Rattle.std.specs.Prelude.{◌≡◌};
ghost use Rattle.ras_obligations.specs.declared.halt.Halt.TheVariants.{Memory};

use std::alloc::AllocError;

/// Why no more obligations are visited.
#[derive(Debug, Drop)]
pub enum Halt {
    /// The visitor wants no more.
    Stopped,
    /// Memory is wanting.
    Memory(AllocError),
}

impl From<AllocError> for Halt {
    ghost from_gives = { λ error result. result ≡ Memory error };

    fn from(error: AllocError) -> Halt {
        Halt::Memory(error)
    }
}
