ghost use Rattle.std.specs.Prelude.{◌≡◌, ℕ, ◌≤◌, List, Option, length, take, OnOk, IfErr};
ghost use Rattle.ras_outside.specs.Count.{Rose};
ghost use Rattle.std.specs.Io.KnownBytes.{append_known};
ghost use Rattle.ras_outside.specs.SinkFault.{taken_of};

use thiserror::Error;

/// Why a sink did not take a whole piece.
#[derive(Clone, Copy, Debug, PartialEq, Eq, Error)]
pub enum SinkFault {
    #[error("a write failed after {taken} bytes")]
    Failed { taken: u64 },
}

/// A place that bytes are appended to.
pub trait Sink: Drop {
    // the bytes written so far, where it tells them
    ghost written: { Self → Option (List ℕ) };

    // how many puts have failed
    ghost faults: { Self → ℕ };

    /// Appends a piece. A put that fails has appended the first `taken` bytes of it.
    fn put(&mut self, bytes: &[u8]) -> Result<(), SinkFault>
        ensures ok { OnOk result (written self.new ≡ append_known (written self.old) bytes.now) }
        ensures stands { OnOk result (faults self.new ≡ faults self.old) }
        ensures grows { faults self.old ≤ faults self.new }

        ensures taken { IfErr result (λ fault. taken_of fault ≤ length bytes.now) }
        ensures first { IfErr result (λ fault.
            written self.new ≡ append_known (written self.old) (take (taken_of fault) bytes.now)) }
        ensures failed { IfErr result (λ _. Rose (faults self.old) (faults self.new)) };
}
