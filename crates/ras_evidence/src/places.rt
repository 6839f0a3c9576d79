ghost use Rattle.std.specs.Prelude.{◌≡◌, ◌==◌, ◌≤◌, length};
ghost use Rattle.ras_lines.specs.Lines.{lines_of};
ghost use Rattle.ras_evidence.specs.Endings.{last_of};
ghost use Rattle.ras_evidence.specs.EvidenceFaults.{IsLineOf};

use ras_lines::line_count;

/// The number of the first line that is left, or of the one behind the last. Lines are counted from 1 at the first of the bytes.
pub fn line_number(bytes: &[u8], rest: &[u8]) -> u64
    requires { length (lines_of rest.now) ≤ length (lines_of bytes.now) }
    ensures { IsLineOf (lines_of bytes.now) (lines_of rest.now) result }
{
    (line_count(bytes) - line_count(rest)) as u64 + 1
}

/// Whether the last line is ended.
#[tactic(auto, using(crate::proofs::LastLaws::last_laws))]
pub fn is_ended(bytes: &[u8]) -> bool
    ensures { result ≡ (last_of 10 bytes.now == 10) }
{
    if bytes.is_empty() {
        return true;
    }
    bytes[bytes.len() - 1] == b'\n'
}
