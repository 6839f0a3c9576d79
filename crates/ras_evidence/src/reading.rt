ghost use Rattle.std.specs.Prelude.{◌≤◌, length, IfOk, IfErr};
ghost use Rattle.ras_lines.specs.Lines.{lines_of};
ghost use Rattle.ras_evidence.specs.EvidenceTexts.{told, AreTextLines, IsTextOf};
ghost use Rattle.ras_evidence.specs.EvidenceFaults.{AnswersVersion, IsEnded, IsKindOf, IsFaultBehind, IsLineOf, IsReadFault};

use crate::fault::{EvidenceFault, EvidenceKind};
use crate::header::Header;
use crate::parts::whole_text;
use crate::places::{is_ended, line_number};
use crate::read::Read;
use ras_lines::{Lines, Stop, line_count};
use std::alloc::{AllocError, Global};
use thiserror::Error;

/// Why bytes were not read as an evidence.
#[derive(Debug, Drop, Error)]
pub enum ReadError {
    #[error("the evidence has a fault in line {}", .0.line)]
    Fault(EvidenceFault),
    #[error("out of memory")]
    Memory(AllocError),
}

/// Whether the first line is that of another version.
fn has_other_version(alloc: Global, rest: &[u8]) -> Result<bool, AllocError>
    ensures { AnswersVersion (lines_of rest.now) result }
{
    let mut lines = Lines { rest };
    let header: Header = match lines.value(alloc) {
        Ok(header) => header,
        Err(Stop::Memory) => return Err(AllocError),
        Err(Stop::Misfit) => return Ok(false),
    };
    if header.version == 1 {
        return Ok(false);
    }
    Ok(true)
}

/// The fault of the first line that is left, or of the one that is missing or not ended.
fn fault_at(bytes: &[u8], rest: &[u8]) -> EvidenceFault
    requires { length (lines_of rest.now) ≤ length (lines_of bytes.now) }
    ensures kind { IsKindOf (lines_of rest.now) result.kind }
    ensures line { IsLineOf (lines_of bytes.now) (lines_of rest.now) result.line }
{
    let line = line_number(bytes, rest);
    let kind = if line_count(rest) > 0 {
        EvidenceKind::Text
    } else {
        EvidenceKind::Ended
    };
    EvidenceFault { line, kind }
}

/// The evidence that stands at the end of the bytes, behind lines that were read before, and its journal, which is read and
/// not judged. A fault's line is counted from the first of the bytes. Want of memory may come at any bytes.
pub fn read_evidence_behind(alloc: Global, bytes: &[u8], behind: &[u8]) -> Result<Read, ReadError>
    requires { length (lines_of behind.now) ≤ length (lines_of bytes.now) }
    ensures text { IfOk result (λ r. AreTextLines (lines_of behind.now) (told r)) }
    ensures ended { IfOk result (λ _. IsEnded bytes.now) }
    ensures fault { IfErr result (IsFaultBehind bytes.now (lines_of behind.now)) }
{
    match has_other_version(alloc, behind) {
        Ok(false) => {}
        Ok(true) => {
            let line = line_number(bytes, behind);
            return Err(ReadError::Fault(EvidenceFault {
                line,
                kind: EvidenceKind::Version,
            }));
        }
        Err(error) => return Err(ReadError::Memory(error)),
    }
    let mut lines = Lines { rest: behind };
    match whole_text(&mut lines, alloc) {
        Ok(read) => {
            if is_ended(bytes) {
                Ok(read)
            } else {
                Err(ReadError::Fault(fault_at(bytes, lines.rest)))
            }
        }
        Err(Stop::Memory) => Err(ReadError::Memory(AllocError)),
        Err(Stop::Misfit) => Err(ReadError::Fault(fault_at(bytes, lines.rest))),
    }
}

/// The evidence and the journal of which the bytes are the text. Want of memory may come at any bytes.
pub fn read_evidence(alloc: Global, bytes: &[u8]) -> Result<Read, ReadError>
    ensures text { IfOk result (λ r. IsTextOf bytes.now (told r)) }
    ensures fault { IfErr result (IsReadFault bytes.now) }
{
    read_evidence_behind(alloc, bytes, bytes)
}
