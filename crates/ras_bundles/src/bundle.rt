ghost use Rattle.std.specs.Prelude.{IfOk, IfErr};
ghost use Rattle.ras_bundles.specs.Bundles.{IsBundle};
ghost use Rattle.ras_bundles.specs.BundleFaults.{IsBundleFault};

use crate::denoted::denoted;
use crate::fault::{BundleError, BundleKind};
use crate::grammar::system as system_lines;
use ras_evidence::{Evidence, line_number, read_evidence_behind};
use ras_lines::{Lines, Stop};
use ras_system::System;
use std::alloc::{AllocError, Global};

/// A system with an evidence, and the number of the evidence's first line.
#[derive(Drop)]
pub struct Bundle {
    pub system: System,
    pub evidence: Evidence,
    pub line: u64,
}

/// The system and the evidence of which the bytes are the text; a journal behind it is read and not judged. Want of memory may come at any bytes.
pub fn read_bundle(alloc: Global, bytes: &[u8]) -> Result<Bundle, BundleError>
    ensures bundle { IfOk result (λ b. IsBundle bytes.now b.system b.evidence b.line) }
    ensures fault { IfErr result (IsBundleFault bytes.now) }
{
    let mut lines = Lines { rest: bytes };
    let numbers = match system_lines(&mut lines, alloc) {
        Ok(numbers) => numbers,
        Err(Stop::Memory) => return Err(BundleError::Memory(AllocError)),
        Err(Stop::Misfit) => {
            let line = line_number(bytes, lines.rest);
            return Err(BundleError::System {
                line,
                kind: BundleKind::Text,
            });
        }
    };
    let system = denoted(alloc, numbers)?;
    let first = line_number(bytes, lines.rest);
    let read = read_evidence_behind(alloc, bytes, lines.rest)?;
    Ok(Bundle {
        system,
        evidence: read.evidence,
        line: first,
    })
}
