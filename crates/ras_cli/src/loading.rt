ghost use Rattle.std.specs.Prelude.{◌≡◌, IfOk, IfErr};
ghost use Rattle.ras_cli.specs.declared.loading.Halt.TheVariants.{Memory};
ghost use Rattle.ras_cli.specs.Loads.{IsLoaded, IsNotLoaded, OnEnded, IsSpecOf, IsEvidenceOf, HasNoSpec, HasNoEvidence, ArePairOf, HasNoPair, Leaves};

use crate::judging::of_fault;
use crate::outcome::Outcome;
use ras_elab::Spec;
use ras_evidence::{Evidence, ReadError, read_evidence};
use ras_file::{FileError, read_file};
use ras_outside::{LoadFault, Shelf};
use std::alloc::{AllocError, Global};

/// The length of the longest specification.
const LONGEST_FILE: u64 = 1_048_576;

/// The length of the longest evidence or bundle, which is that of the longest `Vec<u8>`.
pub const LONGEST_EVIDENCE: u64 = 9_223_372_036_854_775_807;

/// Why a call goes no further: its outcome is known, or memory is wanting.
#[derive(Debug, Drop)]
pub enum Halt<'a> {
    Ended(Outcome<'a>),
    Memory(AllocError),
}

impl<'a> From<AllocError> for Halt<'a> {
    ghost from_gives = { λ error result. result ≡ Memory error };

    fn from(error: AllocError) -> Halt<'a> {
        Halt::Memory(error)
    }
}

/// The bytes of a file of at most this length.
pub fn load<'a, H: Shelf>(
    alloc: Global,
    shelf: &mut H,
    name: &'a str,
    most: u64,
) -> Result<Vec<u8>, Halt<'a>>
    ensures loaded { IfOk result (λ bytes. IsLoaded (H.told shelf.old) name.now most bytes.items) }
    ensures not_loaded { IfErr result (λ h. OnEnded h (IsNotLoaded (H.told shelf.old) (H.faults shelf.old) (H.faults shelf.new) name.now most)) }
    ensures left { Leaves (H.told shelf.old) (H.told shelf.new) (H.faults shelf.old) (H.faults shelf.new) result }
{
    match shelf.load(alloc, name, most) {
        Ok(bytes) => Ok(bytes),
        Err(LoadFault::Failed) => Err(Halt::Ended(Outcome::NotRead { name })),
        Err(LoadFault::TooLong) => Err(Halt::Ended(Outcome::TooLong { name })),
        Err(LoadFault::Memory(error)) => Err(Halt::Memory(error)),
    }
}

/// What a specification denotes.
pub fn load_spec<'a, H: Shelf>(
    alloc: Global,
    shelf: &mut H,
    file: &'a str,
) -> Result<Spec, Halt<'a>>
    ensures spec { IfOk result (IsSpecOf (H.told shelf.old) file.now) }
    ensures no_spec { IfErr result (λ h. OnEnded h (HasNoSpec (H.told shelf.old) (H.faults shelf.old) (H.faults shelf.new) file.now)) }
    ensures left { Leaves (H.told shelf.old) (H.told shelf.new) (H.faults shelf.old) (H.faults shelf.new) result }
{
    let bytes = load(alloc, shelf, file, LONGEST_FILE)?;
    match read_file(alloc, &bytes) {
        Ok(spec) => Ok(spec),
        Err(FileError::Fault(fault)) => Err(Halt::Ended(Outcome::NoSystem(fault))),
        Err(FileError::Memory(error)) => Err(Halt::Memory(error)),
    }
}

/// The evidence of a text; a journal behind it is not judged.
fn load_evidence<'a, H: Shelf>(
    alloc: Global,
    shelf: &mut H,
    name: &'a str,
) -> Result<Evidence, Halt<'a>>
    ensures evidence { IfOk result (IsEvidenceOf (H.told shelf.old) name.now) }
    ensures no_evidence { IfErr result (λ h. OnEnded h (HasNoEvidence (H.told shelf.old) (H.faults shelf.old) (H.faults shelf.new) name.now)) }
    ensures left { Leaves (H.told shelf.old) (H.told shelf.new) (H.faults shelf.old) (H.faults shelf.new) result }
{
    let bytes = load(alloc, shelf, name, LONGEST_EVIDENCE)?;
    match read_evidence(alloc, &bytes) {
        Ok(read) => Ok(read.evidence),
        Err(ReadError::Fault(fault)) => Err(Halt::Ended(of_fault(fault))),
        Err(ReadError::Memory(error)) => Err(Halt::Memory(error)),
    }
}

/// What a specification denotes, and the evidence of a text, which is loaded behind it.
pub fn load_pair<'a, H: Shelf>(
    alloc: Global,
    shelf: &mut H,
    file: &'a str,
    evidence: &'a str,
) -> Result<(Spec, Evidence), Halt<'a>>
    ensures pair { IfOk result (λ pair. ArePairOf (H.told shelf.old) file.now evidence.now pair.0 pair.1) }
    ensures no_pair { IfErr result (λ h. OnEnded h (HasNoPair (H.told shelf.old) (H.faults shelf.old) (H.faults shelf.new) file.now evidence.now)) }
    ensures left { Leaves (H.told shelf.old) (H.told shelf.new) (H.faults shelf.old) (H.faults shelf.new) result }
{
    let spec = load_spec(alloc, shelf, file)?;
    let evidence = load_evidence(alloc, shelf, evidence)?;
    Ok((spec, evidence))
}
