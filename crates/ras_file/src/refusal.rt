ghost use Rattle.std.specs.Prelude.{◌≡◌, ◌++◌, IfOk, OnOk};
ghost use Rattle.ras_file.specs.Refusals.{behind_blank, kind_word, kind_names, refusal_text};

use crate::fault::{FileFault, FileKind};
use ras_text::{put, put_number};
use std::alloc::{AllocError, Global};

/// The word of a kind.
fn word(kind: &FileKind) -> &'static [u8]
    ensures { result.now ≡ kind_word kind.now }
{
    match kind {
        FileKind::BadByte => b"BAD_BYTE",
        FileKind::LongName => b"LONG_NAME",
        FileKind::BadUtf8 => b"BAD_UTF8",
        FileKind::Syntax => b"SYNTAX",
        FileKind::DuplicateName => b"DUPLICATE_NAME",
        FileKind::UnknownName => b"UNKNOWN_NAME",
        FileKind::WrongSort => b"WRONG_SORT",
        FileKind::Cycle { .. } => b"CYCLE",
        FileKind::TooMany => b"TOO_MANY",
        FileKind::TooWide => b"TOO_WIDE",
        FileKind::RepeatedTarget => b"REPEATED_TARGET",
    }
}

/// A blank and a text.
fn put_behind_blank(out: &mut Vec<u8>, text: &[u8]) -> Result<(), AllocError>
    ensures { OnOk result (out.new.items ≡ out.old.items ++ behind_blank text.now) }
{
    put(out, b" ")?;
    put(out, text)
}

/// The names of the sorts of a cycle.
fn put_names(out: &mut Vec<u8>, kind: &FileKind) -> Result<(), AllocError>
    ensures { OnOk result (out.new.items ≡ out.old.items ++ kind_names kind.now) }
{
    if let FileKind::Cycle { source, target } = kind {
        put_behind_blank(out, source.bytes())?;
        put_behind_blank(out, target.bytes())?;
    }
    Ok(())
}

/// The line `REFUSED file AT P KIND` of a file with this fault, where the names of the function's source and target follow
/// `CYCLE`.
pub fn refusal_line(alloc: Global, fault: &FileFault) -> Result<Vec<u8>, AllocError>
    ensures { IfOk result (λ text. text.items ≡ refusal_text fault.now) }
{
    let mut text = Vec::from_slice(alloc, b"REFUSED file AT ")?;
    put_number(&mut text, u64::from(fault.at))?;
    put_behind_blank(&mut text, word(&fault.kind))?;
    put_names(&mut text, &fault.kind)?;
    put(&mut text, b"\n")?;
    Ok(text)
}
