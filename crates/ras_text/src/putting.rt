ghost use Rattle.std.specs.Prelude.{◌≡◌, ◌++◌, OnOk};
ghost use Rattle.std.specs.Fmt.{decimal};
ghost use Rattle.ras_text.specs.Pieces as piece;

use itoa::Buffer;
use std::alloc::AllocError;

/// These bytes.
pub fn put(out: &mut Vec<u8>, text: &[u8]) -> Result<(), AllocError>
    ensures { OnOk result (out.new.items ≡ out.old.items ++ text.now) }
{
    out.extend_from_slice(text)
}

/// A text and a line end.
pub fn put_line(out: &mut Vec<u8>, text: &[u8]) -> Result<(), AllocError>
    ensures { OnOk result (out.new.items ≡ out.old.items ++ piece.line text.now) }
{
    put(out, text)?;
    put(out, b"\n")
}

/// A number in decimal digits.
pub fn put_number(out: &mut Vec<u8>, number: u64) -> Result<(), AllocError>
    ensures { OnOk result (out.new.items ≡ out.old.items ++ decimal number) }
{
    let mut buffer = Buffer::new();
    put(out, buffer.format(number).as_bytes())
}

/// A blank and a number.
pub fn put_word(out: &mut Vec<u8>, number: u64) -> Result<(), AllocError>
    ensures { OnOk result (out.new.items ≡ out.old.items ++ piece.word number) }
{
    put(out, b" ")?;
    put_number(out, number)
}

/// A blank and a number, for each number.
pub fn put_words(out: &mut Vec<u8>, numbers: &[u32]) -> Result<(), AllocError>
    ensures { OnOk result (out.new.items ≡ out.old.items ++ piece.words numbers.now) }
{
    for number in numbers {
        put_word(out, u64::from(*number))?;
    }
    Ok(())
}

/// How many numbers, and the numbers.
pub fn put_counted(out: &mut Vec<u8>, numbers: &[u32]) -> Result<(), AllocError>
    ensures { OnOk result (out.new.items ≡ out.old.items ++ piece.counted piece.word numbers.now) }
{
    put_word(out, numbers.len() as u64)?;
    put_words(out, numbers)
}
