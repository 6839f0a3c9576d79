ghost use Rattle.std.specs.Prelude.{◌≡◌, ◌++◌, ℕ, List, flat_map, OnOk};
ghost use Rattle.ras_text.specs.Pieces.{counted};
ghost use Rattle.ras_writing.specs.Pieces as piece;

use ras_logic::List;
use ras_text::{put, put_word};
use std::alloc::AllocError;

/// What has a text: a word with what stands before it, or a line or lines with their ends.
pub trait Written {
    ghost use Rattle.std.specs.Prelude.{◌≡◌, ◌++◌, ℕ, List, OnOk};

    ghost text: { Self → List ℕ };

    /// Writes the text behind what is written already.
    fn write(&self, out: &mut Vec<u8>) -> Result<(), AllocError>
        ensures { OnOk result (out.new.items ≡ out.old.items ++ text self.now) };
}

/// One text after the other.
pub fn put_all<T: Written>(out: &mut Vec<u8>, items: &[T]) -> Result<(), AllocError>
    ensures { OnOk result (out.new.items ≡ out.old.items ++ flat_map T.text items.now) }
{
    for item in items {
        item.write(out)?;
    }
    Ok(())
}

impl Written for u32 {
    ghost use Rattle.ras_text.specs.Pieces.{word};

    ghost text = { word };

    fn write(&self, out: &mut Vec<u8>) -> Result<(), AllocError> {
        put_word(out, u64::from(*self))
    }
}

/// How many there are, and their words.
pub fn put_counted<T: Written>(out: &mut Vec<u8>, items: &[T]) -> Result<(), AllocError>
    ensures { OnOk result (out.new.items ≡ out.old.items ++ counted T.text items.now) }
{
    put_word(out, items.len() as u64)?;
    put_all(out, items)
}

/// A line with a word and how many there are, and their lines.
pub fn put_section<T: Written>(
    out: &mut Vec<u8>,
    word: &[u8],
    items: &[T],
) -> Result<(), AllocError>
    ensures { OnOk result (out.new.items ≡ out.old.items ++ piece.section word.now T.text items.now) }
{
    put(out, word)?;
    put_word(out, items.len() as u64)?;
    put(out, b"\n")?;
    put_all(out, items)
}

/// A line of a word, a count and as many numbers.
pub fn put_numbers(out: &mut Vec<u8>, word: &[u8], numbers: &[u32]) -> Result<(), AllocError>
    ensures { OnOk result (out.new.items ≡ out.old.items ++ piece.numbers word.now numbers.now) }
{
    put(out, word)?;
    put_counted(out, numbers)?;
    put(out, b"\n")
}

/// A line of each list of numbers.
fn put_number_lines(out: &mut Vec<u8>, word: &[u8], lists: &[List<u32>]) -> Result<(), AllocError>
    ensures { OnOk result (out.new.items ≡ out.old.items ++ flat_map (piece.numbers word.now) lists.now) }
{
    for numbers in lists {
        put_numbers(out, word, numbers.as_slice())?;
    }
    Ok(())
}

/// A line with how many lists there are, and a line of each.
pub fn put_number_section(
    out: &mut Vec<u8>,
    head: &[u8],
    word: &[u8],
    lists: &[List<u32>],
) -> Result<(), AllocError>
    ensures { OnOk result (out.new.items ≡ out.old.items ++ piece.section head.now (piece.numbers word.now) lists.now) }
{
    put(out, head)?;
    put_word(out, lists.len() as u64)?;
    put(out, b"\n")?;
    put_number_lines(out, word, lists)
}
