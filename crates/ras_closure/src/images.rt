ghost use Rattle.std.specs.Prelude.{◌≡◌, ℕ, ◌+◌, ◌<◌, length, MatchOption, IfOk};
ghost use Rattle.ras_closure.specs.Numbered.{IsImageLink};
ghost use Rattle.ras_closure.specs.Images.{AreImages};

use crate::link::Link;
use crate::term_table::TermTable;
use ras_logic::FunId;
use std::alloc::{AllocError, Global};

/// The argument of a term that is an image by the function.
fn argument_of(table: &TermTable, function: FunId, k: usize) -> Option<usize>
    requires { k < length table.now.terms }
    ensures { MatchOption result ((of : ℕ) → IsImageLink table.now.links k of function → ⊥) (λ of. IsImageLink table.now.links k of function) }
{
    match table.link(k) {
        Link::Image { of, function: by } if by.n == function.n => Some(of as usize),
        _ => None,
    }
}

/// Notes the image of an element that a term gives.
fn note_image(
    table: &TermTable,
    numbers: &[u32],
    function: FunId,
    images: &mut [Option<u32>],
    k: usize,
)
    requires long { length numbers.now ≡ length table.now.terms }
    requires within { k < length table.now.terms }
    requires images { AreImages table.now numbers.now function k images.old }
    ensures { AreImages table.now numbers.now function (k + 1) images.new }
{
    table.known();
    let Some(of) = argument_of(table, function, k) else {
        return;
    };
    let argument = numbers[of] as usize;
    if argument == 0 {
        return;
    }
    if argument > images.len() {
        return;
    }
    images[argument - 1] = Some(numbers[k]);
}

/// The images by a function of the first elements, where a term gives one.
pub fn images_of(
    alloc: Global,
    table: &TermTable,
    numbers: &[u32],
    function: FunId,
    count: u32,
) -> Result<Vec<Option<u32>>, AllocError>
    requires { length numbers.now ≡ length table.now.terms }
    ensures long { IfOk result (λ v. length v.items ≡ count) }
    ensures images { IfOk result (λ v. AreImages table.now numbers.now function (length table.now.terms) v.items) }
{
    let mut images = vec![in alloc; None; count as usize]?;
    for k in 0..table.len() {
        note_image(table, numbers, function, &mut images, k);
    }
    Ok(images)
}
