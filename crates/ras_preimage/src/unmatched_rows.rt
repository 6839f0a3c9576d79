ghost use Rattle.std.specs.Prelude.{◌≡◌, ◌≤◌, length, map, IfOk};
ghost use Rattle.ras_system.specs.Preimages.{unmatched as all_unmatched};
ghost use Rattle.ras_preimage.specs.Parts.{row_of};

use ras_logic::{List, RelId};
use std::alloc::{AllocError, Global};

/// An unmatched row of a cube: its number among the rows of the problem, and its relation.
#[derive(Debug, Drop)]
pub struct UnmatchedRow {
    pub number: u16,
    pub relation: RelId,
}

fn row_number(number: usize) -> Result<u16, AllocError>
    ensures { IfOk result (λ n. n ≡ number) }
{
    if number > 65535 {
        return Err(AllocError);
    }
    Ok(number as u16)
}

/// The unmatched rows, numbered from `first` on. Where a number does not fit, memory is wanting: no problem has room for
/// so many rows.
pub fn unmatched_rows(
    alloc: Global,
    first: u16,
    rows: &[RelId],
    matched: &[Option<u16>],
) -> Result<List<UnmatchedRow>, AllocError>
    requires { length rows.now ≤ 65535 }
    ensures { IfOk result (λ l. map row_of l ≡ all_unmatched first rows.now matched.now) }
{
    let mut unmatched = List::new(alloc);
    let mut next = first as usize;
    let count = rows.len().min(matched.len());
    for i in 0..count {
        if matched[i].is_none() {
            unmatched.push(UnmatchedRow {
                number: row_number(next)?,
                relation: rows[i],
            })?;
            next += 1;
        }
    }
    Ok(unmatched)
}
