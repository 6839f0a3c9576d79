ghost use Rattle.std.specs.Prelude.{◌≡◌, ◌↔◌, ◌<◌, ℕ, length, slice_get, get_or, Some, IsTrue};
ghost use Rattle.ras_logic.specs.Refutations.{AreRowsOf};

use ras_logic::RelId;

/// Whether a row is one of those named, of the relation.
fn is_row_of(rows: &[RelId], relation: RelId, row: u32) -> bool
    ensures { IsTrue result ↔ (slice_get rows.now row ≡ Some relation) }
{
    match rows.get(row as usize) {
        Some(other) => other.n == relation.n,
        None => false,
    }
}

/// Whether a number of the list stands there before.
fn is_repeated(chosen: &[u32], place: usize) -> bool
    requires { place < length chosen.now }
    ensures { IsTrue result ↔ ((k : ℕ) × (k < place) × (get_or chosen.now k 0 ≡ get_or chosen.now place 0)) }
{
    for k in 0..place {
        if chosen[k] == chosen[place] {
            return true;
        }
    }
    false
}

/// Whether the numbers name different rows of the premise, one of each of the formula's relations in order.
pub fn are_rows_of(premise: &[RelId], formula: &[RelId], chosen: &[u32]) -> bool
    ensures { IsTrue result ↔ AreRowsOf premise.now formula.now chosen.now }
{
    if chosen.len() != formula.len() {
        return false;
    }
    for k in 0..chosen.len() {
        if !is_row_of(premise, formula[k], chosen[k]) || is_repeated(chosen, k) {
            return false;
        }
    }
    true
}
