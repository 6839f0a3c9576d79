ghost use Rattle.std.specs.Prelude.{◌<◌, ◌≤◌, List, length, All, Any, IfNone, IfSome};
ghost use Rattle.std.specs.Bool.{OnTrue, OnFalse};
ghost use Rattle.ras_logic.specs.declared.ids.SortId.{SortId};
ghost use Rattle.ras_logic.specs.Places.{IsFirstBad};
ghost use Rattle.ras_logic.specs.Schemas.{HasSorts, IsSort};
ghost use Rattle.ras_logic.specs.ShapeFaults.{all_columns};

use crate::function::FunDecl;
use crate::ids::SortId;
use crate::seq::List;

/// The place of the first function with a sort that does not exist.
pub fn first_bad_function(functions: &[FunDecl], sorts: u16) -> Option<u32>
    requires { length functions.now ≤ 256 }
    ensures none { IfNone result (All (HasSorts sorts) functions.now) }
    ensures first { IfSome result (IsFirstBad (HasSorts sorts) functions.now) }
{
    for (place, f) in functions.iter().enumerate() {
        if f.source.n >= sorts || f.target.n >= sorts {
            return Some(place as u32);
        }
    }
    None
}

/// The place of the first sort that does not exist.
pub fn first_bad_sort(named: &[SortId], sorts: u16) -> Option<u32>
    requires { length named.now ≤ 256 }
    ensures none { IfNone result (All (IsSort sorts) named.now) }
    ensures first { IfSome result (IsFirstBad (IsSort sorts) named.now) }
{
    for (place, s) in named.iter().enumerate() {
        if s.n >= sorts {
            return Some(place as u32);
        }
    }
    None
}

/// The place of the first column, counting those of all relations in order, of a sort that does not exist.
pub fn first_bad_column(relations: &[List<SortId>], sorts: u16) -> Option<u32>
    requires count { length relations.now ≤ 16 }
    requires widths { All (λ (columns : List SortId). length columns ≤ 32) relations.now }
    ensures none { IfNone result (All (All (IsSort sorts)) relations.now) }
    ensures first { IfSome result (IsFirstBad (IsSort sorts) (all_columns relations.now)) }
{
    let mut before: u32 = 0;
    for columns in relations {
        if let Some(place) = first_bad_sort(columns.as_slice(), sorts) {
            return Some(before + place);
        }
        before += columns.len() as u32;
    }
    None
}

/// The number of the first relation without columns.
pub fn first_without_column(relations: &[List<SortId>]) -> Option<u16>
    requires { length relations.now ≤ 16 }
    ensures none { IfNone result (All (λ (columns : List SortId). 0 < length columns) relations.now) }
    ensures first { IfSome result (IsFirstBad (λ (columns : List SortId). 0 < length columns) relations.now) }
{
    for (n, columns) in relations.iter().enumerate() {
        if columns.len() == 0 {
            return Some(n as u16);
        }
    }
    None
}

/// Whether some relation has more than 32 columns.
pub fn has_wide(relations: &[List<SortId>]) -> bool
    ensures wide { OnTrue result (Any (λ (columns : List SortId). 32 < length columns) relations.now) }
    ensures narrow { OnFalse result (All (λ (columns : List SortId). length columns ≤ 32) relations.now) }
{
    for columns in relations {
        if columns.len() > 32 {
            return true;
        }
    }
    false
}
