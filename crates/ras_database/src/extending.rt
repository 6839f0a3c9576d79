ghost use Rattle.std.specs.Prelude.{◌≡◌, ◌↔◌, ℕ, ◌<◌, ◌≤◌, [], IsTrue, length, get_or, slice_get};
ghost use Rattle.ras_logic.specs.Databases.{Extends};

use crate::database::Database;
use ras_logic::{List, Plain};

/// The table at a place, without entries where there is none.
fn table_at(tables: &[List<u32>], place: usize) -> &[u32]
    ensures { result.now ≡ get_or tables.now place [] }
{
    match tables.get(place) {
        Some(table) => table.as_slice(),
        None => &[],
    }
}

/// Whether no size is smaller.
fn sizes_extend(larger: &[u32], smaller: &[u32]) -> bool
    ensures { IsTrue result ↔ ((s : ℕ) → get_or smaller.now s 0 ≤ get_or larger.now s 0) }
{
    for (s, size) in smaller.iter().enumerate() {
        if *size > larger.get(s).copied().unwrap_or(0) {
            return false;
        }
    }
    true
}

/// Whether a table agrees with a smaller one on all that the smaller one lists.
fn table_extends(larger: &[u32], smaller: &[u32]) -> bool
    ensures { IsTrue result ↔ ((k : ℕ) → k < length smaller.now → slice_get larger.now k ≡ slice_get smaller.now k) }
{
    for (k, x) in smaller.iter().enumerate() {
        if larger.get(k).copied() != Some(*x) {
            return false;
        }
    }
    true
}

/// Whether each table agrees with the smaller one of the same function.
fn tables_extend(larger: &[List<u32>], smaller: &[List<u32>]) -> bool
    ensures { IsTrue result ↔ ((f k : ℕ) → k < length (get_or smaller.now f []) → slice_get (get_or larger.now f []) k ≡ slice_get (get_or smaller.now f []) k) }
{
    for (f, table) in smaller.iter().enumerate() {
        if !table_extends(table_at(larger, f), table.as_slice()) {
            return false;
        }
    }
    true
}

/// Whether one database extends another: no size is smaller, and its tables and constants agree with the smaller's on the
/// smaller's elements. It is meant for two databases of one schema. It takes no memory.
pub fn extends(larger: &Database, smaller: &Database) -> bool
    ensures { IsTrue result ↔ Extends larger.now smaller.now }
{
    let wide = larger.raw();
    let narrow = smaller.raw();
    sizes_extend(wide.sizes.as_slice(), narrow.sizes.as_slice())
        && tables_extend(wide.tables.as_slice(), narrow.tables.as_slice())
        && wide.constants.equal(&narrow.constants)
}
