//! The first fault of numbers that may be a database, in order: the lengths of the lists, the tables, the constants.
ghost use Rattle.std.specs.Prelude.{◌≡◌, ◌↔◌, ℕ, ◌<◌, ◌≤◌, length, IsTrue, IfNone, IfSome};
ghost use Rattle.ras_logic.specs.Databases.{IsTable, size_of as size_at};
ghost use Rattle.ras_database.specs.DatabaseFaults.{HasLengths, table_of, AreTablesBefore, IsTurn, IsConstant, AreConstantsBefore, IsClash, IsDatabaseFault};

use crate::db_fault::{DbFault, Part};
use ras_logic::{ConstId, FunDecl, FunId, RawDb, Schema, SortId};

/// The first list that is not as long as it must be.
pub fn length_fault(schema: &Schema, raw: &RawDb) -> Option<DbFault>
    ensures none { IfNone result (HasLengths schema.now raw.now) }
    ensures first { IfSome result (IsDatabaseFault schema.now raw.now) }
{
    let part = if raw.sizes.len() != schema.sort_count() as usize {
        Part::Sizes
    } else if raw.tables.len() != schema.functions().len() {
        Part::Tables
    } else if raw.constants.len() != schema.constants().len() {
        Part::Constants
    } else {
        return None;
    };
    Some(DbFault::WrongLength { part, place: 0 })
}

/// The size of a sort.
fn size_of(raw: &RawDb, sort: SortId) -> u32
    ensures { result ≡ size_at raw.now sort }
{
    raw.sizes
        .as_slice()
        .get(sort.n as usize)
        .copied()
        .unwrap_or(0)
}

/// The first entry of a table, which has its length, that is no image.
fn entry_fault(
    schema: &Schema,
    raw: &RawDb,
    f: FunId,
    decl: FunDecl,
    table: &[u32],
) -> Option<DbFault>
    requires turn { IsTurn schema.now raw.now f.n decl }
    requires here { table.now ≡ table_of raw.now f.n }
    requires room { length table.now ≤ 4294967295 }
    requires as_long { length table.now ≡ size_at raw.now decl.source }
    ensures none { IfNone result (IsTable raw.now decl table.now) }
    ensures first { IfSome result (IsDatabaseFault schema.now raw.now) }
{
    let size = size_of(raw, decl.target);
    for (k, x) in table.iter().enumerate() {
        let at = k as u32 + 1;
        if *x > size {
            return Some(DbFault::OutOfRange {
                part: Part::Table,
                place: f.n as u32,
                at,
            });
        }
        if decl.total && *x == 0 {
            return Some(DbFault::UndefImage { function: f, at });
        }
    }
    None
}

/// The first fault of the tables.
pub fn table_fault(schema: &Schema, raw: &RawDb) -> Option<DbFault>
    requires { HasLengths schema.now raw.now }
    ensures none { IfNone result (AreTablesBefore schema.now raw.now (length schema.now.functions)) }
    ensures first { IfSome result (IsDatabaseFault schema.now raw.now) }
{
    let count = schema.function_count();
    for n in 0..count {
        let f = FunId { n };
        let decl = schema.function(f);
        let table = &raw.tables.as_slice()[n as usize];
        if table.len() != size_of(raw, decl.source) as usize {
            return Some(DbFault::WrongLength {
                part: Part::Table,
                place: n as u32,
            });
        }
        if let Some(fault) = entry_fault(schema, raw, f, decl, table.as_slice()) {
            return Some(fault);
        }
    }
    None
}

/// Whether a number is an element of a sort and not undef.
fn is_constant(raw: &RawDb, sort: SortId, x: u32) -> bool
    ensures { IsTrue result ↔ IsConstant raw.now sort x }
{
    x != 0 && x <= size_of(raw, sort)
}

/// Whether a constant is the same element of the same sort as an earlier one.
fn clashes(schema: &Schema, raw: &RawDb, first: u16, second: u16) -> bool
    requires earlier { first < second }
    requires within { second < length schema.now.constants }
    requires lengths { HasLengths schema.now raw.now }
    ensures { IsTrue result ↔ IsClash schema.now raw.now first second }
{
    let sorts = schema.constants();
    let elements = raw.constants.as_slice();
    sorts[first as usize].n == sorts[second as usize].n
        && elements[first as usize] == elements[second as usize]
}

/// The first earlier constant of the same sort that is the same element.
fn earlier_same(schema: &Schema, raw: &RawDb, second: u16) -> Option<u16>
    requires within { second < length schema.now.constants }
    requires lengths { HasLengths schema.now raw.now }
    ensures none { IfNone result ((first : ℕ) → ¬ IsClash schema.now raw.now first second) }
    ensures some { IfSome result (λ first. IsClash schema.now raw.now first second) }
{
    for first in 0..second {
        if clashes(schema, raw, first, second) {
            return Some(first);
        }
    }
    None
}

/// The first fault of the constants.
pub fn constant_fault(schema: &Schema, raw: &RawDb) -> Option<DbFault>
    requires lengths { HasLengths schema.now raw.now }
    requires tables { AreTablesBefore schema.now raw.now (length schema.now.functions) }
    ensures none { IfNone result (AreConstantsBefore schema.now raw.now (length schema.now.constants)) }
    ensures first { IfSome result (IsDatabaseFault schema.now raw.now) }
{
    let count = schema.constant_count();
    for n in 0..count {
        let second = ConstId { n };
        let sort = schema.constant(second);
        if !is_constant(raw, sort, raw.constants.as_slice()[n as usize]) {
            return Some(DbFault::OutOfRange {
                part: Part::Constants,
                place: n as u32,
                at: 0,
            });
        }
        if let Some(first) = earlier_same(schema, raw, n) {
            return Some(DbFault::ConstantClash {
                first: ConstId { n: first },
                second,
            });
        }
    }
    None
}
