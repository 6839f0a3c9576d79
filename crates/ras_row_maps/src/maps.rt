ghost use Rattle.std.specs.Prelude.{◌≡◌, ◌↔◌, ◌+◌, ◌<◌, ◌≤◌, ◌++◌, [], ◌∷◌, length, take, count_by, IfOk, OnOk, IsTrue};
ghost use Rattle.std.specs.Bool.{OnFalse};
ghost use Rattle.ras_row_maps.specs.RowMaps.{AreRowMaps, HaveNoMap, is_of, IsFree, AreLongerBelow};

use ras_logic::{List, Plain, RelId};
use std::alloc::{AllocError, Global};

/// Whether a row is of the relation, and not one of those that the map has already.
fn is_free(to: &[RelId], relation: RelId, map: &[u32], row: u32) -> bool
    requires { row < length to.now }
    ensures { IsTrue result ↔ IsFree to.now relation map.now row }
{
    to[row as usize].n == relation.n && !map.contains(&row)
}

/// The map, with a row at its end.
fn with_row(alloc: Global, map: &List<u32>, row: u32) -> Result<List<u32>, AllocError>
    ensures { IfOk result (λ longer. longer ≡ map.now ++ row ∷ []) }
{
    let mut longer = map.copy(alloc)?;
    longer.push(row)?;
    Ok(longer)
}

/// The map, with each row that is free at its end, in the rows' order.
fn longer_maps(
    alloc: Global,
    to: &[RelId],
    relation: RelId,
    map: &List<u32>,
) -> Result<List<List<u32>>, AllocError>
    requires { length to.now ≤ 4294967295 }
    ensures { IfOk result (AreLongerBelow to.now relation map.now (length to.now)) }
{
    let mut longer = List::new(alloc);
    for row in 0..to.len() as u32 {
        if is_free(to, relation, map.as_slice(), row) {
            longer.push(with_row(alloc, map, row)?)?;
        }
    }
    Ok(longer)
}

/// More maps, after those that are there.
fn append(maps: &mut List<List<u32>>, more: List<List<u32>>) -> Result<(), AllocError>
    ensures { OnOk result (maps.new ≡ maps.old ++ more) }
{
    for map in more.into_vec() {
        maps.push(map)?;
    }
    Ok(())
}

/// The row maps of one row more, from those of the rows before it.
fn with_next_row(
    alloc: Global,
    from: &[RelId],
    to: &[RelId],
    done: usize,
    maps: &[List<u32>],
) -> Result<List<List<u32>>, AllocError>
    requires within { done < length from.now }
    requires few { length to.now ≤ 4294967295 }
    requires maps { AreRowMaps (take done from.now) to.now maps.now }
    ensures { IfOk result (AreRowMaps (take (done + 1) from.now) to.now) }
{
    let mut all = List::new(alloc);
    for map in maps {
        append(&mut all, longer_maps(alloc, to, from[done], map)?)?;
    }
    Ok(all)
}

/// How many rows are of a relation.
fn count(rows: &[RelId], relation: RelId) -> usize
    ensures { result ≡ count_by (is_of relation) rows.now }
{
    rows.iter().filter(|row| row.n == relation.n).count()
}

/// Whether of each relation there are as many rows in `to` as in `from`; if not, there is no row map.
fn have_room(from: &[RelId], to: &[RelId]) -> bool
    ensures { OnFalse result (HaveNoMap from.now to.now) }
{
    for relation in from {
        if count(from, *relation) > count(to, *relation) {
            return false;
        }
    }
    true
}

/// Each row map of `from` into `to`: for each row in order a row of `to`, of the same relation and none twice. They come
/// in lexicographic order. Where some relation has fewer rows in `to` than in `from` it takes no memory.
pub fn row_maps(alloc: Global, from: &[RelId], to: &[RelId]) -> Result<List<List<u32>>, AllocError>
    requires { length to.now ≤ 4294967295 }
    ensures { IfOk result (AreRowMaps from.now to.now) }
{
    let mut maps = List::new(alloc);
    if !have_room(from, to) {
        return Ok(maps);
    }
    maps.push(List::new(alloc))?;
    for done in 0..from.len() {
        maps = with_next_row(alloc, from, to, done, maps.as_slice())?;
    }
    Ok(maps)
}
