ghost use Rattle.std.specs.Prelude.{◌≡◌, ℕ, ◌<◌, ◌≤◌, [], length, get_or, slice_get, Some, IfOk, MatchOption};
ghost use Rattle.ras_logic.specs.declared.function.FunDecl.{FunDecl};
ghost use Rattle.ras_logic.specs.declared.ids.SortId.{SortId};
ghost use Rattle.ras_logic.specs.Databases.{IsDatabase, size_of};
ghost use Rattle.ras_closure.specs.Elements.{number};
ghost use Rattle.ras_closure.specs.Images.{IsImageAt};
ghost use Rattle.ras_closure.specs.Models.{IsImage};
ghost use Rattle.ras_closure.specs.Numbered.{IsImageLink};
ghost use Rattle.ras_cover.specs.Extensions.{IsTableOver};
ghost use Rattle.ras_enlarge.specs.Numbers.{size_in, AreTablesOver};

use ras_closure::{Link, TermTable};
use ras_database::Database;
use ras_logic::{FunId, List, Plain};
use std::alloc::{AllocError, Global};

/// The argument of a term that is an image by the function.
fn argument_of(table: &TermTable, function: FunId, k: usize) -> Option<usize>
    requires { k < length table.now.terms }
    ensures { MatchOption result ((of : ℕ) → IsImageLink table.now.links k of function → ⊥) (λ of. IsImageLink table.now.links k of function) }
{
    match table.link(k) {
        Link::Image { of, function: by } if by.n == function.n => Some(of as usize),
        _ => None,
    }
}

/// The element of the image that a term gives of an element.
fn image_at(table: &TermTable, numbers: &[u32], function: FunId, x: u32, k: usize) -> Option<u32>
    requires numbers { length numbers.now ≡ length table.now.terms }
    requires within { k < length table.now.terms }
    ensures { MatchOption result (IsImageAt table.now (number numbers.now) function x k → ⊥) (λ y. IsImageAt table.now (number numbers.now) function x k × (y ≡ number numbers.now k)) }
{
    table.known();
    let Some(of) = argument_of(table, function, k) else {
        return None;
    };
    if numbers[of] != x {
        return None;
    }
    Some(numbers[k])
}

/// The image of a new element: that of a term with this element, or else undef, or under a total function the last element.
fn image_of_new(table: &TermTable, numbers: &[u32], sizes: &[u32], function: FunId, x: u32) -> u32
    requires numbers { length numbers.now ≡ length table.now.terms }
    requires sizes { length sizes.now ≡ table.now.shape.schema.sorts }
    requires known { function.n < length table.now.shape.schema.functions }
    ensures { (decl : FunDecl) → slice_get table.now.shape.schema.functions function.n ≡ Some decl → IsImage table.now.terms (number numbers.now) (size_in sizes.now) function decl x result }
{
    table.known();
    for k in 0..table.len() {
        if let Some(image) = image_at(table, numbers, function, x, k) {
            return image;
        }
    }
    let decl = table.function(function);
    if decl.total {
        return sizes[decl.target.n as usize];
    }
    0
}

/// The table of a function: the old one, and the images of the new elements.
fn table_over(
    alloc: Global,
    table: &TermTable,
    db: &Database,
    numbers: &[u32],
    sizes: &[u32],
    function: FunId,
) -> Result<List<u32>, AllocError>
    requires numbers { length numbers.now ≡ length table.now.terms }
    requires sizes { length sizes.now ≡ table.now.shape.schema.sorts }
    requires known { function.n < length table.now.shape.schema.functions }
    requires database { IsDatabase table.now.shape.schema db.now }
    requires room { (s : SortId) → s.n < table.now.shape.schema.sorts → size_of db.now s ≤ size_in sizes.now s }
    ensures { IfOk result (λ r. (decl : FunDecl) → slice_get table.now.shape.schema.functions function.n ≡ Some decl
        → IsTableOver table.now db.now (number numbers.now) (size_in sizes.now) function decl (get_or db.now.tables function.n []) r) }
{
    table.known();
    let decl = table.function(function);
    let mut images = db.raw().tables.as_slice()[function.n as usize].copy(alloc)?;
    let old = images.len();
    for k in old..sizes[decl.source.n as usize] as usize {
        images.push(image_of_new(table, numbers, sizes, function, k as u32 + 1))?;
    }
    Ok(images)
}

/// The tables of the functions.
pub fn tables_over(
    alloc: Global,
    table: &TermTable,
    db: &Database,
    numbers: &[u32],
    sizes: &[u32],
) -> Result<List<List<u32>>, AllocError>
    requires numbers { length numbers.now ≡ length table.now.terms }
    requires sizes { length sizes.now ≡ table.now.shape.schema.sorts }
    requires database { IsDatabase table.now.shape.schema db.now }
    requires room { (s : SortId) → s.n < table.now.shape.schema.sorts → size_of db.now s ≤ size_in sizes.now s }
    ensures { IfOk result (AreTablesOver table.now db.now (number numbers.now) (size_in sizes.now) (length table.now.shape.schema.functions)) }
{
    table.known();
    let mut tables = List::new(alloc);
    for f in 0..table.function_count() {
        let images = table_over(alloc, table, db, numbers, sizes, FunId { n: f as u16 })?;
        tables.push(images)?;
    }
    Ok(tables)
}
