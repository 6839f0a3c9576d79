ghost use Rattle.std.specs.Prelude.{◌≡◌, ◌<◌, length, get_or, slice_get, Some, None, MatchOption, IfOk, if◌then◌else◌};
ghost use Rattle.ras_closure.specs.Elements.{number, HaveElements};
ghost use Rattle.ras_closure.specs.Spares.{sized};
ghost use Rattle.ras_closure.specs.Models.{IsTableOf, AreTables};

use crate::elements::Elements;
use crate::images::images_of;
use crate::spares::size;
use crate::term_table::TermTable;
use ras_logic::{FunDecl, FunId, List};
use std::alloc::{AllocError, Global};

/// The image that was found, or else the one for what is missing.
fn image_or(images: &[Option<u32>], k: usize, missing: u32) -> u32
    ensures { MatchOption (get_or images.now k None) (result ≡ missing) (λ y. result ≡ y) }
{
    match images.get(k) {
        Some(Some(image)) => *image,
        _ => missing,
    }
}

/// The image of what has none: undef, or the last element under a total function.
fn missing_image(elements: &Elements, spares: &[bool], decl: FunDecl) -> u32
    requires counted { decl.target.n < length elements.now.counts.items }
    requires spared { decl.target.n < length spares.now }
    requires few { get_or elements.now.counts.items decl.target.n 0 < 4294967295 }
    ensures { result ≡ (if decl.total then sized elements.now.counts.items spares.now decl.target else 0) }
{
    if decl.total {
        size(elements, spares, decl.target.n as usize)
    } else {
        0
    }
}

/// The images by a function of all elements of its source but undef.
fn table_of(
    alloc: Global,
    table: &TermTable,
    elements: &Elements,
    spares: &[bool],
    function: FunId,
    decl: FunDecl,
) -> Result<List<u32>, AllocError>
    requires elements { HaveElements table.now elements.now.numbers.items elements.now.counts.items }
    requires spares { length spares.now ≡ table.now.shape.schema.sorts }
    requires known { slice_get table.now.shape.schema.functions function.n ≡ Some decl }
    requires source { decl.source.n < table.now.shape.schema.sorts }
    requires target { decl.target.n < table.now.shape.schema.sorts }
    ensures { IfOk result (IsTableOf table.now.terms (number elements.now.numbers.items) (sized elements.now.counts.items spares.now) function decl) }
{
    table.known();
    let source = decl.source.n as usize;
    let count = elements.count_of(decl.source);
    let images = images_of(alloc, table, &elements.numbers, function, count)?;
    let missing = missing_image(elements, spares, decl);
    let mut column = List::new(alloc);
    for k in 0..size(elements, spares, source) {
        let image = image_or(&images, k as usize, missing);
        column.push(image)?;
    }
    Ok(column)
}

/// The tables of all functions.
pub fn tables(
    alloc: Global,
    table: &TermTable,
    elements: &Elements,
    spares: &[bool],
) -> Result<List<List<u32>>, AllocError>
    requires elements { HaveElements table.now elements.now.numbers.items elements.now.counts.items }
    requires spares { length spares.now ≡ table.now.shape.schema.sorts }
    ensures all { IfOk result (λ r. length r ≡ length table.now.shape.schema.functions) }
    ensures tables { IfOk result (AreTables table.now.shape.schema table.now.terms (number elements.now.numbers.items) (sized elements.now.counts.items spares.now)) }
{
    table.known();
    let mut tables = List::new(alloc);
    for k in 0..table.function_count() {
        let function = FunId { n: k as u16 };
        let decl = table.function(function);
        tables.push(table_of(alloc, table, elements, spares, function, decl)?)?;
    }
    Ok(tables)
}
