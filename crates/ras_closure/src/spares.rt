ghost use Rattle.std.specs.Prelude.{◌≡◌, ℕ, ◌<◌, length, get_or, None, MatchOption, MatchBool, true, false, IfOk, IfSome};
ghost use Rattle.std.specs.Bool.{OnTrue, OnFalse};
ghost use Rattle.ras_closure.specs.Elements.{HaveElements};
ghost use Rattle.ras_closure.specs.Spares.{IsLacking, AreLacking, NeedsSpare, IsNeeded, AreSpared, AreSpares, sized};

use crate::elements::Elements;
use crate::images::images_of;
use crate::term_table::TermTable;
use ras_logic::{FunDecl, FunId};
use std::alloc::{AllocError, Global};

/// Whether some image was not found.
fn has_gap(images: &[Option<u32>]) -> bool
    ensures gap { OnTrue result ((x : ℕ) × (x < length images.now) × (get_or images.now x None ≡ None)) }
    ensures full { OnFalse result ((x : ℕ) → x < length images.now → get_or images.now x None ≡ None → ⊥) }
{
    images.iter().any(|image| image.is_none())
}

/// Whether some element of the source's classes has no image by a total function.
fn is_lacking(
    alloc: Global,
    table: &TermTable,
    elements: &Elements,
    function: FunId,
    decl: FunDecl,
) -> Result<bool, AllocError>
    requires elements { HaveElements table.now elements.now.numbers.items elements.now.counts.items }
    requires source { decl.source.n < table.now.shape.schema.sorts }
    ensures { IfOk result (λ b. MatchBool b (IsLacking table.now elements.now.numbers.items elements.now.counts.items function decl) (IsLacking table.now elements.now.numbers.items elements.now.counts.items function decl → ⊥)) }
{
    table.known();
    if decl.total {
        let count = elements.count_of(decl.source);
        let images = images_of(alloc, table, &elements.numbers, function, count)?;
        let gap = has_gap(&images);
        return Ok(gap);
    }
    Ok(false)
}

/// For each function whether some element of the source's classes has no image by it, though it is total.
pub fn lacking_functions(
    alloc: Global,
    table: &TermTable,
    elements: &Elements,
) -> Result<Vec<bool>, AllocError>
    requires { HaveElements table.now elements.now.numbers.items elements.now.counts.items }
    ensures all { IfOk result (λ v. length v.items ≡ length table.now.shape.schema.functions) }
    ensures lacking { IfOk result (λ v. AreLacking table.now elements.now.numbers.items elements.now.counts.items v.items) }
{
    table.known();
    let mut lacking = Vec::new(alloc);
    for k in 0..table.function_count() {
        let function = FunId { n: k as u16 };
        let decl = table.function(function);
        let lacks = is_lacking(alloc, table, elements, function, decl)?;
        lacking.push(lacks)?;
    }
    Ok(lacking)
}

/// Whether a function needs a spare element that is not there.
fn lacks_spare(decl: FunDecl, lacking: bool, spares: &[bool]) -> bool
    requires source { decl.source.n < length spares.now }
    requires target { decl.target.n < length spares.now }
    ensures needs { OnTrue result (NeedsSpare lacking spares.now decl) }
    ensures open { OnTrue result (get_or spares.now decl.target.n false ≡ false) }
    ensures spared { OnFalse result (NeedsSpare lacking spares.now decl → get_or spares.now decl.target.n false ≡ true) }
{
    let has_spare = spares[decl.target.n as usize];
    let is_missing = lacking || spares[decl.source.n as usize];
    decl.total && is_missing && !has_spare
}

/// A sort that needs a spare element and has none.
fn next_spare(table: &TermTable, lacking: &[bool], spares: &[bool]) -> Option<usize>
    requires long { length lacking.now ≡ length table.now.shape.schema.functions }
    requires sorts { length spares.now ≡ table.now.shape.schema.sorts }
    ensures needed { MatchOption result (AreSpared table.now.shape.schema.functions lacking.now spares.now (length table.now.shape.schema.functions)) (IsNeeded table.now.shape.schema.functions lacking.now spares.now) }
    ensures open { IfSome result (λ s. (s < length spares.now) × (get_or spares.now s false ≡ false)) }
{
    table.known();
    for k in 0..table.function_count() {
        let decl = table.function(FunId { n: k as u16 });
        if lacks_spare(decl, lacking[k], spares) {
            return Some(decl.target.n as usize);
        }
    }
    None
}

/// The sorts that need a spare element: the images by a total function that are missing are theirs.
pub fn spare_sorts(
    alloc: Global,
    table: &TermTable,
    lacking: &[bool],
) -> Result<Vec<bool>, AllocError>
    requires { length lacking.now ≡ length table.now.shape.schema.functions }
    ensures { IfOk result (λ v. AreSpares table.now lacking.now v.items) }
{
    let mut spares = vec![in alloc; false; table.sort_count()]?;
    while let Some(sort) = next_spare(table, lacking, &spares) {
        spares[sort] = true;
    }
    Ok(spares)
}

/// How many elements a sort has.
pub fn size(elements: &Elements, spares: &[bool], sort: usize) -> u32
    requires counted { sort < length elements.now.counts.items }
    requires spared { sort < length spares.now }
    requires few { get_or elements.now.counts.items sort 0 < 4294967295 }
    ensures { result ≡ sized elements.now.counts.items spares.now (record { n = sort }) }
{
    let count = elements.counts[sort];
    if spares[sort] { count + 1 } else { count }
}
