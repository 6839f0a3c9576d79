ghost use Rattle.std.specs.Prelude.{◌≡◌, ℕ, ◌+◌, ◌<◌, length, get_or, IfOk};
ghost use Rattle.ras_logic.specs.declared.ids.SortId.{SortId};
ghost use Rattle.ras_closure.specs.Elements.{AreSorted, number, HaveElements};
ghost use Rattle.ras_closure.specs.Spares.{sized};
ghost use Rattle.ras_closure.specs.Models.{IsModelBy};

use crate::classes::Classes;
use crate::elements::{Elements, number_terms};
use crate::function_tables::tables;
use crate::spares::{lacking_functions, size, spare_sorts};
use crate::term_table::TermTable;
use crate::values::values;
use ras_logic::{List, RawDb, Values};
use std::alloc::{AllocError, Global};

/// A finite model: a database, and values of the variables, the named rows and the data parameters.
#[derive(Debug, Drop)]
pub struct Model {
    pub db: RawDb,
    pub values: Values,
}

/// How many elements each sort has.
fn sizes(
    alloc: Global,
    table: &TermTable,
    elements: &Elements,
    spares: &[bool],
) -> Result<List<u32>, AllocError>
    requires elements { HaveElements table.now elements.now.numbers.items elements.now.counts.items }
    requires spares { length spares.now ≡ table.now.shape.schema.sorts }
    ensures all { IfOk result (λ r. length r ≡ table.now.shape.schema.sorts) }
    ensures sizes { IfOk result (λ r. (s : SortId) → s.n < length r → get_or r s.n 0 ≡ sized elements.now.counts.items spares.now s) }
{
    let mut sizes = List::new(alloc);
    for sort in 0..table.sort_count() {
        sizes.push(size(elements, spares, sort))?;
    }
    Ok(sizes)
}

/// The element of each constant.
fn constants(alloc: Global, table: &TermTable, numbers: &[u32]) -> Result<List<u32>, AllocError>
    requires { length numbers.now ≡ length table.now.terms }
    ensures all { IfOk result (λ r. length r ≡ length table.now.shape.schema.constants) }
    ensures constants { IfOk result (λ r. (k : ℕ) → k < length r → get_or r k 0 ≡ number numbers.now (table.now.shape.schema.sorts + k)) }
{
    table.known();
    let mut constants = List::new(alloc);
    for i in table.sort_count()..table.rigid_count() {
        constants.push(numbers[i])?;
    }
    Ok(constants)
}

/// The model that the classes give.
pub fn model_of(alloc: Global, table: &TermTable, classes: &Classes) -> Result<Model, AllocError>
    requires { AreSorted table.now classes.now }
    ensures { IfOk result (λ m. IsModelBy table.now classes.now m.db m.values) }
{
    table.known();
    let elements = number_terms(alloc, table, classes)?;
    let lacking = lacking_functions(alloc, table, &elements)?;
    let spares = spare_sorts(alloc, table, &lacking)?;
    let sizes = sizes(alloc, table, &elements, &spares)?;
    let tables = tables(alloc, table, &elements, &spares)?;
    let constants = constants(alloc, table, &elements.numbers)?;
    let values = values(alloc, table, &elements.numbers)?;
    let db = RawDb {
        sizes,
        tables,
        constants,
    };
    Ok(Model { db, values })
}
