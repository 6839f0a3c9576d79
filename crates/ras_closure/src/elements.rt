ghost use Rattle.std.specs.Prelude.{◌≡◌, ℕ, ◌+◌, ◌<◌, length, IfOk, ◌++◌, ◌∷◌, []};
ghost use Rattle.ras_closure.specs.Elements.{count, AreSorted, AreNumbered};

use crate::classes::Classes;
use crate::term_table::TermTable;
use ras_logic::SortId;
use std::alloc::{AllocError, Global};

/// For each term the number of its element in a finite model, and for each sort how many elements its classes have. The
/// class of undef has none: its element is 0.
#[derive(Debug, Drop)]
pub struct Elements {
    pub numbers: Vec<u32>,
    pub counts: Vec<u32>,
}

impl Elements {
    /// How many elements the classes of a sort have.
    pub fn count_of(&self, sort: SortId) -> u32
        requires { sort.n < length self.now.counts.items }
        ensures { result ≡ count self.now.counts.items sort }
    {
        self.counts[sort.n as usize]
    }
}

/// The element of a term: undef's, that of an earlier term of its class, or the next one of its sort.
fn next_element(
    table: &TermTable,
    classes: &Classes,
    numbers: &[u32],
    counts: &mut [u32],
    i: usize,
) -> u32
    requires sorted { AreSorted table.now classes.now }
    requires within { i < length table.now.terms }
    requires numbered { AreNumbered table.now classes.now numbers.now counts.old i }
    ensures { AreNumbered table.now classes.now (numbers.now ++ result ∷ []) counts.new (i + 1) }
{
    table.known();
    let class = classes.of(i) as usize;
    if class < table.sort_count() {
        return 0;
    }
    if class < i {
        return numbers[class];
    }
    let sort = table.sort(i).n as usize;
    let element = counts[sort] + 1;
    counts[sort] = element;
    element
}

/// One element for each class of its sort other than undef's.
pub fn number_terms(
    alloc: Global,
    table: &TermTable,
    classes: &Classes,
) -> Result<Elements, AllocError>
    requires { AreSorted table.now classes.now }
    ensures { IfOk result (λ e. AreNumbered table.now classes.now e.numbers.items e.counts.items (length table.now.terms)) }
{
    let mut numbers = Vec::with_capacity(alloc, table.len())?;
    let mut counts = vec![in alloc; 0; table.sort_count()]?;
    for i in 0..table.len() {
        let element = next_element(table, classes, &numbers, &mut counts, i);
        numbers.push(element)?;
    }
    Ok(Elements { numbers, counts })
}
