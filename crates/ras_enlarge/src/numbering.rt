ghost use Rattle.std.specs.Prelude.{◌≡◌, ◌+◌, ◌<◌, ◌∷◌, ◌++◌, [], length, set, IfOk};
ghost use Rattle.ras_logic.specs.Databases.{IsDatabase};
ghost use Rattle.ras_enlarge.specs.Numbers.{AreNumberedTo, size_in};

use ras_closure::TermNo;
use ras_database::{Database, value};
use ras_logic::{Plain, SortId, Values};
use ras_split::Case;
use std::alloc::{AllocError, Global};

/// The elements of the terms of a case, and the sizes of the sorts with the new ones among them.
#[derive(Debug, Drop)]
pub struct Numbers {
    pub numbers: Vec<u32>,
    pub sizes: Vec<u32>,
}

/// The next element of a sort. Where a number is too great for it, there is no room.
fn next_element(sizes: &mut [u32], sort: SortId) -> Result<u32, AllocError>
    requires { sort.n < length sizes.old }
    ensures { IfOk result (λ x. (x ≡ size_in sizes.old sort + 1) × (sizes.new ≡ set sizes.old sort.n x)) }
{
    let size = sizes[sort.n as usize];
    if size == 4_294_967_295 {
        return Err(AllocError);
    }
    sizes[sort.n as usize] = size + 1;
    Ok(size + 1)
}

/// The element of a term: the value of what stands for it, that of an earlier term of its class, or a new one.
fn number_of(
    case: &Case,
    db: &Database,
    values: &Values,
    numbers: &[u32],
    sizes: &mut [u32],
    i: usize,
) -> Result<u32, AllocError>
    requires within { i < length case.now.closure.table.terms }
    requires so_far { AreNumberedTo case.now db.now values.now i numbers.now sizes.old }
    ensures { IfOk result (λ x. AreNumberedTo case.now db.now values.now (i + 1) (numbers.now ++ x ∷ []) sizes.new) }
{
    case.known();
    let closure = case.closure();
    let class = closure.class_of(TermNo { n: i as u32 }) as usize;
    if let Some(by) = &case.standing()[class] {
        return Ok(value(db, values, by));
    }
    if class < i {
        return Ok(numbers[class]);
    }
    next_element(sizes, closure.table().sort(i))
}

/// The elements of the terms of a case: those of the database where something stands for a term, and else a new one for each
/// class of a sort.
pub fn number_terms(
    alloc: Global,
    case: &Case,
    db: &Database,
    values: &Values,
) -> Result<Numbers, AllocError>
    requires { IsDatabase case.now.closure.table.shape.schema db.now }
    ensures { IfOk result (λ e. AreNumberedTo case.now db.now values.now (length case.now.closure.table.terms) e.numbers.items e.sizes.items) }
{
    let count = case.closure().table().len();
    let mut sizes = db.raw().sizes.copy(alloc)?.into_vec();
    let mut numbers = Vec::with_capacity(alloc, count)?;
    for i in 0..count {
        let number = number_of(case, db, values, &numbers, &mut sizes, i)?;
        numbers.push(number)?;
    }
    Ok(Numbers { numbers, sizes })
}
