use ras_logic::{List, RawDb};
use ras_system::State;
use std::alloc::{AllocError, Global};

/// The sizes of the sorts, the images of their elements, and the elements of the constants.
#[derive(Clone, Copy)]
pub struct Held {
    pub sizes: &'static [u32],
    pub tables: &'static [&'static [u32]],
    pub constants: &'static [u32],
}

/// A list of these numbers.
pub fn list(alloc: Global, numbers: &[u32]) -> Result<List<u32>, AllocError> {
    let mut list = List::new(alloc);
    for n in numbers {
        list.push(*n)?;
    }
    Ok(list)
}

/// The lists of these numbers.
pub fn lists(alloc: Global, numbers: &[&[u32]]) -> Result<List<List<u32>>, AllocError> {
    let mut lists = List::new(alloc);
    for each in numbers {
        lists.push(list(alloc, each)?)?;
    }
    Ok(lists)
}

/// The database of these numbers.
pub fn raw(alloc: Global, held: Held) -> Result<RawDb, AllocError> {
    Ok(RawDb {
        sizes: list(alloc, held.sizes)?,
        tables: lists(alloc, held.tables)?,
        constants: list(alloc, held.constants)?,
    })
}

/// The state with these values of the variables, and these rows of each relation.
pub fn state(alloc: Global, vars: &[u32], rows: &[&[&[u32]]]) -> Result<State, AllocError> {
    let mut relations = List::new(alloc);
    for each in rows {
        relations.push(lists(alloc, each)?)?;
    }
    Ok(State {
        vars: list(alloc, vars)?,
        relations,
    })
}
