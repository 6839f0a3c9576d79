use ras_logic::{FunDecl, List, Schema, Shape, SortId};
use std::alloc::{AllocError, Global};

/// How many sorts there are, and the sorts of functions, constants, variables and columns, by number.
#[derive(Clone, Copy)]
pub struct Sizes {
    pub sorts: u16,
    /// The source and the target of each function, and whether it is total.
    pub functions: &'static [(u16, u16, bool)],
    pub constants: &'static [u16],
    pub vars: &'static [u16],
    pub relations: &'static [&'static [u16]],
}

/// The sorts of these numbers.
pub fn sorts(alloc: Global, numbers: &[u16]) -> Result<List<SortId>, AllocError> {
    let mut sorts = List::new(alloc);
    for n in numbers {
        sorts.push(SortId { n: *n })?;
    }
    Ok(sorts)
}

fn functions(alloc: Global, sides: &[(u16, u16, bool)]) -> Result<List<FunDecl>, AllocError> {
    let mut functions = List::new(alloc);
    for (source, target, total) in sides {
        functions.push(FunDecl {
            source: SortId { n: *source },
            target: SortId { n: *target },
            total: *total,
        })?;
    }
    Ok(functions)
}

fn relations(alloc: Global, columns: &[&[u16]]) -> Result<List<List<SortId>>, AllocError> {
    let mut relations = List::new(alloc);
    for numbers in columns {
        relations.push(sorts(alloc, numbers)?)?;
    }
    Ok(relations)
}

/// The shape of these sizes, where they are within the limits.
pub fn shape(alloc: Global, sizes: Sizes) -> Option<Shape> {
    let functions = functions(alloc, sizes.functions).ok()?;
    let constants = sorts(alloc, sizes.constants).ok()?;
    let vars = sorts(alloc, sizes.vars).ok()?;
    let relations = relations(alloc, sizes.relations).ok()?;
    let schema = Schema::new(sizes.sorts, functions, constants).ok()?;
    Shape::new(schema, vars, relations).ok()
}
