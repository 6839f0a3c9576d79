use ras_logic::{ConstId, FunId};
use thiserror::Error;

/// The part of a database that is at fault: one of its lists, or one of its tables.
#[derive(Clone, Copy, Debug, PartialEq, Eq)]
pub enum Part {
    Sizes,
    Tables,
    Table,
    Constants,
}

/// Why numbers are no database of a schema, the first fault: the lengths of the lists; then each table in order, its length,
/// then its entries from element 1 on; then each constant in order. A place is the number of the table or constant, and 0
/// where a whole list has the wrong length. `at` is the element whose image is at fault, and 0 for a constant.
#[derive(Clone, Copy, Debug, PartialEq, Eq, Error)]
pub enum DbFault {
    /// A list or a table that is not as long as it must be.
    #[error("wrong length: {place} of {part:?}")]
    WrongLength { part: Part, place: u32 },
    /// An image that is no element of the target, or a constant that is no element of its sort, or is undef.
    #[error("out of range: {at} of {place} of {part:?}")]
    OutOfRange { part: Part, place: u32, at: u32 },
    /// A total function with undef as the image of an element.
    #[error("function {} has no image of {at}", function.n)]
    UndefImage { function: FunId, at: u32 },
    /// The first constant that is the same element as an earlier one of its sort, and that one.
    #[error("constants {} and {} are the same", first.n, second.n)]
    ConstantClash { first: ConstId, second: ConstId },
}
