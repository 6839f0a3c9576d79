use crate::ids::FunId;
use crate::kind::Kind;
use thiserror::Error;

/// Why numbers are no schema, the first fault in the order of the variants. A place counts the functions or constants.
#[derive(Clone, Copy, Debug, PartialEq, Eq, Error)]
pub enum SchemaFault {
    #[error("too many of {kind:?}")]
    TooMany { kind: Kind },
    #[error("no such sort at {place} of {kind:?}")]
    BadSort { kind: Kind, place: u32 },
    #[error("a cycle at function {}", function.n)]
    Cycle { function: FunId },
}
