use crate::ids::RelId;
use crate::kind::Kind;
use thiserror::Error;

/// Why variables and relations are no shape, the first fault in the order of the variants. A place counts the variables,
/// or the columns of all relations in order.
#[derive(Clone, Copy, Debug, PartialEq, Eq, Error)]
pub enum ShapeFault {
    #[error("too many of {kind:?}")]
    TooMany { kind: Kind },
    #[error("no such sort at {place} of {kind:?}")]
    BadSort { kind: Kind, place: u32 },
    #[error("no column in relation {}", relation.n)]
    NoColumn { relation: RelId },
}
