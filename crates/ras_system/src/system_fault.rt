use thiserror::Error;

/// A place of a system, by the numbers of what stands there.
#[derive(Clone, Copy, Debug, PartialEq, Eq)]
pub enum SystemPlace {
    Initial(u16),
    Transition(u16),
    Guard { transition: u16, disjunct: u16 },
    Update { transition: u16, index: u16 },
    Bulk { transition: u16, index: u16 },
    Goal(u16),
}

/// What is wrong at a place: a count beyond its limit, a number that names nothing, sorts that differ, what is assigned
/// twice or stands apart from the cases of its relation, a guard without disjuncts.
#[derive(Clone, Copy, Debug, PartialEq, Eq)]
pub enum SystemKind {
    Limit,
    Range,
    Sort,
    Target,
    NoDisjunct,
}

/// Why parts are no system: the first place at fault, and the first kind of fault there.
#[derive(Clone, Copy, Debug, PartialEq, Eq, Error)]
#[error("{kind:?} at {place:?}")]
pub struct SystemFault {
    pub place: SystemPlace,
    pub kind: SystemKind,
}
