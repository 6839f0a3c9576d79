//! What the calls of a store answer.

/// What became of a cube that was to be an entry, or a hit.
#[derive(Clone, Copy, Debug, PartialEq, Eq)]
pub enum Admitted {
    /// It is the entry of this number; of a hit, there are so many entries.
    In { number: u32 },
    /// A hit stands.
    Stopped,
    /// The ticket of this entry is no longer good.
    Gone { number: u32 },
    /// The witness meets this entry.
    Overtaken { number: u32 },
    /// There are as many entries as the budget.
    Full { budget: u32 },
}

/// What became of a cube that needs no entry.
#[derive(Clone, Copy, Debug, PartialEq, Eq)]
pub enum Skipped {
    /// It is a submission of its origin.
    Noted,
    /// The ticket of this entry is no longer good, or this reason is no kept entry with its cube.
    Gone { number: u32 },
}

/// What became of an entry that was to be dropped.
#[derive(Clone, Copy, Debug, PartialEq, Eq)]
pub enum Dropped {
    /// It is no longer kept.
    Done,
    /// The entry of this number is not kept, or of another cube.
    Gone { number: u32 },
}

/// What became of the work on an entry.
#[derive(Clone, Copy, Debug, PartialEq, Eq)]
pub enum Finished {
    /// It is done, or given back.
    Done,
    /// The ticket of this entry is no longer good.
    Gone { number: u32 },
    /// The cube of this index is no submission of the entry.
    Missing { index: u32 },
}

/// Whether nothing is left to do.
#[derive(Clone, Copy, Debug, PartialEq, Eq)]
pub enum Quiet {
    Yes,
    /// This is the first kept entry that is not done, or the number of entries where there is none.
    Open { entry: u32 },
}
