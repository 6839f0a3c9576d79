use ras_logic::FunId;

/// What is wrong with a name, a sort or a count. In `Cycle` the function is the one that closes the cycle.
#[derive(Clone, Copy, Debug, PartialEq, Eq)]
pub enum SpecKind {
    DuplicateName,
    UnknownName,
    WrongSort,
    Cycle { function: FunId },
    TooMany,
    TooWide,
    RepeatedTarget,
}

/// Why a file of the grammar denotes no system: the place of a token, the number of the bytes before it, and what is wrong
/// there.
#[derive(Clone, Copy, Debug, PartialEq, Eq)]
pub struct SpecFault {
    pub at: u32,
    pub kind: SpecKind,
}
