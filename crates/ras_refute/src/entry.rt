ghost use Rattle.std.specs.Prelude.{◌≡◌, ◌↔◌, IsTrue};
ghost use Rattle.ras_refute.specs.Clashing.{rigid_of};

use ras_logic::{Base, ConstId, FunId};

/// A term of a table: a base alone, or a function's image of an earlier term.
#[derive(Clone, Copy, Debug, PartialEq, Eq)]
pub enum Entry {
    Root(Base),
    Image { of: u32, function: FunId },
}

/// The numbers of two terms of a table.
#[derive(Clone, Copy, Debug)]
pub struct Pair {
    pub left: u32,
    pub right: u32,
}

/// What a term is in each database: undef, or the element of a constant. All undefs are one.
#[derive(Clone, Copy, Debug, PartialEq, Eq)]
pub enum Rigid {
    Undef,
    Constant(ConstId),
}

/// What a term is in each database, where it is an undef or a constant.
pub fn as_rigid(entry: Entry) -> Option<Rigid>
    ensures { result ≡ rigid_of entry }
{
    match entry {
        Entry::Root(Base::Undef(_)) => Some(Rigid::Undef),
        Entry::Root(Base::Constant(c)) => Some(Rigid::Constant(c)),
        _ => None,
    }
}

/// Whether two of them are the same.
pub fn are_same(left: Rigid, right: Rigid) -> bool
    ensures { IsTrue result ↔ (left ≡ right) }
{
    left == right
}
