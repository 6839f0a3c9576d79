use ras_logic::Literal;

/// The cases of a split that are left.
#[derive(Clone, Copy, Debug)]
pub struct Cases<'a> {
    /// How many facts stand above the split.
    pub above: usize,
    /// The literals of the formula, one for each case.
    pub literals: &'a [Literal],
    /// The rows that stand for the formula's.
    pub rows: &'a [u32],
    /// The first case that is left.
    pub next: usize,
}
