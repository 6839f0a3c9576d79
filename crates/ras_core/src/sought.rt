/// What is looked for among the entries: one that is kept and free, or one that is kept and not done.
#[derive(Clone, Copy, Debug, PartialEq, Eq)]
pub enum Sought {
    Free,
    Unfinished,
}
