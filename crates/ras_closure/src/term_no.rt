/// The number of a term of a closure, from 0.
#[derive(Clone, Copy, Debug, PartialEq, Eq)]
pub struct TermNo {
    pub n: u32,
}
