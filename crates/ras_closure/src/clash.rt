ghost use Rattle.std.specs.Prelude.{◌≡◌, ◌<◌, ◌^◌};

use crate::term_no::TermNo;

/// Two terms that must be the same, and can't be: they were asserted apart, or are two constants, or a constant and undef.
#[derive(Clone, Copy, Debug, PartialEq, Eq)]
pub struct Clash {
    pub left: TermNo,
    pub right: TermNo,
}

impl Clash {
    /// The clash of the terms of these numbers.
    pub fn between(left: usize, right: usize) -> Clash
        requires left { left < 2 ^ 32 }
        requires right { right < 2 ^ 32 }
        ensures left { result.left.n ≡ left }
        ensures right { result.right.n ≡ right }
    {
        Clash {
            left: TermNo { n: left as u32 },
            right: TermNo { n: right as u32 },
        }
    }
}
