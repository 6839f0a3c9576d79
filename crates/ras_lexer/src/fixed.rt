ghost use Rattle.std.specs.Prelude.{◌≡◌, ◌≢◌, MatchOption};
ghost use Rattle.std.specs.List.{find};
ghost use Rattle.std.specs.Str.{bytes_eq};
ghost use Rattle.ras_lexer.specs.Words.{fixed_bytes};
ghost use Rattle.ras_lexer.specs.Lengths.{of_length};
ghost use Rattle.ras_lexer.specs.declared.fixed.Fixed as declared;

/// A reserved word or a sign.
#[derive(Clone, Copy, Debug, PartialEq, Eq)]
pub enum Fixed {
    System,
    Sort,
    Total,
    Nullable,
    Const,
    Var,
    Relation,
    Step,
    Row,
    Param,
    When,
    Or,
    And,
    True,
    Undef,
    Each,
    If,
    Unsafe,
    OpenBrace,
    CloseBrace,
    OpenParen,
    CloseParen,
    Semicolon,
    Colon,
    Comma,
    Dot,
    Equal,
    NotEqual,
    Assign,
    Arrow,
}

impl Fixed {
    /// All of them, each once.
    pub const ALL: [Fixed; 30] = [
        Fixed::System,
        Fixed::Sort,
        Fixed::Total,
        Fixed::Nullable,
        Fixed::Const,
        Fixed::Var,
        Fixed::Relation,
        Fixed::Step,
        Fixed::Row,
        Fixed::Param,
        Fixed::When,
        Fixed::Or,
        Fixed::And,
        Fixed::True,
        Fixed::Undef,
        Fixed::Each,
        Fixed::If,
        Fixed::Unsafe,
        Fixed::OpenBrace,
        Fixed::CloseBrace,
        Fixed::OpenParen,
        Fixed::CloseParen,
        Fixed::Semicolon,
        Fixed::Colon,
        Fixed::Comma,
        Fixed::Dot,
        Fixed::Equal,
        Fixed::NotEqual,
        Fixed::Assign,
        Fixed::Arrow,
    ];

    /// The one that is written by these bytes, if there is one.
    pub fn of(bytes: &[u8]) -> Option<Fixed>
        ensures { MatchOption result ((f : declared.Fixed) → fixed_bytes f ≢ bytes.now) (λ f. fixed_bytes f ≡ bytes.now) }
    {
        first_written(Self::of_length(bytes.len()), bytes)
    }

    /// Those that are written by this many bytes, so that a word is compared with few of them.
    fn of_length(length: usize) -> &'static [Fixed]
        ensures { result.now ≡ of_length length }
    {
        match length {
            1 => &[
                Fixed::Dot,
                Fixed::Equal,
                Fixed::Semicolon,
                Fixed::Colon,
                Fixed::Comma,
                Fixed::OpenBrace,
                Fixed::CloseBrace,
                Fixed::OpenParen,
                Fixed::CloseParen,
            ],
            2 => &[
                Fixed::NotEqual,
                Fixed::Assign,
                Fixed::Or,
                Fixed::If,
                Fixed::Arrow,
            ],
            3 => &[Fixed::And, Fixed::Row, Fixed::Var],
            4 => &[
                Fixed::Step,
                Fixed::When,
                Fixed::Each,
                Fixed::True,
                Fixed::Sort,
            ],
            5 => &[Fixed::Undef, Fixed::Param, Fixed::Const, Fixed::Total],
            6 => &[Fixed::Unsafe, Fixed::System],
            8 => &[Fixed::Relation, Fixed::Nullable],
            _ => &[],
        }
    }

    /// The bytes by which it is written.
    pub fn bytes(self) -> &'static [u8]
        ensures { result.now ≡ fixed_bytes self }
    {
        match self {
            Fixed::System => b"system",
            Fixed::Sort => b"sort",
            Fixed::Total => b"total",
            Fixed::Nullable => b"nullable",
            Fixed::Const => b"const",
            Fixed::Var => b"var",
            Fixed::Relation => b"relation",
            Fixed::Step => b"step",
            Fixed::Row => b"row",
            Fixed::Param => b"param",
            Fixed::When => b"when",
            Fixed::Or => b"or",
            Fixed::And => b"and",
            Fixed::True => b"true",
            Fixed::Undef => b"undef",
            Fixed::Each => b"each",
            Fixed::If => b"if",
            Fixed::Unsafe => b"unsafe",
            Fixed::OpenBrace => b"{",
            Fixed::CloseBrace => b"}",
            Fixed::OpenParen => b"(",
            Fixed::CloseParen => b")",
            Fixed::Semicolon => b";",
            Fixed::Colon => b":",
            Fixed::Comma => b",",
            Fixed::Dot => b".",
            Fixed::Equal => b"=",
            Fixed::NotEqual => b"!=",
            Fixed::Assign => b":=",
            Fixed::Arrow => b"->",
        }
    }
}

fn first_written(all: &[Fixed], bytes: &[u8]) -> Option<Fixed>
    ensures { result ≡ find (λ f. bytes_eq (fixed_bytes f) bytes.now) all.now }
{
    all.iter().copied().find(|fixed| fixed.bytes() == bytes)
}
