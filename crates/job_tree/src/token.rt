//! Tokens: names, numbers, and the marks of the language.

ghost use Rattle.std.specs.Prelude.{◌≡◌};
ghost use Rattle.job_tree.specs.Mark.{number_of};

/// Where a name stands in the text: the place of its first byte, and how many bytes it has.
#[derive(Clone, Copy)]
pub struct Span {
    pub at: u32,
    pub len: u32,
}

/// A number of at most 9,223,372,036,854,775,807, and the place of its first digit.
#[derive(Clone, Copy)]
pub struct Num {
    pub at: u32,
    pub value: u64,
}

/// A reserved word or a symbol.
#[derive(Clone, Copy)]
pub enum Mark {
    Job,
    Iterate,
    Array,
    State,
    Int,
    Entry,
    From,
    Wrap,
    Else,
    Reduce,
    Sum,
    Min,
    Max,
    Step,
    When,
    Overlap,
    Send,
    Contribute,
    If,
    For,
    In,
    Answer,
    At,
    Index,
    Row,
    Col,
    Cell,
    Iter,
    And,
    Or,
    Not,
    Faults,
    OpenBrace,
    CloseBrace,
    OpenBracket,
    CloseBracket,
    OpenParen,
    CloseParen,
    Comma,
    Dot,
    DotDot,
    Colon,
    Assign,
    Equal,
    NotEqual,
    Less,
    LessEqual,
    Greater,
    GreaterEqual,
    Plus,
    Minus,
    Times,
    Divide,
    Remainder,
}

impl Mark {
    /// A mark's place in the list above, from 0.
    pub fn number(self) -> u8
        ensures { result ≡ number_of self }
    {
        self as u8
    }
}

/// What a token is.
#[derive(Clone, Copy)]
pub enum Kind {
    Name(Span),
    Number(Num),
    Mark(Mark),
    /// A byte at which no token begins. Nothing is read behind it.
    Bad,
    /// A number above the greatest one. Nothing is read behind it.
    TooLarge,
    /// The end of the text.
    End,
}

/// A token, and the place of its first byte. The last one of a text is `End`, `Bad` or `TooLarge`.
#[derive(Clone, Copy)]
pub struct Token {
    pub kind: Kind,
    pub at: u32,
}

/// A mark that opens a level: its place, and how many levels may be opened behind it.
#[derive(Clone, Copy)]
pub struct Opened {
    pub at: u32,
    pub left: u32,
}

/// What stands at the front of a text, and how many bytes it has.
#[derive(Clone, Copy)]
pub enum Piece {
    /// A blank, or a comment up to its line's end.
    Blank(u32),
    /// A token behind which the text is read on.
    Token(Kind, u32),
    /// A token behind which nothing is read.
    Last(Kind),
}
