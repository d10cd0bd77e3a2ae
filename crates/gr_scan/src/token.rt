//! Tokens: names, numbers, strings, keywords, operators and punctuation.
ghost use Rattle.std.specs.Prelude.{◌≡◌};
ghost use Rattle.gr_scan.specs.Tokens.{place_of_span};

/// A keyword, an operator or a punctuation mark (Go: Keywords, Operators and punctuation).
#[derive(Clone, Copy, PartialEq, Eq)]
pub enum Mark {
    Break,
    Case,
    Chan,
    Const,
    Continue,
    Default,
    Defer,
    Else,
    Fallthrough,
    For,
    Func,
    Go,
    Goto,
    If,
    Import,
    Interface,
    Map,
    Package,
    Range,
    Return,
    Select,
    Struct,
    Switch,
    Type,
    Var,
    Plus,
    Minus,
    Star,
    Slash,
    Percent,
    And,
    Or,
    Caret,
    ShiftLeft,
    ShiftRight,
    AndNot,
    PlusAssign,
    MinusAssign,
    StarAssign,
    SlashAssign,
    PercentAssign,
    AndAssign,
    OrAssign,
    CaretAssign,
    ShiftLeftAssign,
    ShiftRightAssign,
    AndNotAssign,
    AndAnd,
    OrOr,
    Arrow,
    PlusPlus,
    MinusMinus,
    Equal,
    Less,
    Greater,
    Assign,
    Not,
    NotEqual,
    LessEqual,
    GreaterEqual,
    Define,
    Ellipsis,
    LeftParen,
    LeftBracket,
    LeftBrace,
    Comma,
    Dot,
    RightParen,
    RightBracket,
    RightBrace,
    Semicolon,
    Colon,
}

/// What a token is.
#[derive(Drop)]
pub enum Kind<'a> {
    /// An identifier, where it stands in the text.
    Name(&'a [u8]),
    /// A whole number, at most 2^63.
    Number(u64),
    /// A string literal, by the bytes that it stands for. They lie on the heap, so that other tokens take no room for them.
    Text(Box<Vec<u8>>),
    Mark(Mark),
}

/// Where a token stands.
#[derive(Clone, Copy, PartialEq, Eq)]
pub struct Place {
    /// The number of bytes before the token.
    pub start: usize,
    /// The number of bytes up to its end; an inserted semicolon ends where it starts.
    pub end: usize,
    /// The line on which it starts; the first is 1.
    pub line: usize,
}

/// The place of a token in 32-bit numbers, as the token keeps it. No text is too long for them, and tokens are many.
#[derive(Clone, Copy, PartialEq, Eq)]
pub struct Span {
    /// The number of bytes before the token.
    pub start: u32,
    /// The number of bytes up to its end; an inserted semicolon ends where it starts.
    pub end: u32,
    /// The line on which it starts; the first is 1.
    pub line: u32,
}

/// A token of a text.
#[derive(Drop)]
pub struct Token<'a> {
    pub kind: Kind<'a>,
    pub span: Span,
}

impl Token<'_> {
    /// Where it stands.
    pub fn place(&self) -> Place
        ensures { result ≡ place_of_span self.now.span }
    {
        Place {
            start: self.span.start as usize,
            end: self.span.end as usize,
            line: self.span.line as usize,
        }
    }
}
