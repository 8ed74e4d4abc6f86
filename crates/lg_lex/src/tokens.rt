//! The tokens of a line.

/// What a token is. The operators have the names of Python's own tokens.
#[derive(Clone, Copy, Debug, PartialEq, Eq)]
pub enum TokenKind {
    /// A letter or `_`, and then letters, digits and `_`.
    Word,
    /// Decimal digits that write a number below 2^64, with no needless zero in front.
    Number,
    /// `**=`
    DoubleStarEqual,
    /// `//=`
    DoubleSlashEqual,
    /// `<<=`
    LeftShiftEqual,
    /// `>>=`
    RightShiftEqual,
    /// `...`
    Ellipsis,
    /// `**`
    DoubleStar,
    /// `//`
    DoubleSlash,
    /// `<<`
    LeftShift,
    /// `>>`
    RightShift,
    /// `<=`
    LessEqual,
    /// `>=`
    GreaterEqual,
    /// `==`
    EqualEqual,
    /// `!=`
    NotEqual,
    /// `+=`
    PlusEqual,
    /// `-=`
    MinusEqual,
    /// `*=`
    StarEqual,
    /// `%=`
    PercentEqual,
    /// `&=`
    AmpersandEqual,
    /// `|=`
    BarEqual,
    /// `^=`
    CircumflexEqual,
    /// `+`
    Plus,
    /// `-`
    Minus,
    /// `*`
    Star,
    /// `%`
    Percent,
    /// `@`
    At,
    /// `&`
    Ampersand,
    /// `|`
    Bar,
    /// `^`
    Circumflex,
    /// `~`
    Tilde,
    /// `<`
    Less,
    /// `>`
    Greater,
    /// `=`
    Equal,
    /// `(`
    LeftParenthesis,
    /// `)`
    RightParenthesis,
    /// `[`
    LeftBracket,
    /// `]`
    RightBracket,
    /// `,`
    Comma,
    /// `:`
    Colon,
    /// `.`
    Dot,
}

/// A token: the bytes of its line from `start` to `end`.
#[derive(Clone, Copy, Debug, PartialEq, Eq)]
pub struct Token {
    /// What it is.
    pub kind: TokenKind,
    /// The place of its first byte.
    pub start: u32,
    /// The place after its last byte.
    pub end: u32,
}

/// Why a line has no tokens.
#[derive(Clone, Copy, Debug, PartialEq, Eq)]
pub enum LexEnd {
    /// Behind the tokens before it stands at this place a byte that is no blank and begins no
    /// comment and no token.
    Fault {
        /// The place in the line.
        place: u32,
    },
    /// There is no memory for the tokens.
    NoMemory,
}
