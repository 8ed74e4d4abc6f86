/// An operation on one element.
#[derive(Clone, Copy, Debug, PartialEq, Eq)]
pub enum Unary {
    /// Unary `-`.
    Neg,

    /// `~`.
    Invert,

    /// `abs`.
    Abs,
}

/// An operation on two elements of one type.
#[derive(Clone, Copy, Debug, PartialEq, Eq)]
pub enum Binary {
    /// `+`.
    Add,

    /// `-`.
    Sub,

    /// `*`.
    Mul,

    /// `//`.
    FloorDiv,

    /// `%`.
    Rem,

    /// `**`.
    Pow,

    /// `&`.
    BitAnd,

    /// `|`.
    BitOr,

    /// `^`.
    BitXor,

    /// `<<`.
    Shl,

    /// `>>`.
    Shr,

    /// `minimum`.
    Min,

    /// `maximum`.
    Max,
}

/// A comparison of two elements, also of different types.
#[derive(Clone, Copy, Debug, PartialEq, Eq)]
pub enum Compare {
    /// `==`.
    Eq,

    /// `!=`.
    Ne,

    /// `<`.
    Lt,

    /// `<=`.
    Le,

    /// `>`.
    Gt,

    /// `>=`.
    Ge,
}

/// Whether an operation on elements went well, and what was wrong with an operand if it did not.
#[derive(Clone, Copy, Debug, PartialEq, Eq)]
pub enum Flag {
    /// The number is the operation's.
    Clear,

    /// The divisor is 0.
    Divisor,

    /// The exponent is below 0.
    Power,
}
