//! The operations, reductions and calls that a form names.

/// An operation of two operands that a script writes between them.
#[derive(Clone, Copy, Debug, PartialEq, Eq)]
pub enum Arith {
    /// `+`
    Add,

    /// `-`
    Sub,

    /// `*`
    Mul,

    /// `//`
    FloorDiv,

    /// `%`
    Rem,

    /// `**`
    Pow,

    /// `&`
    BitAnd,

    /// `|`
    BitOr,

    /// `^`
    BitXor,

    /// `<<`
    Shl,

    /// `>>`
    Shr,
}

/// A reduction of an array over one axis, or over all of them.
#[derive(Clone, Copy, Debug, PartialEq, Eq)]
pub enum Red {
    /// `sum`
    Sum,

    /// `prod`
    Prod,

    /// `min`
    Min,

    /// `max`
    Max,

    /// `any`
    Any,

    /// `all`
    All,
}

/// A call that goes along one axis of an array, element after element.
#[derive(Clone, Copy, Debug, PartialEq, Eq)]
pub enum ScanCall {
    /// `cumsum`
    CumSum,

    /// `cumprod`
    CumProd,

    /// `argmin`
    ArgMin,

    /// `argmax`
    ArgMax,
}
