/// What is wrong with a statement. This project's own; its order is that of the message texts.
#[derive(Clone, Copy, Debug, PartialEq, Eq)]
pub enum FaultKind {
    /// A name that is not bound.
    Name,

    /// A value of the wrong kind or type.
    TypeKind,

    /// A number that does not fit its type.
    Range,

    /// Shapes that do not go together.
    Shape,

    /// An index or an axis that is out of range.
    Index,

    /// A slice's step.
    Step,

    /// A divisor that is 0.
    Divisor,

    /// An exponent below 0.
    Power,

    /// A write to what can't be written.
    ReadOnly,

    /// More elements or statements than there may be.
    Limit,
}
