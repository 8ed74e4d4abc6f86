/// A rule of the grammar whose use makes an expression deeper.
#[derive(Clone, Copy, Debug)]
pub enum Rule {
    /// A whole expression.
    Expression,
    /// An operand with its signs.
    Unary,
}
