use lg_elem::{Binary, Compare, Unary};
use lg_shape::Shape;
use sqlite_items::Items;

/// What an elementwise operation is applied to.
#[derive(Clone, Copy, Debug, PartialEq, Eq)]
pub enum Operand {
    /// A tile, by its place among the inputs.
    Input(u32),

    /// One number at each index.
    Constant(i128),
}

/// An elementwise operation. Its operands are wrapped to the type of the result first, but for a
/// comparison, which goes by the operands' own numbers.
#[derive(Debug, Drop)]
pub enum MapOp {
    /// An operation on one operand.
    Unary(Unary, Operand),

    /// An operation on two operands.
    Binary(Binary, Operand, Operand),

    /// A comparison, whose result is a truth value.
    Compare(Compare, Operand, Operand),

    /// The second operand where the first is not 0, else the third (NumPy's reference,
    /// "numpy.where").
    Select(Operand, Operand, Operand),

    /// The operand itself, as an element of the result's type (NumPy's reference,
    /// "numpy.ndarray.astype").
    Cast(Operand),

    /// The same number at each index (NumPy's reference, "numpy.full").
    Fill(i128),

    /// The numbers from this one on, one more at each index of the one axis (NumPy's reference,
    /// "numpy.arange").
    Count(i128),

    /// The numbers of an array of this shape, in row-major order (NumPy's reference,
    /// "numpy.array").
    List(Shape, Items<i128>),
}
