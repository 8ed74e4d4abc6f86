use lg_elem::DType;
use lg_tree::{Red, ScanCall};

/// A reserved word that stands for itself.
#[derive(Clone, Copy, Debug, PartialEq, Eq)]
pub enum Word {
    /// `True`
    True,
    /// `False`
    False,
    /// `None`
    NewAxis,
    /// `for`
    For,
    /// `in`
    In,
    /// `range`
    Range,
    /// `print`
    Print,
    /// `axis`
    Axis,
    /// `dtype`
    Dtype,
    /// `load`
    Load,
    /// `save`
    Save,
    /// A word that stands in no production.
    Unused,
}

/// A reserved word that names a function.
#[derive(Clone, Copy, Debug)]
pub enum Function {
    /// `full`
    Full,
    /// `zeros`
    Zeros,
    /// `ones`
    Ones,
    /// `arange`
    Arange,
    /// `array`
    Array,
    /// `abs`
    Abs,
    /// `minimum`
    Minimum,
    /// `maximum`
    Maximum,
    /// `where`
    Where,
    /// `sum`, and so for each reduction.
    Reduce(Red),
    /// `take`
    Take,
    /// `transpose`
    Transpose,
    /// `broadcast_to`
    BroadcastTo,
    /// `stencil`
    Stencil,
    /// `apply`
    Apply,
    /// `cumsum`, and so for each call that goes along one axis.
    Scan(ScanCall),
}

/// What a reserved word is to the grammar.
#[derive(Clone, Copy, Debug)]
pub enum Keyword {
    /// It stands for itself.
    Itself(Word),
    /// It names an element type.
    Element(DType),
    /// It names a function.
    Call(Function),
}
