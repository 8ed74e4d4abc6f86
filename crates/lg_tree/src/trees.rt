//! Expressions, statements and scripts.

use crate::kinds::{Arith, Red, ScanCall};
use lg_elem::{Compare, DType};
use sqlite_items::{Boxed, Items};

/// An expression.
#[cycle(tree)]
#[derive(Debug, Drop)]
pub enum Expr {
    /// A whole number.
    Number(u64),

    /// `True` or `False`
    Truth(bool),

    /// The value that a name is bound to.
    Name(Items<u8>),

    /// `-a`
    Neg(Boxed<Expr>),

    /// `~a`
    Invert(Boxed<Expr>),

    /// `a + b`, and so for each operation.
    Arith(Arith, Boxed<Expr>, Boxed<Expr>),

    /// `a @ b`
    MatMul(Boxed<Expr>, Boxed<Expr>),

    /// `a < b`, and so for each comparison.
    Compare(Compare, Boxed<Expr>, Boxed<Expr>),

    /// `a[items]`
    Index(Boxed<Expr>, Items<Item>),

    /// `full(shape, value, type)`
    Full(ShapeExpr, Boxed<Expr>, Option<DType>),

    /// `zeros(shape, type)`
    Zeros(ShapeExpr, Option<DType>),

    /// `ones(shape, type)`
    Ones(ShapeExpr, Option<DType>),

    /// `arange(stop, type)` or `arange(start, stop, type)`
    Arange(Option<Boxed<Expr>>, Boxed<Expr>, Option<DType>),

    /// `array(list, type)`, where the list is a `ListExpr::List`.
    Array(ListExpr, Option<DType>),

    /// `abs(a)`
    Abs(Boxed<Expr>),

    /// `minimum(a, b)`
    Minimum(Boxed<Expr>, Boxed<Expr>),

    /// `maximum(a, b)`
    Maximum(Boxed<Expr>, Boxed<Expr>),

    /// `where(condition, a, b)`
    Where(Boxed<Expr>, Boxed<Expr>, Boxed<Expr>),

    /// `sum(a, axis=k)`, and so for each reduction.
    Reduce(Red, Boxed<Expr>, Option<Boxed<Expr>>),

    /// `take(a, indices, axis=k)`
    Take(Boxed<Expr>, Boxed<Expr>, Option<Boxed<Expr>>),

    /// `transpose(a, axes)`
    Transpose(Boxed<Expr>, Option<ShapeExpr>),

    /// `broadcast_to(a, shape)`
    BroadcastTo(Boxed<Expr>, ShapeExpr),

    /// `stencil(a, weights)`, where the weights are a `ListExpr::List`.
    Stencil(Boxed<Expr>, ListExpr),

    /// `a.copy()`
    Copy(Boxed<Expr>),

    /// `a.flatten()`
    Flatten(Boxed<Expr>),

    /// `a.astype(type)`
    AsType(Boxed<Expr>, DType),

    /// `a.reshape(shape)`
    Reshape(Boxed<Expr>, ShapeExpr),

    /// `apply(operation, a, b)`, with an operation that the caller of the program hands in.
    Apply(Items<u8>, Boxed<Expr>, Boxed<Expr>),

    /// `cumsum(a, axis=k)`, and so for each such call.
    Scan(ScanCall, Boxed<Expr>, Option<Boxed<Expr>>),
}

/// One item of an index.
#[cycle(tree)]
#[derive(Debug, Drop)]
pub enum Item {
    /// The element at a place.
    At(Expr),

    /// `start:stop:step`, where each may be left out.
    Slice {
        /// Where it begins.
        start: Option<Expr>,
        /// What it ends before.
        stop: Option<Expr>,
        /// How far one element is from the next.
        step: Option<Expr>,
    },

    /// `None`, a new axis.
    NewAxis,

    /// `...`, all axes that no other item stands for.
    Ellipsis,
}

/// The extents of an array.
#[cycle(tree)]
#[derive(Debug, Drop)]
pub enum ShapeExpr {
    /// The one extent.
    One(Boxed<Expr>),

    /// The extents in parentheses.
    Tuple(Items<Expr>),
}

/// A list of expressions, or one expression in it.
#[cycle(tree)]
#[derive(Debug, Drop)]
pub enum ListExpr {
    /// An expression.
    Leaf(Boxed<Expr>),

    /// A list in brackets.
    List(Items<ListExpr>),
}

/// A statement.
#[cycle(lines)]
#[derive(Debug, Drop)]
pub enum Statement {
    /// `name = value`
    Bind {
        /// The name that is bound.
        name: Items<u8>,
        /// What it is bound to.
        value: Expr,
    },

    /// `name += value`, and so for each operation.
    Update {
        /// The name of the array that is changed, or that is bound anew.
        name: Items<u8>,
        /// The operation.
        op: Arith,
        /// Its right operand.
        value: Expr,
    },

    /// `name[index] = value`
    Put {
        /// The name of the array that is changed.
        name: Items<u8>,
        /// Where it is changed.
        index: Items<Item>,
        /// What is written there.
        value: Expr,
    },

    /// `name[index] += value`, and so for each operation.
    UpdateAt {
        /// The name of the array that is changed.
        name: Items<u8>,
        /// Where it is changed.
        index: Items<Item>,
        /// The operation.
        op: Arith,
        /// Its right operand.
        value: Expr,
    },

    /// `print(value)`
    Print {
        /// What is printed.
        value: Expr,
    },

    /// `for name in range(to):` or `for name in range(from, to):`
    For {
        /// The name of the loop's variable.
        name: Items<u8>,
        /// Its first value, 0 where it is left out.
        from: Option<Expr>,
        /// What it stays below.
        to: Expr,
        /// The lines of its block, one deeper.
        body: Items<Line>,
    },

    /// `name = load(file)`
    Load {
        /// The name that is bound.
        name: Items<u8>,
        /// The name of the file.
        file: Items<u8>,
    },

    /// `save(file, value)`
    Save {
        /// The name of the file.
        file: Items<u8>,
        /// What is written to it.
        value: Expr,
    },
}

/// A statement and the number of its line.
#[cycle(lines)]
#[derive(Debug, Drop)]
pub struct Line {
    /// The number of the line, counted from 1.
    pub number: u64,
    /// The statement.
    pub statement: Statement,
}

/// A script: its statements in the order of their lines.
#[derive(Debug, Drop)]
pub struct Script {
    /// The lines that hold a statement of depth 0.
    pub lines: Items<Line>,
}
