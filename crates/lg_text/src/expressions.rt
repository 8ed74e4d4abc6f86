//! The canonical text of an expression.
ghost use Rattle.std.specs.Prelude.{◌≡◌, ◌++◌, List, codes, true, OnOk};
ghost use Rattle.std.specs.Fmt.{decimal};
ghost use Rattle.lg_text.specs.Shares.{is_maker, is_computation, is_change};
ghost use Rattle.lg_text.specs.Text as spec;
ghost use Rattle.lg_tree.specs.View.{tree_of, item_of, list_of, shape_of, maybe_of, maybe_shape_of, items_of, trees_of};

use crate::words::{arith_text, compare_text, dtype_text, red_text, scan_text, truth_text};
use itoa::Buffer;
use lg_elem::DType;
use lg_tree::{Expr, Item, ListExpr, ShapeExpr};
use sqlite_items::Boxed;
use std::alloc::AllocError;

// Appends bytes.
pub(crate) fn put(out: &mut Vec<u8>, bytes: &[u8]) -> Result<(), AllocError>
    ensures { OnOk result (out.new.items ≡ out.old.items ++ bytes.now) }
{
    out.extend_from_slice(bytes)
}

// Appends a number in decimal.
fn put_number(out: &mut Vec<u8>, number: u64) -> Result<(), AllocError>
    ensures { OnOk result (out.new.items ≡ out.old.items ++ decimal number) }
{
    let mut buffer = Buffer::new();
    put(out, buffer.format(number).as_bytes())
}

// Appends a sign with a space on each side.
fn put_sign(out: &mut Vec<u8>, sign: &[u8]) -> Result<(), AllocError>
    ensures { OnOk result (out.new.items
        ≡ out.old.items ++ (codes " " ++ (sign.now ++ codes " "))) }
{
    put(out, b" ")?;
    put(out, sign)?;
    put(out, b" ")
}

// Appends the end of a call: the type, where there is one, and the parenthesis.
fn put_end(out: &mut Vec<u8>, dtype: Option<DType>) -> Result<(), AllocError>
    ensures { OnOk result (out.new.items ≡ out.old.items ++ (spec.type_text dtype ++ codes ")")) }
{
    match dtype {
        Some(dtype) => {
            put(out, b", ")?;
            put(out, dtype_text(dtype))?;
            put(out, b")")
        }
        None => put(out, b")"),
    }
}

// Appends the end of a tuple with a first member and this rest.
fn put_tuple_end(out: &mut Vec<u8>, rest: &[Expr]) -> Result<(), AllocError>
    ensures { OnOk result (out.new.items ≡ out.old.items
        ++ (spec.lone_comma (trees_of rest.now) ++ codes ")")) }
{
    match rest.split_first() {
        None => put(out, b",)"),
        Some(_) => put(out, b")"),
    }
}

// Whether an expression is an operator with its operands.
fn is_operator(e: &Expr) -> bool
    ensures { result ≡ spec.is_operator (tree_of e.now) }
{
    matches!(
        e,
        Expr::Neg(_) | Expr::Invert(_) | Expr::Arith(..) | Expr::MatMul(..) | Expr::Compare(..)
    )
}

// Appends an expression.
#[cycle(text)]
pub(crate) fn write_expr(out: &mut Vec<u8>, e: &Expr) -> Result<(), AllocError>
    ensures { OnOk result (out.new.items ≡ out.old.items ++ spec.text (tree_of e.now)) }
{
    match e {
        Expr::Number(n) => put_number(out, *n),
        Expr::Truth(b) => put(out, truth_text(*b)),
        Expr::Name(name) => put(out, name.as_slice()),
        Expr::Neg(_) | Expr::Invert(_) | Expr::Arith(..) | Expr::MatMul(..) | Expr::Compare(..) =>
            write_operation(out, e),
        Expr::Index(a, items) => {
            write_operand(out, a.get())?;
            write_index(out, items.as_slice())
        }
        Expr::Full(..) | Expr::Zeros(..) | Expr::Ones(..) | Expr::Arange(..) | Expr::Array(..) =>
            write_maker(out, e),
        Expr::Abs(_)
        | Expr::Minimum(..)
        | Expr::Maximum(..)
        | Expr::Where(..)
        | Expr::Reduce(..)
        | Expr::Take(..)
        | Expr::Stencil(..)
        | Expr::Apply(..)
        | Expr::Scan(..) => write_computation(out, e),
        Expr::Transpose(..)
        | Expr::BroadcastTo(..)
        | Expr::Copy(_)
        | Expr::Flatten(_)
        | Expr::AsType(..)
        | Expr::Reshape(..) => write_change(out, e),
    }
}

// Appends an operator with its operands.
#[cycle(text)]
fn write_operation(out: &mut Vec<u8>, e: &Expr) -> Result<(), AllocError>
    requires { spec.is_operator (tree_of e.now) ≡ true }
    ensures { OnOk result (out.new.items ≡ out.old.items ++ spec.text (tree_of e.now)) }
{
    match e {
        Expr::Neg(a) => {
            put(out, b"-")?;
            write_operand(out, a.get())
        }
        Expr::Invert(a) => {
            put(out, b"~")?;
            write_operand(out, a.get())
        }
        Expr::Arith(op, a, b) => {
            write_operand(out, a.get())?;
            put_sign(out, arith_text(*op))?;
            write_operand(out, b.get())
        }
        Expr::MatMul(a, b) => {
            write_operand(out, a.get())?;
            put_sign(out, b"@")?;
            write_operand(out, b.get())
        }
        Expr::Compare(op, a, b) => {
            write_operand(out, a.get())?;
            put_sign(out, compare_text(*op))?;
            write_operand(out, b.get())
        }
        _ => Ok(()),
    }
}

// Appends a call that makes an array of numbers.
#[cycle(text)]
fn write_maker(out: &mut Vec<u8>, e: &Expr) -> Result<(), AllocError>
    requires { is_maker (tree_of e.now) ≡ true }
    ensures { OnOk result (out.new.items ≡ out.old.items ++ spec.text (tree_of e.now)) }
{
    match e {
        Expr::Full(shape, value, dtype) => {
            put(out, b"full(")?;
            write_shape(out, shape)?;
            write_next(out, value.get())?;
            put_end(out, *dtype)
        }
        Expr::Zeros(shape, dtype) => {
            put(out, b"zeros(")?;
            write_shape(out, shape)?;
            put_end(out, *dtype)
        }
        Expr::Ones(shape, dtype) => {
            put(out, b"ones(")?;
            write_shape(out, shape)?;
            put_end(out, *dtype)
        }
        Expr::Arange(from, to, dtype) => match from {
            None => {
                write_first(out, b"arange", to.get())?;
                put_end(out, *dtype)
            }
            Some(from) => {
                write_first(out, b"arange", from.get())?;
                write_next(out, to.get())?;
                put_end(out, *dtype)
            }
        },
        Expr::Array(list, dtype) => {
            put(out, b"array(")?;
            write_list(out, list)?;
            put_end(out, *dtype)
        }
        _ => Ok(()),
    }
}

// Appends a call that computes with elements.
#[cycle(text)]
fn write_computation(out: &mut Vec<u8>, e: &Expr) -> Result<(), AllocError>
    requires { is_computation (tree_of e.now) ≡ true }
    ensures { OnOk result (out.new.items ≡ out.old.items ++ spec.text (tree_of e.now)) }
{
    match e {
        Expr::Abs(a) => {
            write_first(out, b"abs", a.get())?;
            put(out, b")")
        }
        Expr::Minimum(a, b) => {
            write_first(out, b"minimum", a.get())?;
            write_last(out, b.get())
        }
        Expr::Maximum(a, b) => {
            write_first(out, b"maximum", a.get())?;
            write_last(out, b.get())
        }
        Expr::Where(condition, a, b) => {
            write_first(out, b"where", condition.get())?;
            write_next(out, a.get())?;
            write_last(out, b.get())
        }
        Expr::Reduce(call, a, axis) => {
            write_first(out, red_text(*call), a.get())?;
            write_axis(out, axis)
        }
        Expr::Take(a, indices, axis) => {
            write_first(out, b"take", a.get())?;
            write_next(out, indices.get())?;
            write_axis(out, axis)
        }
        Expr::Stencil(a, weights) => {
            write_first(out, b"stencil", a.get())?;
            put(out, b", ")?;
            write_list(out, weights)?;
            put(out, b")")
        }
        Expr::Apply(operation, a, b) => {
            put(out, b"apply(")?;
            put(out, operation.as_slice())?;
            write_next(out, a.get())?;
            write_last(out, b.get())
        }
        Expr::Scan(call, a, axis) => {
            write_first(out, scan_text(*call), a.get())?;
            write_axis(out, axis)
        }
        _ => Ok(()),
    }
}

// Appends a call or a method that gives an array another form.
#[cycle(text)]
fn write_change(out: &mut Vec<u8>, e: &Expr) -> Result<(), AllocError>
    requires { is_change (tree_of e.now) ≡ true }
    ensures { OnOk result (out.new.items ≡ out.old.items ++ spec.text (tree_of e.now)) }
{
    match e {
        Expr::Transpose(a, axes) => {
            write_first(out, b"transpose", a.get())?;
            write_axes(out, axes)
        }
        Expr::BroadcastTo(a, shape) => {
            write_first(out, b"broadcast_to", a.get())?;
            put(out, b", ")?;
            write_shape(out, shape)?;
            put(out, b")")
        }
        Expr::Copy(a) => {
            write_operand(out, a.get())?;
            put(out, b".copy()")
        }
        Expr::Flatten(a) => {
            write_operand(out, a.get())?;
            put(out, b".flatten()")
        }
        Expr::AsType(a, dtype) => {
            write_operand(out, a.get())?;
            put(out, b".astype(")?;
            put(out, dtype_text(*dtype))?;
            put(out, b")")
        }
        Expr::Reshape(a, shape) => {
            write_operand(out, a.get())?;
            put(out, b".reshape(")?;
            write_shape(out, shape)?;
            put(out, b")")
        }
        _ => Ok(()),
    }
}

// Appends an operand, in parentheses where it is an operator.
#[cycle(text)]
fn write_operand(out: &mut Vec<u8>, e: &Expr) -> Result<(), AllocError>
    ensures { OnOk result (out.new.items ≡ out.old.items
        ++ spec.enclosed (spec.is_operator (tree_of e.now)) (spec.text (tree_of e.now))) }
{
    if is_operator(e) {
        put(out, b"(")?;
        write_expr(out, e)?;
        put(out, b")")
    } else {
        write_expr(out, e)
    }
}

// Appends the word of a call, its parenthesis and its first member.
#[cycle(text)]
fn write_first(out: &mut Vec<u8>, word: &[u8], e: &Expr) -> Result<(), AllocError>
    ensures { OnOk result (out.new.items ≡ out.old.items
        ++ (word.now ++ (codes "(" ++ spec.text (tree_of e.now)))) }
{
    put(out, word)?;
    put(out, b"(")?;
    write_expr(out, e)
}

// Appends a member behind another.
#[cycle(text)]
fn write_next(out: &mut Vec<u8>, e: &Expr) -> Result<(), AllocError>
    ensures { OnOk result (out.new.items ≡ out.old.items
        ++ (codes ", " ++ spec.text (tree_of e.now))) }
{
    put(out, b", ")?;
    write_expr(out, e)
}

// Appends the last member of a call, behind another, and the end of the call.
#[cycle(text)]
fn write_last(out: &mut Vec<u8>, e: &Expr) -> Result<(), AllocError>
    ensures { OnOk result (out.new.items ≡ out.old.items
        ++ (codes ", " ++ (spec.text (tree_of e.now) ++ codes ")"))) }
{
    put(out, b", ")?;
    write_expr(out, e)?;
    put(out, b")")
}

// Appends the axis of a call, where there is one, and the end of the call.
#[cycle(text)]
fn write_axis(out: &mut Vec<u8>, axis: &Option<Boxed<Expr>>) -> Result<(), AllocError>
    ensures { OnOk result (out.new.items ≡ out.old.items
        ++ (spec.part_text spec.axis_mark (maybe_of axis.now) ++ codes ")")) }
{
    match axis {
        Some(axis) => {
            put(out, b", axis=")?;
            write_expr(out, axis.get())?;
            put(out, b")")
        }
        None => put(out, b")"),
    }
}

// Appends the axes of a call, where there are some, and the end of the call.
#[cycle(text)]
fn write_axes(out: &mut Vec<u8>, axes: &Option<ShapeExpr>) -> Result<(), AllocError>
    ensures { OnOk result (out.new.items ≡ out.old.items
        ++ (spec.axes_text (maybe_shape_of axes.now) ++ codes ")")) }
{
    match axes {
        Some(axes) => {
            put(out, b", ")?;
            write_shape(out, axes)?;
            put(out, b")")
        }
        None => put(out, b")"),
    }
}

// Appends a shape.
#[cycle(text)]
fn write_shape(out: &mut Vec<u8>, shape: &ShapeExpr) -> Result<(), AllocError>
    ensures { OnOk result (out.new.items ≡ out.old.items ++ spec.shape_text (shape_of shape.now)) }
{
    match shape {
        ShapeExpr::One(e) => write_expr(out, e.get()),
        ShapeExpr::Tuple(members) => match members.as_slice().split_first() {
            None => put(out, b"()"),
            Some((first, rest)) => {
                put(out, b"(")?;
                write_expr(out, first)?;
                for e in rest {
                    write_next(out, e)?;
                }
                put_tuple_end(out, rest)
            }
        },
    }
}

// Appends an index with its brackets.
#[cycle(text)]
pub(crate) fn write_index(out: &mut Vec<u8>, items: &[Item]) -> Result<(), AllocError>
    ensures { OnOk result (out.new.items ≡ out.old.items ++ spec.index_text (items_of items.now)) }
{
    match items.split_first() {
        None => put(out, b"[]"),
        Some((first, rest)) => {
            put(out, b"[")?;
            write_item(out, first)?;
            for item in rest {
                put(out, b", ")?;
                write_item(out, item)?;
            }
            put(out, b"]")
        }
    }
}

// Appends an item of an index.
#[cycle(text)]
fn write_item(out: &mut Vec<u8>, item: &Item) -> Result<(), AllocError>
    ensures { OnOk result (out.new.items ≡ out.old.items ++ spec.item_text (item_of item.now)) }
{
    match item {
        Item::At(e) => write_expr(out, e),
        Item::Slice { start, stop, step } => {
            write_part(out, b"", start)?;
            put(out, b":")?;
            write_part(out, b"", stop)?;
            write_part(out, b":", step)
        }
        Item::NewAxis => put(out, b"None"),
        Item::Ellipsis => put(out, b"..."),
    }
}

// Appends a part of a slice behind a mark, where there is one.
#[cycle(text)]
fn write_part(out: &mut Vec<u8>, mark: &[u8], part: &Option<Expr>) -> Result<(), AllocError>
    ensures { OnOk result (out.new.items ≡ out.old.items
        ++ spec.part_text mark.now (maybe_of part.now)) }
{
    match part {
        Some(e) => {
            put(out, mark)?;
            write_expr(out, e)
        }
        None => Ok(()),
    }
}

// Appends a list, or an expression in it.
#[cycle(text)]
fn write_list(out: &mut Vec<u8>, list: &ListExpr) -> Result<(), AllocError>
    ensures { OnOk result (out.new.items ≡ out.old.items ++ spec.list_text (list_of list.now)) }
{
    match list {
        ListExpr::Leaf(e) => write_expr(out, e.get()),
        ListExpr::List(members) => match members.as_slice().split_first() {
            None => put(out, b"[]"),
            Some((first, rest)) => {
                put(out, b"[")?;
                write_list(out, first)?;
                for member in rest {
                    put(out, b", ")?;
                    write_list(out, member)?;
                }
                put(out, b"]")
            }
        },
    }
}
