//! Which forms of the language a session evaluates so far.
ghost use Rattle.std.specs.Prelude.{◌≡◌, ◌&&◌, map, option_map};
ghost use Rattle.lg_tree.specs.View.{tree_of, item_of, shape_of, list_of, item_trees, maybe_tree, maybe_of, maybe_shape, statement_of, lines_of, script_of};
ghost use Rattle.lg_session.specs.Built.{is_built_tree, is_built_maybe, is_built_shape as is_built_shape_tree, is_built_axes as is_built_axes_tree, is_built_item as is_built_item_tree, are_built_items as are_built_items_tree, is_built_list as is_built_list_tree, is_built as is_built_statement, unbuilt_in as unbuilt_in_lines, unbuilt_at as unbuilt_at_line, first_unbuilt as first_unbuilt_of};

use lg_tree::{Expr, Item, Line, ListExpr, Script, ShapeExpr, Statement};
use sqlite_items::Boxed;

/// The number of the first line that a session does not evaluate yet, in the order of the text.
pub fn first_unbuilt(script: &Script) -> Option<u64>
    ensures { result ≡ first_unbuilt_of (script_of script.now) }
{
    unbuilt_in(script.lines.as_slice())
}

// The same of lines and their blocks.
#[cycle(lines)]
fn unbuilt_in(lines: &[Line]) -> Option<u64>
    ensures { result ≡ unbuilt_in_lines (lines_of lines.now) }
{
    for line in lines {
        if let Some(number) = unbuilt_at(line.number, &line.statement) {
            return Some(number);
        }
    }
    None
}

// The same of the line of a statement, and of the statement's block, if it has one.
#[cycle(lines)]
fn unbuilt_at(number: u64, statement: &Statement) -> Option<u64>
    ensures { result ≡ unbuilt_at_line number (statement_of statement.now) }
{
    match statement {
        Statement::For { from, to, body, .. } if are_built_bounds(from, to) => {
            unbuilt_in(body.as_slice())
        }
        _ if is_built(statement) => None,
        _ => Some(number),
    }
}

// Whether a session evaluates the bounds of a loop.
fn are_built_bounds(from: &Option<Expr>, to: &Expr) -> bool
    ensures { result ≡ (is_built_maybe (maybe_of from.now) && is_built_tree (tree_of to.now)) }
{
    let first = match from {
        Some(from) => is_built_expr(from),
        None => true,
    };
    first && is_built_expr(to)
}

/// Whether a session evaluates a statement that is no loop.
pub fn is_built(statement: &Statement) -> bool
    ensures { result ≡ is_built_statement (statement_of statement.now) }
{
    match statement {
        Statement::Bind { value, .. }
        | Statement::Update { value, .. }
        | Statement::Print { value } => is_built_expr(value),
        Statement::Put { index, value, .. } | Statement::UpdateAt { index, value, .. } => {
            are_built_items(index.as_slice()) && is_built_expr(value)
        }
        Statement::For { .. } | Statement::Load { .. } | Statement::Save { .. } => false,
    }
}

// Whether a session evaluates an expression.
#[cycle(forms)]
fn is_built_expr(value: &Expr) -> bool
    ensures { result ≡ is_built_tree (tree_of value.now) }
{
    match value {
        Expr::Number(_) | Expr::Truth(_) | Expr::Name(_) => true,
        Expr::Neg(a) | Expr::Invert(a) | Expr::Abs(a) => is_built_expr(a.get()),
        Expr::Arith(_, a, b) => is_built_expr(a.get()) && is_built_expr(b.get()),
        Expr::Compare(_, a, b) => is_built_expr(a.get()) && is_built_expr(b.get()),
        Expr::Minimum(a, b) | Expr::Maximum(a, b) => {
            is_built_expr(a.get()) && is_built_expr(b.get())
        }
        Expr::Where(c, a, b) => {
            is_built_expr(c.get()) && is_built_expr(a.get()) && is_built_expr(b.get())
        }
        Expr::Full(shape, x, _) => is_built_shape(shape) && is_built_expr(x.get()),
        Expr::Zeros(shape, _) | Expr::Ones(shape, _) => is_built_shape(shape),
        Expr::Arange(from, to, _) => is_built_bound(from) && is_built_expr(to.get()),
        Expr::Array(list, _) => is_built_list(list),
        Expr::Index(a, items) => is_built_expr(a.get()) && are_built_items(items.as_slice()),
        Expr::Transpose(a, axes) => is_built_expr(a.get()) && is_built_axes(axes),
        Expr::BroadcastTo(a, shape) => is_built_expr(a.get()) && is_built_shape(shape),
        Expr::Copy(a) | Expr::Flatten(a) | Expr::AsType(a, _) => is_built_expr(a.get()),
        Expr::Reshape(a, shape) => is_built_expr(a.get()) && is_built_shape(shape),
        Expr::MatMul(_, _)
        | Expr::Reduce(_, _, _)
        | Expr::Take(_, _, _)
        | Expr::Stencil(_, _)
        | Expr::Apply(_, _, _)
        | Expr::Scan(_, _, _) => false,
    }
}

// The same of a bound that may be left out.
#[cycle(forms)]
fn is_built_bound(from: &Option<Boxed<Expr>>) -> bool
    ensures { result ≡ is_built_maybe (maybe_tree (option_map tree_of from.now)) }
{
    match from {
        Some(from) => is_built_expr(from.get()),
        None => true,
    }
}

// The same of a shape.
#[cycle(forms)]
fn is_built_shape(shape: &ShapeExpr) -> bool
    ensures { result ≡ is_built_shape_tree (shape_of shape.now) }
{
    match shape {
        ShapeExpr::One(extent) => is_built_expr(extent.get()),
        ShapeExpr::Tuple(extents) => {
            for extent in extents.as_slice() {
                if !is_built_expr(extent) {
                    return false;
                }
            }
            true
        }
    }
}

// The same of the axes of a transpose, which may be left out.
#[cycle(forms)]
fn is_built_axes(axes: &Option<ShapeExpr>) -> bool
    ensures { result ≡ is_built_axes_tree (maybe_shape (option_map shape_of axes.now)) }
{
    match axes {
        Some(axes) => is_built_shape(axes),
        None => true,
    }
}

// The same of the items of an index.
#[cycle(forms)]
fn are_built_items(items: &[Item]) -> bool
    ensures { result ≡ are_built_items_tree (item_trees (map item_of items.now)) }
{
    for item in items {
        if !is_built_item(item) {
            return false;
        }
    }
    true
}

// The same of one item.
#[cycle(forms)]
fn is_built_item(item: &Item) -> bool
    ensures { result ≡ is_built_item_tree (item_of item.now) }
{
    match item {
        Item::At(at) => is_built_expr(at),
        Item::Slice { start, stop, step } => {
            is_built_part(start) && is_built_part(stop) && is_built_part(step)
        }
        Item::NewAxis | Item::Ellipsis => true,
    }
}

// The same of a part of a slice, which may be left out.
#[cycle(forms)]
fn is_built_part(part: &Option<Expr>) -> bool
    ensures { result ≡ is_built_maybe (maybe_tree (option_map tree_of part.now)) }
{
    match part {
        Some(part) => is_built_expr(part),
        None => true,
    }
}

// The same of what stands in a list.
#[cycle(forms)]
fn is_built_list(list: &ListExpr) -> bool
    ensures { result ≡ is_built_list_tree (list_of list.now) }
{
    match list {
        ListExpr::Leaf(value) => is_built_expr(value.get()),
        ListExpr::List(lists) => {
            for list in lists.as_slice() {
                if !is_built_list(list) {
                    return false;
                }
            }
            true
        }
    }
}
