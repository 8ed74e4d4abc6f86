//! Trees of calls and methods, from parts that are parsed.

ghost use Rattle.std.specs.Prelude.{◌≡◌, ◌≤◌};
ghost use Rattle.lg_tree.specs.Measures.{height, maybe_height};
ghost use Rattle.lg_tree.specs.Tree.{full, zeros, ones, array, abs, minimum, maximum, choose, reduce, take, transpose, broadcast_to, stencil, copy, flatten, as_type, reshape, apply, scan, index, arange, no_tree, some_tree, no_shape, some_shape};
ghost use Rattle.lg_tree.specs.View.{tree_of, maybe_of, maybe_shape_of};
ghost use Rattle.lg_parse.specs.Parsing as spec;
ghost use Rattle.lg_parse.specs.Parts.{parsed_tree, parsed_part, parsed_shape, parsed_list, parsed_index};
ghost use Rattle.lg_parse.specs.Reading.{Gives};

use crate::ends::ParseEnd;
use crate::nodes::node;
use crate::parsed::{Parsed, ParsedItems, ParsedList, ParsedShape};
use lg_elem::DType;
use lg_tree::{Expr, Red, ScanCall, ShapeExpr};
use sqlite_items::{Boxed, Items};
use std::alloc::Global;

/// The height of a part that may be left out.
fn part_height(part: &Option<Parsed>) -> u64
    ensures height { result ≡ maybe_height (parsed_part part.now) }
    ensures low { result ≤ 200 }
{
    match part {
        Some(part) => part.height,
        None => 0,
    }
}

/// The tree of a part that may be left out.
fn part_tree(part: Option<Parsed>) -> Option<Boxed<Expr>>
    ensures { maybe_of result ≡ parsed_part part }
{
    match part {
        Some(Parsed { tree, .. }) => Some(tree),
        None => None,
    }
}

fn reduce_tree(red: Red, a: Boxed<Expr>, axis: Option<Boxed<Expr>>) -> Expr
    ensures { tree_of result ≡ reduce red (tree_of a) (maybe_of axis) }
{
    Expr::Reduce(red, a, axis)
}

fn scan_tree(call: ScanCall, a: Boxed<Expr>, axis: Option<Boxed<Expr>>) -> Expr
    ensures { tree_of result ≡ scan call (tree_of a) (maybe_of axis) }
{
    Expr::Scan(call, a, axis)
}

fn take_tree(a: Boxed<Expr>, i: Boxed<Expr>, axis: Option<Boxed<Expr>>) -> Expr
    ensures { tree_of result ≡ take (tree_of a) (tree_of i) (maybe_of axis) }
{
    Expr::Take(a, i, axis)
}

fn transpose_tree(a: Boxed<Expr>, axes: Option<ShapeExpr>) -> Expr
    ensures { tree_of result ≡ transpose (tree_of a) (maybe_shape_of axes) }
{
    Expr::Transpose(a, axes)
}

fn arange_tree(start: Option<Boxed<Expr>>, stop: Boxed<Expr>, dtype: Option<DType>) -> Expr
    ensures { tree_of result ≡ arange (maybe_of start) (tree_of stop) dtype }
{
    Expr::Arange(start, stop, dtype)
}

/// `full(shape, value, type)`
pub fn full_of(
    alloc: Global,
    shape: ParsedShape,
    value: Parsed,
    dtype: Option<DType>,
) -> Result<Parsed, ParseEnd>
    ensures { Gives parsed_tree (spec.low height (full (parsed_shape shape) (parsed_tree value) dtype)) result }
{
    let highest = shape.height.max(value.height);
    let ParsedShape { shape, .. } = shape;
    let Parsed { tree: value, .. } = value;
    Ok(node(alloc, Expr::Full(shape, value, dtype), highest)?)
}

/// `zeros(shape, type)`
pub fn zeros_of(alloc: Global, shape: ParsedShape, dtype: Option<DType>) -> Result<Parsed, ParseEnd>
    ensures { Gives parsed_tree (spec.low height (zeros (parsed_shape shape) dtype)) result }
{
    let highest = shape.height;
    let ParsedShape { shape, .. } = shape;
    Ok(node(alloc, Expr::Zeros(shape, dtype), highest)?)
}

/// `ones(shape, type)`
pub fn ones_of(alloc: Global, shape: ParsedShape, dtype: Option<DType>) -> Result<Parsed, ParseEnd>
    ensures { Gives parsed_tree (spec.low height (ones (parsed_shape shape) dtype)) result }
{
    let highest = shape.height;
    let ParsedShape { shape, .. } = shape;
    Ok(node(alloc, Expr::Ones(shape, dtype), highest)?)
}

/// `arange(stop, type)`
fn range_to(alloc: Global, stop: Parsed, dtype: Option<DType>) -> Result<Parsed, ParseEnd>
    ensures { Gives parsed_tree (spec.low height (arange no_tree (parsed_tree stop) dtype)) result }
{
    let Parsed { tree: stop, height } = stop;
    Ok(node(alloc, arange_tree(None, stop, dtype), height)?)
}

/// `arange(start, stop, type)`
fn range_of(
    alloc: Global,
    start: Parsed,
    stop: Parsed,
    dtype: Option<DType>,
) -> Result<Parsed, ParseEnd>
    ensures { Gives parsed_tree (spec.low height (arange (some_tree (parsed_tree start))
        (parsed_tree stop) dtype)) result }
{
    let highest = start.height.max(stop.height);
    let Parsed { tree: start, .. } = start;
    let Parsed { tree: stop, .. } = stop;
    Ok(node(alloc, arange_tree(Some(start), stop, dtype), highest)?)
}

/// `arange(stop, type)` or `arange(start, stop, type)`
pub fn arange_of(
    alloc: Global,
    first: Parsed,
    second: Option<Parsed>,
    dtype: Option<DType>,
) -> Result<Parsed, ParseEnd>
    ensures { Gives parsed_tree (spec.low height (spec.ranged (parsed_tree first)
        (parsed_part second) dtype)) result }
{
    match second {
        None => Ok(range_to(alloc, first, dtype)?),
        Some(stop) => Ok(range_of(alloc, first, stop, dtype)?),
    }
}

/// `array(list, type)`
pub fn array_of(alloc: Global, list: ParsedList, dtype: Option<DType>) -> Result<Parsed, ParseEnd>
    ensures { Gives parsed_tree (spec.low height (array (parsed_list list) dtype)) result }
{
    let highest = list.height;
    let ParsedList { list, .. } = list;
    Ok(node(alloc, Expr::Array(list, dtype), highest)?)
}

/// `abs(a)`
pub fn abs_of(alloc: Global, a: Parsed) -> Result<Parsed, ParseEnd>
    ensures { Gives parsed_tree (spec.low height (abs (parsed_tree a))) result }
{
    let highest = a.height;
    let Parsed { tree: a, .. } = a;
    Ok(node(alloc, Expr::Abs(a), highest)?)
}

/// `minimum(a, b)`
pub fn minimum_of(alloc: Global, a: Parsed, b: Parsed) -> Result<Parsed, ParseEnd>
    ensures { Gives parsed_tree (spec.low height (minimum (parsed_tree a) (parsed_tree b))) result }
{
    let highest = a.height.max(b.height);
    let Parsed { tree: a, .. } = a;
    let Parsed { tree: b, .. } = b;
    Ok(node(alloc, Expr::Minimum(a, b), highest)?)
}

/// `maximum(a, b)`
pub fn maximum_of(alloc: Global, a: Parsed, b: Parsed) -> Result<Parsed, ParseEnd>
    ensures { Gives parsed_tree (spec.low height (maximum (parsed_tree a) (parsed_tree b))) result }
{
    let highest = a.height.max(b.height);
    let Parsed { tree: a, .. } = a;
    let Parsed { tree: b, .. } = b;
    Ok(node(alloc, Expr::Maximum(a, b), highest)?)
}

/// `where(c, a, b)`
pub fn choice_of(alloc: Global, c: Parsed, a: Parsed, b: Parsed) -> Result<Parsed, ParseEnd>
    ensures { Gives parsed_tree (spec.low height (choose (parsed_tree c) (parsed_tree a) (parsed_tree b))) result }
{
    let highest = c.height.max(a.height.max(b.height));
    let Parsed { tree: c, .. } = c;
    let Parsed { tree: a, .. } = a;
    let Parsed { tree: b, .. } = b;
    Ok(node(alloc, Expr::Where(c, a, b), highest)?)
}

/// `sum(a, axis=k)`
pub fn reduce_of(
    alloc: Global,
    red: Red,
    a: Parsed,
    axis: Option<Parsed>,
) -> Result<Parsed, ParseEnd>
    ensures { Gives parsed_tree (spec.low height (reduce red (parsed_tree a) (parsed_part axis))) result }
{
    let highest = a.height.max(part_height(&axis));
    let Parsed { tree: a, .. } = a;
    let axis = part_tree(axis);
    Ok(node(alloc, reduce_tree(red, a, axis), highest)?)
}

/// `cumsum(a, axis=k)`
pub fn scan_of(
    alloc: Global,
    call: ScanCall,
    a: Parsed,
    axis: Option<Parsed>,
) -> Result<Parsed, ParseEnd>
    ensures { Gives parsed_tree (spec.low height (scan call (parsed_tree a) (parsed_part axis))) result }
{
    let highest = a.height.max(part_height(&axis));
    let Parsed { tree: a, .. } = a;
    let axis = part_tree(axis);
    Ok(node(alloc, scan_tree(call, a, axis), highest)?)
}

/// `take(a, i, axis=k)`
pub fn take_of(
    alloc: Global,
    a: Parsed,
    i: Parsed,
    axis: Option<Parsed>,
) -> Result<Parsed, ParseEnd>
    ensures { Gives parsed_tree (spec.low height (take (parsed_tree a) (parsed_tree i) (parsed_part axis))) result }
{
    let highest = a.height.max(i.height.max(part_height(&axis)));
    let Parsed { tree: a, .. } = a;
    let Parsed { tree: i, .. } = i;
    let axis = part_tree(axis);
    Ok(node(alloc, take_tree(a, i, axis), highest)?)
}

/// `transpose(a)`
pub fn reversed_of(alloc: Global, a: Parsed) -> Result<Parsed, ParseEnd>
    ensures { Gives parsed_tree (spec.low height (transpose (parsed_tree a) no_shape)) result }
{
    let highest = a.height;
    let Parsed { tree: a, .. } = a;
    Ok(node(alloc, transpose_tree(a, None), highest)?)
}

/// `transpose(a, axes)`
pub fn transpose_of(alloc: Global, a: Parsed, axes: ParsedShape) -> Result<Parsed, ParseEnd>
    ensures { Gives parsed_tree (spec.low height (transpose (parsed_tree a) (some_shape (parsed_shape axes)))) result }
{
    let highest = a.height.max(axes.height);
    let Parsed { tree: a, .. } = a;
    let ParsedShape { shape: axes, .. } = axes;
    Ok(node(alloc, transpose_tree(a, Some(axes)), highest)?)
}

/// `broadcast_to(a, shape)`
pub fn broadcast_of(alloc: Global, a: Parsed, shape: ParsedShape) -> Result<Parsed, ParseEnd>
    ensures { Gives parsed_tree (spec.low height (broadcast_to (parsed_tree a) (parsed_shape shape))) result }
{
    let highest = a.height.max(shape.height);
    let Parsed { tree: a, .. } = a;
    let ParsedShape { shape, .. } = shape;
    Ok(node(alloc, Expr::BroadcastTo(a, shape), highest)?)
}

/// `stencil(a, weights)`
pub fn stencil_of(alloc: Global, a: Parsed, weights: ParsedList) -> Result<Parsed, ParseEnd>
    ensures { Gives parsed_tree (spec.low height (stencil (parsed_tree a) (parsed_list weights))) result }
{
    let highest = a.height.max(weights.height);
    let Parsed { tree: a, .. } = a;
    let ParsedList { list: weights, .. } = weights;
    Ok(node(alloc, Expr::Stencil(a, weights), highest)?)
}

/// `apply(name, a, b)`
pub fn apply_of(alloc: Global, name: &[u8], a: Parsed, b: Parsed) -> Result<Parsed, ParseEnd>
    ensures { Gives parsed_tree (spec.low height (apply name.now (parsed_tree a) (parsed_tree b))) result }
{
    let highest = a.height.max(b.height);
    let Parsed { tree: a, .. } = a;
    let Parsed { tree: b, .. } = b;
    let name = Items::from_slice(alloc, name)?;
    Ok(node(alloc, Expr::Apply(name, a, b), highest)?)
}

/// `a.copy()`
pub fn copy_of(alloc: Global, a: Parsed) -> Result<Parsed, ParseEnd>
    ensures { Gives parsed_tree (spec.low height (copy (parsed_tree a))) result }
{
    let highest = a.height;
    let Parsed { tree: a, .. } = a;
    Ok(node(alloc, Expr::Copy(a), highest)?)
}

/// `a.flatten()`
pub fn flatten_of(alloc: Global, a: Parsed) -> Result<Parsed, ParseEnd>
    ensures { Gives parsed_tree (spec.low height (flatten (parsed_tree a))) result }
{
    let highest = a.height;
    let Parsed { tree: a, .. } = a;
    Ok(node(alloc, Expr::Flatten(a), highest)?)
}

/// `a.astype(type)`
pub fn cast_of(alloc: Global, a: Parsed, dtype: DType) -> Result<Parsed, ParseEnd>
    ensures { Gives parsed_tree (spec.low height (as_type (parsed_tree a) dtype)) result }
{
    let highest = a.height;
    let Parsed { tree: a, .. } = a;
    Ok(node(alloc, Expr::AsType(a, dtype), highest)?)
}

/// `a.reshape(shape)`
pub fn reshape_of(alloc: Global, a: Parsed, shape: ParsedShape) -> Result<Parsed, ParseEnd>
    ensures { Gives parsed_tree (spec.low height (reshape (parsed_tree a) (parsed_shape shape))) result }
{
    let highest = a.height.max(shape.height);
    let Parsed { tree: a, .. } = a;
    let ParsedShape { shape, .. } = shape;
    Ok(node(alloc, Expr::Reshape(a, shape), highest)?)
}

/// `a[items]`
pub fn index_of(alloc: Global, a: Parsed, items: ParsedItems) -> Result<Parsed, ParseEnd>
    ensures { Gives parsed_tree (spec.low height (index (parsed_tree a) (parsed_index items))) result }
{
    let highest = a.height.max(items.height);
    let Parsed { tree: a, .. } = a;
    let ParsedItems { members: items, .. } = items;
    Ok(node(alloc, Expr::Index(a, items), highest)?)
}
