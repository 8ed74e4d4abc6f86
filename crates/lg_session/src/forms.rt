//! The forms of expressions whose parts are evaluated already.
ghost use Rattle.std.specs.Prelude.{◌≡◌, [], ◌∷◌, length, map, option_copied, option_map, ℕ, pos, IfOk, IfSome, MatchResult};
ghost use Rattle.lg_elem.specs.declared.dtype.DType.TheVariants.{Int64};
ghost use Rattle.lg_elem.specs.declared.kinds.Unary.TheVariants.{Neg};
ghost use Rattle.lg_meaning.specs.Faults.{from_both, from_part};
ghost use Rattle.lg_meaning.specs.Weak.{number_of};
ghost use Rattle.lg_shape.specs.Shapes.{size_of};
ghost use Rattle.lg_session.specs.Lists.{gathered};
ghost use Rattle.lg_meaning.specs.Static.{integers as integers_of, integer_of, weak_of as weak_part};
ghost use Rattle.lg_meaning.specs.Operators.{arith_static, compare_static, neg_static, unary_static, binary_static, choose_static, operation as operation_of, binary_value, compare_value, unary_value, choose_value};
ghost use Rattle.lg_meaning.specs.Creation.{full_static, shaped, arange_static, type_or, array_static, list_type, filled, counted as counted_from, listed as listed_as};
ghost use Rattle.lg_meaning.specs.Value.{only};
ghost use Rattle.lg_operations.specs.Operations.{weak_answer, weak_of, IsRanged};
ghost use Rattle.lg_session.specs.Roots.{contents};
ghost use Rattle.lg_session.specs.Values.{value_static, value_in, AreIntegers, IsUsable, IsComputed, IsWeakAnswer};

use crate::lists::Members;
use crate::session::Session;
use crate::value::Value;
use lg_elem::{Binary, Compare, DType, Unary};
use lg_meaning::FaultKind;
use lg_operations::{
    EvaluateEnd, Weak, binary, choose, compare, counted, full, listed, ones, unary, weak_arith,
    weak_compare, weak_negative, zeros,
};
use lg_tile::Room;
use lg_tree::Arith;
use std::alloc::Global;

/// `-a`
pub(crate) fn negative(room: Room<'_>, session: &Session, a: &Value) -> Result<Value, EvaluateEnd>
    requires { IsUsable (contents session.now.roots) a.now }
    ensures usable { IfOk result (IsUsable (contents session.now.roots)) }
    ensures computed { IsComputed (neg_static (value_static a.now))
        (unary_value Neg (value_in (contents session.now.roots) a.now)) result }
{
    match a {
        Value::Weak(w) => Ok(Value::Weak(known(weak_negative(*w))?)),
        _ => one_operand(room, session, Unary::Neg, a),
    }
}

/// `~a` and `abs(a)`
pub(crate) fn one_operand(
    room: Room<'_>,
    session: &Session,
    op: Unary,
    a: &Value,
) -> Result<Value, EvaluateEnd>
    requires { IsUsable (contents session.now.roots) a.now }
    ensures usable { IfOk result (IsUsable (contents session.now.roots)) }
    ensures computed { IsComputed (unary_static op (value_static a.now))
        (unary_value op (value_in (contents session.now.roots) a.now)) result }
{
    let a = session.read(a);
    Ok(Value::Fresh(unary(room, session.pieces, op, &a)?))
}

/// `a + b`, and so for each operation of two operands.
pub(crate) fn arithmetic(
    room: Room<'_>,
    session: &Session,
    op: Arith,
    a: &Value,
    b: &Value,
) -> Result<Value, EvaluateEnd>
    requires first { IsUsable (contents session.now.roots) a.now }
    requires second { IsUsable (contents session.now.roots) b.now }
    ensures usable { IfOk result (IsUsable (contents session.now.roots)) }
    ensures computed { IsComputed (arith_static op (value_static a.now) (value_static b.now))
        (binary_value (operation_of op) (value_in (contents session.now.roots) a.now)
        (value_in (contents session.now.roots) b.now)) result }
{
    if let (Value::Weak(v), Value::Weak(w)) = (a, b) {
        if let Some(answer) = weak_arith(op, *v, *w) {
            return Ok(Value::Weak(known(answer)?));
        }
    }
    two_operands(room, session, operation(op), a, b)
}

/// `minimum(a, b)` and `maximum(a, b)`
pub(crate) fn two_operands(
    room: Room<'_>,
    session: &Session,
    op: Binary,
    a: &Value,
    b: &Value,
) -> Result<Value, EvaluateEnd>
    requires first { IsUsable (contents session.now.roots) a.now }
    requires second { IsUsable (contents session.now.roots) b.now }
    ensures usable { IfOk result (IsUsable (contents session.now.roots)) }
    ensures computed { IsComputed (binary_static op (value_static a.now) (value_static b.now))
        (binary_value op (value_in (contents session.now.roots) a.now)
        (value_in (contents session.now.roots) b.now)) result }
{
    let (a, b) = (session.read(a), session.read(b));
    Ok(Value::Fresh(binary(room, session.pieces, op, &a, &b)?))
}

/// `a < b`, and so for each comparison.
pub(crate) fn comparison(
    room: Room<'_>,
    session: &Session,
    op: Compare,
    a: &Value,
    b: &Value,
) -> Result<Value, EvaluateEnd>
    requires first { IsUsable (contents session.now.roots) a.now }
    requires second { IsUsable (contents session.now.roots) b.now }
    ensures usable { IfOk result (IsUsable (contents session.now.roots)) }
    ensures computed { IsComputed (compare_static op (value_static a.now) (value_static b.now))
        (compare_value op (value_in (contents session.now.roots) a.now)
        (value_in (contents session.now.roots) b.now)) result }
{
    if let (Value::Weak(v), Value::Weak(w)) = (a, b) {
        return Ok(Value::Weak(weak_compare(op, *v, *w)));
    }
    let (a, b) = (session.read(a), session.read(b));
    Ok(Value::Fresh(compare(room, session.pieces, op, &a, &b)?))
}

/// `where(condition, a, b)`
pub(crate) fn choice(
    room: Room<'_>,
    session: &Session,
    condition: &Value,
    a: &Value,
    b: &Value,
) -> Result<Value, EvaluateEnd>
    requires condition { IsUsable (contents session.now.roots) condition.now }
    requires first { IsUsable (contents session.now.roots) a.now }
    requires second { IsUsable (contents session.now.roots) b.now }
    ensures usable { IfOk result (IsUsable (contents session.now.roots)) }
    ensures computed { IsComputed
        (choose_static (value_static condition.now) (value_static a.now) (value_static b.now))
        (choose_value (value_in (contents session.now.roots) condition.now)
        (value_in (contents session.now.roots) a.now)
        (value_in (contents session.now.roots) b.now)) result }
{
    let condition = session.read(condition);
    let (a, b) = (session.read(a), session.read(b));
    Ok(Value::Fresh(choose(room, session.pieces, &condition, &a, &b)?))
}

/// `full(shape, x, type)`
pub(crate) fn full_array(
    room: Room<'_>,
    session: &Session,
    extents: &[Value],
    x: &Value,
    dtype: Option<DType>,
) -> Result<Value, EvaluateEnd>
    requires { IsUsable (contents session.now.roots) x.now }
    ensures usable { IfOk result (IsUsable (contents session.now.roots)) }
    ensures computed { IsComputed
        (from_both (integers_of (map value_static extents.now)) (weak_part (value_static x.now))
        (λ xs w. full_static xs w dtype))
        (filled (only (value_in (contents session.now.roots) x.now))) result }
{
    let extents = integers(room.alloc(), extents)?;
    let x = weak(x)?;
    Ok(Value::Fresh(full(room, session.pieces, &extents, x, dtype)?))
}

/// `zeros(shape, type)`
pub(crate) fn array_of_zeros(
    room: Room<'_>,
    session: &Session,
    extents: &[Value],
    dtype: Option<DType>,
) -> Result<Value, EvaluateEnd>
    ensures usable { IfOk result (IsUsable (contents session.now.roots)) }
    ensures computed { IsComputed
        (from_part (integers_of (map value_static extents.now)) (shaped (type_or dtype Int64)))
        (filled (pos 0)) result }
{
    let extents = integers(room.alloc(), extents)?;
    Ok(Value::Fresh(zeros(room, session.pieces, &extents, dtype)?))
}

/// `ones(shape, type)`
pub(crate) fn array_of_ones(
    room: Room<'_>,
    session: &Session,
    extents: &[Value],
    dtype: Option<DType>,
) -> Result<Value, EvaluateEnd>
    ensures usable { IfOk result (IsUsable (contents session.now.roots)) }
    ensures computed { IsComputed
        (from_part (integers_of (map value_static extents.now)) (shaped (type_or dtype Int64)))
        (filled (pos 1)) result }
{
    let extents = integers(room.alloc(), extents)?;
    Ok(Value::Fresh(ones(room, session.pieces, &extents, dtype)?))
}

/// `arange(from, to, type)`
pub(crate) fn counted_array(
    room: Room<'_>,
    session: &Session,
    from: &Value,
    to: &Value,
    dtype: Option<DType>,
) -> Result<Value, EvaluateEnd>
    requires first { IsUsable (contents session.now.roots) from.now }
    requires second { IsUsable (contents session.now.roots) to.now }
    ensures usable { IfOk result (IsUsable (contents session.now.roots)) }
    ensures computed { IsComputed
        (from_both (integer_of (value_static from.now)) (integer_of (value_static to.now))
        (λ x y. arange_static x y (type_or dtype Int64)))
        (counted_from (only (value_in (contents session.now.roots) from.now))) result }
{
    let from = integer(from)?;
    let to = integer(to)?;
    let dtype = dtype.unwrap_or(DType::Int64);
    Ok(Value::Fresh(counted(room, session.pieces, from, to, dtype)?))
}

/// `array(list, type)`, of what stands in the list and its shape, if its lists are alike.
pub(crate) fn listed_array(
    room: Room<'_>,
    session: &Session,
    members: &Members,
    shape: Option<Vec<u64>>,
    dtype: Option<DType>,
) -> Result<Value, EvaluateEnd>
    requires { IfSome shape (λ extents. length members.now.weaks.items ≡ size_of extents.items) }
    ensures usable { IfOk result (IsUsable (contents session.now.roots)) }
    ensures computed { IsComputed (from_part (gathered members.now) (λ ws.
        array_static (option_map (λ extents. extents.items) shape) ws
        (type_or dtype (list_type ws))))
        (listed_as (map (λ w. number_of (weak_of w)) members.now.weaks.items)) result }
{
    if members.has_array {
        return Err(EvaluateEnd::Fault(FaultKind::TypeKind));
    }
    Ok(Value::Fresh(listed(room, session.pieces, &members.weaks, lent(&shape), dtype)?))
}

/// Values as numbers that are extents or axes: no truth value, and no array.
pub(crate) fn integers(alloc: Global, values: &[Value]) -> Result<Vec<i128>, EvaluateEnd>
    ensures { AreIntegers values.now result }
{
    let mut numbers = Vec::new(alloc);
    for value in values {
        let number = integer(value)?;
        numbers.push(number)?;
    }
    Ok(numbers)
}

/// A value as a number that is an extent or a bound: no truth value, and no array.
pub(crate) fn integer(value: &Value) -> Result<i128, EvaluateEnd>
    ensures value { MatchResult result (λ x. value.now ≡ Value.Weak (Weak.Integer x))
        (λ end. (end ≡ EvaluateEnd.Fault FaultKind.TypeKind)
        × (integer_of (value_static value.now) ≡ Err FaultKind.TypeKind)) }
{
    match value {
        Value::Weak(Weak::Integer(x)) => Ok(*x),
        _ => Err(EvaluateEnd::Fault(FaultKind::TypeKind)),
    }
}

/// A value as a weak number: no array.
fn weak(value: &Value) -> Result<Weak, EvaluateEnd>
    ensures value { MatchResult result (λ w. value.now ≡ Value.Weak w)
        (λ end. (end ≡ EvaluateEnd.Fault FaultKind.TypeKind)
        × (weak_part (value_static value.now) ≡ Err FaultKind.TypeKind)) }
{
    match value {
        Value::Weak(w) => Ok(*w),
        _ => Err(EvaluateEnd::Fault(FaultKind::TypeKind)),
    }
}

// A weak number that follows from others, or its fault.
fn known(answer: Result<Weak, FaultKind>) -> Result<Weak, EvaluateEnd>
    ensures { IsWeakAnswer (weak_answer answer) result }
{
    match answer {
        Ok(w) => Ok(w),
        Err(kind) => Err(EvaluateEnd::Fault(kind)),
    }
}

// The extents of a shape, if there is one.
fn lent(shape: &Option<Vec<u64>>) -> Option<&[u64]>
    ensures value { option_copied result ≡ option_map (λ extents. extents.items) shape.now }
    ensures full { (n : ℕ) → IfSome shape.now (λ extents. n ≡ size_of extents.items)
        → IfSome result (λ extents. n ≡ size_of extents.now) }
{
    match shape {
        Some(extents) => Some(extents.as_slice()),
        None => None,
    }
}

/// The operation on elements that an operator stands for.
pub(crate) fn operation(op: Arith) -> Binary
    ensures { result ≡ operation_of op }
{
    match op {
        Arith::Add => Binary::Add,
        Arith::Sub => Binary::Sub,
        Arith::Mul => Binary::Mul,
        Arith::FloorDiv => Binary::FloorDiv,
        Arith::Rem => Binary::Rem,
        Arith::Pow => Binary::Pow,
        Arith::BitAnd => Binary::BitAnd,
        Arith::BitOr => Binary::BitOr,
        Arith::BitXor => Binary::BitXor,
        Arith::Shl => Binary::Shl,
        Arith::Shr => Binary::Shr,
    }
}
