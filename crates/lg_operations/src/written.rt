//! Which type and shape an array has that a script writes, or which static fault it has.
ghost use Rattle.std.specs.Prelude.{◌≡◌, ◌≤◌, ◌-ℤ◌, ◌&&◌, [], ◌∷◌, int_lt, length, map, pos, unsigned_abs, if◌then◌else◌, is_some, true, All, IfOk, IfSome, IsTrue, Some};
ghost use Rattle.std.specs.Option.{option_copied};
ghost use Rattle.lg_space.specs.Stored.{MAX_END, MAX_VOLUME};
ghost use Rattle.lg_shape.specs.Shapes.{size_of};
ghost use Rattle.lg_meaning.specs.declared.fault.FaultKind.TheVariants.{Range};
ghost use Rattle.lg_meaning.specs.Faults.{needing};
ghost use Rattle.lg_meaning.specs.Weak.{number_of, integer};
ghost use Rattle.lg_promote.specs.Literals.{is_number};
ghost use Rattle.lg_meaning.specs.Static.{are_within, is_within, made as made_of};
ghost use Rattle.lg_meaning.specs.Creation.{type_or as type_or_of, weak_type as weak_type_of, is_literal as is_literal_of, extents, are_extents as are_extents_of, is_shape as is_shape_of, shaped as shaped_of, full_static, arange_static, array_static, are_truths as are_truths_of, list_type as list_type_of, are_literals as are_literals_of};
ghost use Rattle.lg_operations.specs.Operations.{weak_of, IsRanged};
ghost use Rattle.lg_operations.specs.Ruling.{ruled_new};

use crate::limits::{MAX_SIZE, is_within_limits};
use crate::rules::has_number;
use crate::values::Weak;
use crate::weak::number;
use lg_elem::DType;
use lg_meaning::FaultKind;
use lg_promote::literal;
use lg_shape::Shape;
use lg_space::MAX_AXES;

/// The type that is written, and else this one.
pub fn type_or(dtype: Option<DType>, default: DType) -> DType
    ensures { result ≡ type_or_of dtype default }
{
    dtype.unwrap_or(default)
}

// The type of a weak number in an array whose type is not written.
fn weak_type(x: Weak) -> DType
    ensures { result ≡ weak_type_of (weak_of x) }
{
    match x {
        Weak::Integer(_) => DType::Int64,
        Weak::Truth(_) => DType::Bool,
    }
}

/// Whether the type has a number for this one.
pub fn is_literal(t: DType, x: i128) -> bool
    ensures { result ≡ is_literal_of t x }
{
    literal(x, t).is_ok()
}

/// Type and shape of an array of a shape.
///
/// # Errors
///
/// `Limit` where it is too great.
pub fn made(t: DType, shape: &Shape) -> Result<(DType, Shape), FaultKind>
    ensures rule { ruled_new result ≡ made_of t shape.now }
    ensures small { IfOk result (λ made. size_of made.1 ≤ MAX_VOLUME) }
{
    if is_within_limits(shape) {
        Ok((t, *shape))
    } else {
        Err(FaultKind::Limit)
    }
}

// Whether no extent is below 0.
fn are_extents(written: &[i128]) -> bool
    ensures { result ≡ are_extents_of written.now }
{
    match written.split_first() {
        Some((x, written)) => 0 <= *x && are_extents(written),
        None => true,
    }
}

// Puts the extents in place, as far as they are within the limit, and tells whether all are.
fn put_extents(kept: &mut [u64], written: &[i128]) -> bool
    requires { length kept.old ≡ length written.now }
    ensures within { result ≡ are_within (extents written.now) }
    ensures value { IsTrue result → kept.new ≡ extents written.now }
{
    let (Some((first, kept)), Some((x, written))) = (kept.split_first_mut(), written.split_first())
    else {
        return true;
    };
    let extent = x.unsigned_abs();
    if u128::from(MAX_SIZE) < extent {
        return false;
    }
    *first = extent as u64;
    put_extents(kept, written)
}

/// Whether what is written is a shape: no extent is below 0, and there are no more axes than an
/// array may have.
pub fn is_shape(written: &[i128]) -> bool
    ensures { result ≡ is_shape_of written.now }
{
    written.len() <= MAX_AXES && are_extents(written)
}

/// The shape that is written, if an array may have it.
pub fn shape_within(written: &[i128]) -> Option<Shape>
    requires { is_shape_of written.now ≡ true }
    ensures within { is_some result ≡ is_within (extents written.now) }
    ensures value { IfSome result (λ shape. shape ≡ extents written.now) }
    ensures small { IfSome result (λ shape. size_of shape ≤ MAX_VOLUME) }
{
    let mut kept = [0; 4];
    if !put_extents(&mut kept[..written.len()], written) {
        return None;
    }
    let shape = Shape::new(&kept[..written.len()]);
    if is_within_limits(&shape) {
        Some(shape)
    } else {
        None
    }
}

/// Type and shape of an array of written extents.
///
/// # Errors
///
/// `Shape` where an extent is below 0 or there are more axes than an array may have, then `Limit`.
pub fn shaped(t: DType, written: &[i128]) -> Result<(DType, Shape), FaultKind>
    ensures rule { ruled_new result ≡ shaped_of t written.now }
    ensures small { IfOk result (λ made. size_of made.1 ≤ MAX_VOLUME) }
{
    if !is_shape(written) {
        return Err(FaultKind::Shape);
    }
    match shape_within(written) {
        Some(shape) => Ok((t, shape)),
        None => Err(FaultKind::Limit),
    }
}

/// Type and shape of an array that is filled with a number.
///
/// # Errors
///
/// The first fault.
pub fn rule_of_full(
    written: &[i128],
    x: Weak,
    dtype: Option<DType>,
) -> Result<(DType, Shape), FaultKind>
    ensures rule { ruled_new result ≡ full_static written.now (weak_of x) dtype }
    ensures small { IfOk result (λ made. size_of made.1 ≤ MAX_VOLUME) }
{
    let t = type_or(dtype, weak_type(x));
    if !is_literal(t, number(x)) {
        return Err(FaultKind::Range);
    }
    shaped(t, written)
}

/// Type and shape of the numbers from one up to another.
///
/// # Errors
///
/// The first fault.
#[tactic(auto, using(crate::proofs::Literals::counted_rule))]
pub fn rule_of_counted(from: i128, to: i128, t: DType) -> Result<(DType, Shape), FaultKind>
    requires first { IsRanged (integer from) }
    requires second { IsRanged (integer to) }
    ensures rule { ruled_new result ≡ arange_static from to t }
    ensures small { IfOk result (λ made. size_of made.1 ≤ MAX_VOLUME) }
{
    if t == DType::Bool {
        return Err(FaultKind::TypeKind);
    }
    counted_in(from, to, t)
}

// The same for an integer type.
fn counted_in(from: i128, to: i128, t: DType) -> Result<(DType, Shape), FaultKind>
    requires first { IsRanged (integer from) }
    requires second { IsRanged (integer to) }
    ensures rule { ruled_new result ≡ (if int_lt from to
        then needing (is_number t from && is_number t (to -ℤ pos 1)) Range
        (made_of t (unsigned_abs (to -ℤ from) ∷ [])) else made_of t (0 ∷ [])) }
    ensures small { IfOk result (λ made. size_of made.1 ≤ MAX_VOLUME) }
{
    if to <= from {
        return row(t, 0);
    }
    if !have_both(t, from, to) {
        return Err(FaultKind::Range);
    }
    row(t, count(from, to))
}

// Whether the type has the first and the last number.
fn have_both(t: DType, from: i128, to: i128) -> bool
    requires { IsRanged (integer to) }
    ensures { result ≡ (is_number t from && is_number t (to -ℤ pos 1)) }
{
    has_number(t, from) && has_number(t, to - 1)
}

// How many numbers there are.
fn count(from: i128, to: i128) -> u128
    requires first { IsRanged (integer from) }
    requires second { IsRanged (integer to) }
    ensures { result ≡ unsigned_abs (to -ℤ from) }
{
    (to - from).unsigned_abs()
}

/// Type and shape of an array of one axis.
///
/// # Errors
///
/// `Limit` where it is too long.
pub fn row(t: DType, extent: u128) -> Result<(DType, Shape), FaultKind>
    ensures rule { ruled_new result ≡ made_of t (extent ∷ []) }
    ensures small { IfOk result (λ made. size_of made.1 ≤ MAX_VOLUME) }
{
    if u128::from(MAX_SIZE) < extent {
        return Err(FaultKind::Limit);
    }
    made(t, &Shape::new(&[extent as u64]))
}

// Whether it is a truth value.
fn is_truth(w: Weak) -> bool
    ensures { result ≡ are_truths_of (weak_of w ∷ []) }
{
    match w {
        Weak::Integer(_) => false,
        Weak::Truth(_) => true,
    }
}

// Whether all are truth values.
fn are_truths(weaks: &[Weak]) -> bool
    ensures { result ≡ are_truths_of (map weak_of weaks.now) }
{
    let mut all = true;
    for w in weaks {
        all &= is_truth(*w);
    }
    all
}

// The type of an array of these numbers, where none is written.
fn list_type(weaks: &[Weak]) -> DType
    ensures { result ≡ list_type_of (map weak_of weaks.now) }
{
    if !weaks.is_empty() && are_truths(weaks) {
        DType::Bool
    } else {
        DType::Int64
    }
}

// Whether the type has a number for each.
fn are_literals(t: DType, weaks: &[Weak]) -> bool
    ensures { result ≡ are_literals_of t (map weak_of weaks.now) }
{
    let mut all = true;
    for w in weaks {
        all &= is_literal(t, number(*w));
    }
    all
}

// Whether all extents are within the limit.
fn are_small(extents: &[u64]) -> bool
    ensures within { result ≡ are_within extents.now }
    ensures small { IsTrue result → All (λ extent. extent ≤ MAX_END) extents.now }
{
    match extents.split_first() {
        Some((extent, extents)) => *extent <= MAX_SIZE && are_small(extents),
        None => true,
    }
}

/// Type and shape of an array of these numbers. The shape may not be there.
///
/// # Errors
///
/// The first fault.
pub fn rule_of_listed(
    weaks: &[Weak],
    shape: Option<&[u64]>,
    dtype: Option<DType>,
) -> Result<(DType, Shape), FaultKind>
    ensures rule { ruled_new result ≡ array_static (option_copied shape.entry)
        (map weak_of weaks.now) (type_or_of dtype (list_type_of (map weak_of weaks.now))) }
    ensures small { IfOk result (λ made. size_of made.1 ≤ MAX_VOLUME) }
    ensures given { IfOk result (λ made. option_copied shape.entry ≡ Some made.1) }
{
    let t = type_or(dtype, list_type(weaks));
    if !are_literals(t, weaks) {
        return Err(FaultKind::Range);
    }
    let Some(extents) = shape else {
        return Err(FaultKind::Shape);
    };
    if 4 < extents.len() {
        return Err(FaultKind::Shape);
    }
    if !are_small(extents) {
        return Err(FaultKind::Limit);
    }
    made(t, &Shape::new(extents))
}
