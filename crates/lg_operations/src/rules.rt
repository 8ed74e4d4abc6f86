//! Which type and shape an operation on elements makes, or which static fault it has.
ghost use Rattle.std.specs.Prelude.{◌≡◌, ◌⊎◌, Ok};
ghost use Rattle.std.specs.Result.{result_ok};
ghost use Rattle.lg_elem.specs.declared.dtype.DType.TheVariants.{Bool as Truth};
ghost use Rattle.lg_promote.specs.Literals.{is_number};
ghost use Rattle.lg_meaning.specs.Static.{type_beside as type_beside_of, integer_beside as integer_beside_of, fits as fits_of, both_fit as both_fit_of, common as common_of, shape_of as shape_of_static, elementwise as elementwise_of, type_alone as type_alone_of};
ghost use Rattle.lg_meaning.specs.Operators.{binary_static, compare_static, unary_static, choose_static, condition_fits as condition_fits_of};
ghost use Rattle.lg_operations.specs.Operations.{operand_static, extents_of, IsArray};
ghost use Rattle.lg_operations.specs.Ruling.{ruled};

use crate::limits::is_within_limits;
use crate::values::{Operand, Weak};
use lg_elem::{Binary, Compare, DType, Unary, allowed_binary, allowed_unary};
use lg_meaning::FaultKind;
use lg_promote::{literal, promote};
use lg_shape::{Mismatch, Shape, broadcast};
use lg_tile::AnyTile;

// The integer type beside an array of this type.
fn integer_beside(t: DType) -> DType
    ensures { result ≡ integer_beside_of t }
{
    if t == DType::Bool { DType::Int64 } else { t }
}

// The type that an operand has beside another one.
fn type_beside(other: &Operand<'_>, a: &Operand<'_>) -> DType
    ensures { result ≡ type_beside_of (operand_static other.now) (operand_static a.now) }
{
    match a {
        Operand::Array { tile, .. } | Operand::View { tile, .. } => tile.dtype(),
        Operand::Weak(Weak::Truth(_)) => DType::Bool,
        Operand::Weak(Weak::Integer(_)) => match other {
            Operand::Array { tile, .. } | Operand::View { tile, .. } => {
                integer_beside(tile.dtype())
            }
            Operand::Weak(_) => DType::Int64,
        },
    }
}

/// The type of an operand by itself.
pub fn type_alone(a: &Operand<'_>) -> DType
    ensures { result ≡ type_alone_of (operand_static a.now) }
{
    match a {
        Operand::Array { tile, .. } | Operand::View { tile, .. } => tile.dtype(),
        Operand::Weak(Weak::Truth(_)) => DType::Bool,
        Operand::Weak(Weak::Integer(_)) => DType::Int64,
    }
}

/// Whether the type has the number.
pub fn has_number(t: DType, x: i128) -> bool
    ensures { result ≡ is_number t x }
{
    if t == DType::Bool {
        0 <= x && x <= 1
    } else {
        literal(x, t).is_ok()
    }
}

/// Whether a weak integer fits the type that it takes.
pub fn fits(t: DType, a: &Operand<'_>) -> bool
    ensures { result ≡ fits_of t (operand_static a.now) }
{
    match a {
        Operand::Weak(Weak::Integer(x)) => has_number(t, *x),
        Operand::Weak(Weak::Truth(_)) | Operand::Array { .. } | Operand::View { .. } => true,
    }
}

fn both_fit(a: &Operand<'_>, b: &Operand<'_>) -> bool
    ensures { result ≡ both_fit_of (operand_static a.now) (operand_static b.now) }
{
    fits(type_beside(b, a), a) && fits(type_beside(a, b), b)
}

// The type to which two operands are cast.
fn common(a: &Operand<'_>, b: &Operand<'_>) -> Result<DType, FaultKind>
    ensures { result ≡ common_of (operand_static a.now) (operand_static b.now) }
{
    match promote(type_beside(b, a), type_beside(a, b)) {
        Ok(t) => Ok(t),
        Err(_) => Err(FaultKind::TypeKind),
    }
}

/// The shape of an array whose elements are a tile over all its indices.
pub fn shape_in(tile: &AnyTile) -> Shape
    ensures { result ≡ extents_of tile.now }
{
    let ranges = tile.rect().ranges();
    let mut extents = [0; 4];
    for axis in 0..ranges.len() {
        extents[axis] = ranges[axis].1;
    }
    Shape::new(&extents[..ranges.len()])
}

/// The shape of an operand: a weak number has no axes.
pub fn shape_of(a: &Operand<'_>) -> Shape
    ensures { result ≡ shape_of_static (operand_static a.now) }
{
    match a {
        Operand::Weak(_) => Shape::new(&[]),
        Operand::Array { tile, .. } => shape_in(tile),
        Operand::View { chain, .. } => chain.shape(),
    }
}

// The result of an operation on elements: the shape may not be there, or may be too great.
fn elementwise(t: DType, shape: Result<Shape, Mismatch>) -> Result<(DType, Shape), FaultKind>
    ensures { ruled result ≡ elementwise_of t (result_ok shape) }
{
    let Ok(shape) = shape else {
        return Err(FaultKind::Shape);
    };
    if is_within_limits(&shape) {
        Ok((t, shape))
    } else {
        Err(FaultKind::Limit)
    }
}

/// Type and shape of an operation on two operands.
///
/// # Errors
///
/// The first fault.
pub fn rule_of_binary(
    op: Binary,
    a: &Operand<'_>,
    b: &Operand<'_>,
) -> Result<(DType, Shape), FaultKind>
    ensures { ruled result ≡ binary_static op (operand_static a.now) (operand_static b.now) }
{
    let t = common(a, b)?;
    if !allowed_binary(op, t) {
        return Err(FaultKind::TypeKind);
    }
    if !both_fit(a, b) {
        return Err(FaultKind::Range);
    }
    elementwise(t, broadcast(&shape_of(a), &shape_of(b)))
}

/// Type and shape of a comparison, of which one operand is an array.
///
/// # Errors
///
/// The first fault.
pub fn rule_of_compare(
    _op: Compare,
    a: &Operand<'_>,
    b: &Operand<'_>,
) -> Result<(DType, Shape), FaultKind>
    requires { IsArray a.now ⊎ IsArray b.now }
    ensures { ruled result ≡ compare_static _op (operand_static a.now) (operand_static b.now) }
{
    match a {
        Operand::Weak(_) => elementwise(DType::Bool, Ok(shape_of(b))),
        Operand::Array { .. } | Operand::View { .. } => {
            elementwise(DType::Bool, broadcast(&shape_of(a), &shape_of(b)))
        }
    }
}

/// Type and shape of an operation on one operand.
///
/// # Errors
///
/// The first fault.
pub fn rule_of_unary(op: Unary, a: &Operand<'_>) -> Result<(DType, Shape), FaultKind>
    ensures { ruled result ≡ unary_static op (operand_static a.now) }
{
    let t = type_alone(a);
    if !allowed_unary(op, t) {
        return Err(FaultKind::TypeKind);
    }
    if !fits(t, a) {
        return Err(FaultKind::Range);
    }
    elementwise(t, Ok(shape_of(a)))
}

// A condition fits by its own value, but without any array it counts as a scalar.
fn condition_fits(c: &Operand<'_>, a: &Operand<'_>, b: &Operand<'_>) -> bool
    ensures { result ≡ condition_fits_of (operand_static c.now) (operand_static a.now)
        (operand_static b.now) }
{
    match (a, b) {
        (Operand::Weak(_), Operand::Weak(_)) => fits(type_alone(c), c),
        _ => true,
    }
}

/// Type and shape of `where`.
///
/// # Errors
///
/// The first fault.
pub fn rule_of_choose(
    c: &Operand<'_>,
    a: &Operand<'_>,
    b: &Operand<'_>,
) -> Result<(DType, Shape), FaultKind>
    ensures { ruled result ≡ choose_static (operand_static c.now) (operand_static a.now)
        (operand_static b.now) }
{
    let t = common(a, b)?;
    if !(condition_fits(c, a, b) && both_fit(a, b)) {
        return Err(FaultKind::Range);
    }
    let Ok(shape) = broadcast(&shape_of(c), &shape_of(a)) else {
        return Err(FaultKind::Shape);
    };
    elementwise(t, broadcast(&shape, &shape_of(b)))
}
