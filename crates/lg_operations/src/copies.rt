//! Which type and shape a copy of an array has, or which static fault it has.
ghost use Rattle.std.specs.Prelude.{◌≡◌, ◌≤◌, IfOk};
ghost use Rattle.lg_space.specs.Stored.{MAX_VOLUME};
ghost use Rattle.lg_shape.specs.Shapes.{size_of};
ghost use Rattle.lg_meaning.specs.Copies.{as_type_static, copy_static, flatten_static};
ghost use Rattle.lg_meaning.specs.Static.{as_array as as_array_of, shape_of as shape_of_static};
ghost use Rattle.lg_operations.specs.Operations.{operand_static, IsReady};
ghost use Rattle.lg_operations.specs.Ruling.{ruled_new, typed};

use crate::rules::{fits, shape_of, type_alone};
use crate::values::Operand;
use crate::written::{made, row};
use lg_elem::DType;
use lg_meaning::FaultKind;
use lg_shape::Shape;

/// Type and shape of an operand as an array: a weak number counts as one without axes.
///
/// # Errors
///
/// `Range` where a weak integer does not fit int64.
pub fn as_array(a: &Operand<'_>) -> Result<(DType, Shape), FaultKind>
    ensures rule { result ≡ typed (as_array_of (operand_static a.now)) }
    ensures shape { IfOk result (λ made. made.1 ≡ shape_of_static (operand_static a.now)) }
{
    let t = type_alone(a);
    if !fits(t, a) {
        return Err(FaultKind::Range);
    }
    Ok((t, shape_of(a)))
}

/// How many elements an operand has.
pub fn count_of(a: &Operand<'_>) -> u64
    requires { IsReady a.now }
    ensures count { result ≡ size_of (shape_of_static (operand_static a.now)) }
    ensures small { result ≤ MAX_VOLUME }
{
    match a {
        Operand::Weak(_) => 1,
        Operand::Array { tile, .. } => {
            // What is known of every rectangle, its limits, is told with its ranges.
            let _limits = tile.rect().ranges();
            tile.rect().volume()
        }
        Operand::View { chain, .. } => chain.shape().whole().volume(),
    }
}

/// Type and shape of `copy`.
///
/// # Errors
///
/// The first fault.
pub fn rule_of_copy(a: &Operand<'_>) -> Result<(DType, Shape), FaultKind>
    ensures rule { ruled_new result ≡ copy_static (operand_static a.now) }
    ensures small { IfOk result (λ made. size_of made.1 ≤ MAX_VOLUME) }
    ensures size { IfOk result
        (λ made. size_of made.1 ≡ size_of (shape_of_static (operand_static a.now))) }
{
    let (t, shape) = as_array(a)?;
    made(t, &shape)
}

/// Type and shape of `flatten`.
///
/// # Errors
///
/// The first fault.
pub fn rule_of_flatten(a: &Operand<'_>) -> Result<(DType, Shape), FaultKind>
    requires { IsReady a.now }
    ensures rule { ruled_new result ≡ flatten_static (operand_static a.now) }
    ensures small { IfOk result (λ made. size_of made.1 ≤ MAX_VOLUME) }
    ensures size { IfOk result
        (λ made. size_of made.1 ≡ size_of (shape_of_static (operand_static a.now))) }
{
    let (t, _) = as_array(a)?;
    row(t, u128::from(count_of(a)))
}

/// Type and shape of `astype`.
///
/// # Errors
///
/// The first fault.
pub fn rule_of_as_type(a: &Operand<'_>, t: DType) -> Result<(DType, Shape), FaultKind>
    ensures rule { ruled_new result ≡ as_type_static (operand_static a.now) t }
    ensures small { IfOk result (λ made. size_of made.1 ≤ MAX_VOLUME) }
    ensures same { IfOk result (λ made. made.1 ≡ shape_of_static (operand_static a.now)) }
{
    let (_, shape) = as_array(a)?;
    made(t, &shape)
}
