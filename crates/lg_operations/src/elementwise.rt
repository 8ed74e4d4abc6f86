ghost use Rattle.std.specs.Prelude.{◌≡◌, ◌≤◌, ◌⊎◌, [], ◌∷◌};
ghost use Rattle.lg_meaning.specs.Faults.{first_fault as first_fault_of};
ghost use Rattle.lg_meaning.specs.Static.{right_of};
ghost use Rattle.lg_meaning.specs.Copies.{as_type_static, as_type_value};
ghost use Rattle.lg_meaning.specs.Operators.{binary_static, compare_static, unary_static, choose_static, binary_value, compare_value, unary_value, choose_value, flagged};
ghost use Rattle.lg_operations.specs.Operations.{operand_static, operand_value, IsReady, right_for, IsArray, IsMade};

use crate::copies::rule_of_as_type;
use crate::end::EvaluateEnd;
use crate::lending::{Inputs, Lent, lend};
use crate::rules::{rule_of_binary, rule_of_choose, rule_of_compare, rule_of_unary};
use crate::tiling::evaluate;
use crate::values::{Fresh, Operand};
use lg_elem::{Binary, Compare, DType, Flag, Unary};
use lg_map::MapOp;
use lg_meaning::FaultKind;
use lg_promote::laws::common_is_least;
use lg_shape::Shape;
use lg_store::Right;
use lg_tile::{AnyTile, Room};

// The fault of a flag.
fn fault_of(flag: Flag) -> Option<FaultKind>
    ensures { result ≡ flagged flag }
{
    match flag {
        Flag::Clear => None,
        Flag::Divisor => Some(FaultKind::Divisor),
        Flag::Power => Some(FaultKind::Power),
    }
}

// The first fault of two operands, and else the last one.
#[tactic(auto, using(crate::proofs::Made::first_of_three))]
fn first_fault(a: &Operand<'_>, b: &Operand<'_>, last: Option<FaultKind>) -> Option<FaultKind>
    ensures { result ≡ first_fault_of
        ((operand_value a.now).fault ∷ (operand_value b.now).fault ∷ last ∷ []) }
{
    a.fault().or(b.fault()).or(last)
}

// What an operation makes: without axes a scalar, else an array that may be written.
fn result_of(tile: AnyTile, shape: &Shape, fault: Option<FaultKind>) -> Fresh
    ensures tile { result.tile ≡ tile }
    ensures right { right_for result.right ≡ right_of shape.now }
    ensures fault { result.fault ≡ fault }
{
    let right = match shape.extents() {
        [] => Right::Scalar,
        [_, ..] => Right::Writable,
    };
    Fresh { tile, right, fault }
}

/// An operation on the elements of two operands, which are first cast to their common type (NumPy's
/// reference, "Math operations" and "Broadcasting"). Without an array among them both count as
/// arrays without axes.
///
/// # Errors
///
/// The first static fault, and `NoMemory`. A fault of elements is told beside the array.
pub fn binary<'a>(
    room: Room<'_>,
    pieces: u32,
    op: Binary,
    a: &Operand<'a>,
    b: &Operand<'a>,
) -> Result<Fresh, EvaluateEnd>
    requires some { 1 ≤ pieces }
    requires few { pieces ≤ 64 }
    requires first { IsReady a.now }
    requires second { IsReady b.now }
    ensures { IsMade (binary_static op (operand_static a.now) (operand_static b.now))
        (binary_value op (operand_value a.now) (operand_value b.now)) result }
{
    common_is_least();
    let (t, shape) = rule_of_binary(op, a, b)?;
    let (first, second) = (lend(a, &shape), lend(b, &shape));
    let map = MapOp::Binary(op, first.operand(0), second.operand(1));
    let inputs = Inputs {
        first,
        second,
        third: Lent::Number(0),
    };
    let (tile, flag) = evaluate(room, pieces, &map, &inputs, &shape, t)?;
    Ok(result_of(tile, &shape, first_fault(a, b, fault_of(flag))))
}

/// Which elements of two operands compare so, by their whole numbers (NumPy's reference,
/// "Comparison functions"). One of the two is an array.
///
/// # Errors
///
/// The first static fault, and `NoMemory`. A fault of elements is told beside the array.
pub fn compare<'a>(
    room: Room<'_>,
    pieces: u32,
    op: Compare,
    a: &Operand<'a>,
    b: &Operand<'a>,
) -> Result<Fresh, EvaluateEnd>
    requires some { 1 ≤ pieces }
    requires few { pieces ≤ 64 }
    requires first { IsReady a.now }
    requires second { IsReady b.now }
    requires array { IsArray a.now ⊎ IsArray b.now }
    ensures { IsMade (compare_static op (operand_static a.now) (operand_static b.now))
        (compare_value op (operand_value a.now) (operand_value b.now)) result }
{
    let (t, shape) = rule_of_compare(op, a, b)?;
    let (first, second) = (lend(a, &shape), lend(b, &shape));
    let map = MapOp::Compare(op, first.operand(0), second.operand(1));
    let inputs = Inputs {
        first,
        second,
        third: Lent::Number(0),
    };
    let (tile, _) = evaluate(room, pieces, &map, &inputs, &shape, t)?;
    Ok(result_of(tile, &shape, first_fault(a, b, None)))
}

/// An operation on the elements of one operand; a weak number counts as an array without axes.
///
/// # Errors
///
/// The first static fault, and `NoMemory`. A fault of elements is told beside the array.
pub fn unary(room: Room<'_>, pieces: u32, op: Unary, a: &Operand<'_>) -> Result<Fresh, EvaluateEnd>
    requires some { 1 ≤ pieces }
    requires few { pieces ≤ 64 }
    requires ready { IsReady a.now }
    ensures { IsMade (unary_static op (operand_static a.now)) (unary_value op (operand_value a.now)) result }
{
    let (t, shape) = rule_of_unary(op, a)?;
    let first = lend(a, &shape);
    let map = MapOp::Unary(op, first.operand(0));
    let inputs = Inputs {
        first,
        second: Lent::Number(0),
        third: Lent::Number(0),
    };
    let (tile, _) = evaluate(room, pieces, &map, &inputs, &shape, t)?;
    Ok(result_of(tile, &shape, a.fault()))
}

/// The elements of one operand where those of a condition are not 0, and those of another where
/// they are (NumPy's reference, "numpy.where").
///
/// # Errors
///
/// The first static fault, and `NoMemory`. A fault of elements is told beside the array.
pub fn choose<'a>(
    room: Room<'_>,
    pieces: u32,
    c: &Operand<'a>,
    a: &Operand<'a>,
    b: &Operand<'a>,
) -> Result<Fresh, EvaluateEnd>
    requires some { 1 ≤ pieces }
    requires few { pieces ≤ 64 }
    requires condition { IsReady c.now }
    requires first { IsReady a.now }
    requires second { IsReady b.now }
    ensures { IsMade
        (choose_static (operand_static c.now) (operand_static a.now) (operand_static b.now))
        (choose_value (operand_value c.now) (operand_value a.now) (operand_value b.now)) result }
{
    common_is_least();
    let (t, shape) = rule_of_choose(c, a, b)?;
    let first = lend(c, &shape);
    let (second, third) = (lend(a, &shape), lend(b, &shape));
    let map = MapOp::Select(first.operand(0), second.operand(1), third.operand(2));
    let inputs = Inputs {
        first,
        second,
        third,
    };
    let (tile, _) = evaluate(room, pieces, &map, &inputs, &shape, t)?;
    Ok(result_of(tile, &shape, first_fault(c, a, b.fault())))
}

/// The elements of one operand, each as one of another type (NumPy's reference,
/// "numpy.ndarray.astype"): wrapped to its bits, and for bool whether it is not 0. A weak number
/// counts as an array without axes first. The new array may be written.
///
/// # Errors
///
/// The first static fault, and `NoMemory`. A fault of elements is told beside the array.
pub fn as_type(room: Room<'_>, pieces: u32, a: &Operand<'_>, t: DType) -> Result<Fresh, EvaluateEnd>
    requires some { 1 ≤ pieces }
    requires few { pieces ≤ 64 }
    requires ready { IsReady a.now }
    ensures { IsMade (as_type_static (operand_static a.now) t) (as_type_value (operand_value a.now))
        result }
{
    let (t, shape) = rule_of_as_type(a, t)?;
    let first = lend(a, &shape);
    let map = MapOp::Cast(first.operand(0));
    let inputs = Inputs {
        first,
        second: Lent::Number(0),
        third: Lent::Number(0),
    };
    let (tile, _) = evaluate(room, pieces, &map, &inputs, &shape, t)?;
    Ok(Fresh {
        tile,
        right: Right::Writable,
        fault: a.fault(),
    })
}
