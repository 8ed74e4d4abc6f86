ghost use Rattle.std.specs.Prelude.{◌≡◌, ◌-ℤ◌, ◌*ℤ◌, neg_ℤ, pos, option_map};
ghost use Rattle.lg_elem.specs.Operations.{compare_of, floor_div};
ghost use Rattle.lg_meaning.specs.Weak.{divided, integer, number_of, ranged as ranged_of, truth, weak_arith as arith_of};
ghost use Rattle.lg_operations.specs.Operations.{weak_of, weak_answer, IsRanged};

use crate::values::Weak;
use lg_elem::{Compare, Elem};
use lg_meaning::FaultKind;
use lg_tree::Arith;

/// The number that a weak value counts as: a truth value is 0 or 1.
pub fn number(w: Weak) -> i128
    ensures { result ≡ number_of (weak_of w) }
{
    match w {
        Weak::Integer(x) => x,
        Weak::Truth(b) => b.value(),
    }
}

/// What an operation on two weak numbers alone gives, over whole numbers, and none where it makes an
/// array of them.
///
/// # Errors
///
/// `Divisor` where the divisor is 0, and `Range` where the result is not from -2 ^ 63 to 2 ^ 64 - 1.
pub fn weak_arith(op: Arith, a: Weak, b: Weak) -> Option<Result<Weak, FaultKind>>
    requires first { IsRanged (weak_of a) }
    requires second { IsRanged (weak_of b) }
    ensures { option_map weak_answer result
        ≡ arith_of op (number_of (weak_of a)) (number_of (weak_of b)) }
{
    let (x, y) = (number(a), number(b));
    match op {
        Arith::Add => Some(ranged(x + y)),
        Arith::Sub => Some(ranged(x - y)),
        Arith::Mul => Some(product(x, y)),
        Arith::FloorDiv => Some(quotient(x, y)),
        Arith::Rem => Some(remainder(x, y)),
        Arith::Pow | Arith::BitAnd | Arith::BitOr | Arith::BitXor | Arith::Shl | Arith::Shr => None,
    }
}

/// The negative of a weak number, which is an integer.
///
/// # Errors
///
/// `Range` where it is below -2 ^ 63.
pub fn weak_negative(a: Weak) -> Result<Weak, FaultKind>
    requires { IsRanged (weak_of a) }
    ensures { weak_answer result ≡ ranged_of (neg_ℤ (number_of (weak_of a))) }
{
    ranged(-number(a))
}

/// Whether two weak numbers compare so, by their whole numbers.
pub fn weak_compare(op: Compare, a: Weak, b: Weak) -> Weak
    ensures { weak_of result ≡ truth (compare_of op (number_of (weak_of a)) (number_of (weak_of b))) }
{
    let (x, y) = (number(a), number(b));
    Weak::Truth(match op {
        Compare::Eq => x == y,
        Compare::Ne => x != y,
        Compare::Lt => x < y,
        Compare::Le => x <= y,
        Compare::Gt => x > y,
        Compare::Ge => x >= y,
    })
}

// The weak integer of a number in the range of weak numbers.
fn ranged(x: i128) -> Result<Weak, FaultKind>
    ensures { weak_answer result ≡ ranged_of x }
{
    if -9_223_372_036_854_775_808 <= x && x <= 18_446_744_073_709_551_615 {
        Ok(Weak::Integer(x))
    } else {
        Err(FaultKind::Range)
    }
}

// The product of two weak numbers.
fn product(x: i128, y: i128) -> Result<Weak, FaultKind>
    ensures { weak_answer result ≡ ranged_of (x *ℤ y) }
{
    match x.checked_mul(y) {
        Some(z) => ranged(z),
        None => Err(FaultKind::Range),
    }
}

// The quotient rounded down.
fn quotient(x: i128, y: i128) -> Result<Weak, FaultKind>
    requires first { IsRanged (integer x) }
    requires second { IsRanged (integer y) }
    ensures { weak_answer result ≡ divided y (floor_div x y) }
{
    if y == 0 {
        Err(FaultKind::Divisor)
    } else {
        ranged(floored(x, y))
    }
}

// What the quotient rounded down leaves.
fn remainder(x: i128, y: i128) -> Result<Weak, FaultKind>
    requires first { IsRanged (integer x) }
    requires second { IsRanged (integer y) }
    ensures { weak_answer result ≡ divided y (x -ℤ (y *ℤ floor_div x y)) }
{
    if y == 0 {
        Err(FaultKind::Divisor)
    } else {
        ranged(rest(x, y))
    }
}

#[tactic(auto, using(crate::proofs::WeakLemmas::floor_under))]
fn floored(x: i128, y: i128) -> i128
    requires some { ¬ (y ≡ pos 0) }
    requires first { IsRanged (integer x) }
    requires second { IsRanged (integer y) }
    ensures { result ≡ floor_div x y }
{
    if y < 0 {
        (-x).div_euclid(-y)
    } else {
        x.div_euclid(y)
    }
}

// It has the divisor's sign.
#[tactic(auto, using(crate::proofs::WeakLemmas::rest_under))]
fn rest(x: i128, y: i128) -> i128
    requires some { ¬ (y ≡ pos 0) }
    requires first { IsRanged (integer x) }
    requires second { IsRanged (integer y) }
    ensures { result ≡ x -ℤ (y *ℤ floor_div x y) }
{
    if y < 0 {
        -(-x).rem_euclid(-y)
    } else {
        x.rem_euclid(y)
    }
}
