//! What runs for each element: one loop for each number of operands. Each reads and writes by one
//! index, with the operation as a type, so that it can be compiled to vector code.
ghost use Rattle.std.specs.Prelude.{◌≡◌, ℕ, ◌<◌, length, map, slice_index_or, if◌then◌else◌, pos, ◌+ℤ◌};
ghost use Rattle.std.specs.Int.{from_bool};
ghost use Rattle.std.specs.List.{list_any};
ghost use Rattle.lg_elem.specs.declared.kinds.Binary.TheVariants as kinds;
ghost use Rattle.lg_elem.specs.Operations.{unary_of, value_of, compare_of, is_zero, is_negative};
ghost use Rattle.lg_elem.specs.Types.{wrap};
ghost use Rattle.lg_map.specs.Columns.{item_at, listed};
ghost use Rattle.lg_map.specs.Mapping.{IsConstant};

use crate::columns::Column;
use lg_divide::{Divide, divide_all, remainder_all};
use lg_elem::Elem;
use lg_elem::kernels::{CompareKernel, Kernel, UnaryKernel};

/// Puts the operation on an element in each place.
#[inline(never)]
#[tactic(auto, using(crate::proofs::LoopLemmas::one_more, crate::proofs::LoopLemmas::all_listed))]
pub fn each_one<T: Elem, K: UnaryKernel, X: Column<T>>(out: &mut [T], x: X)
    requires { (place : ℕ) → place < length out.old → X.reaches x place }
    ensures { map T.number out.new
        ≡ listed (λ place. unary_of K.kind T.DTYPE (wrap T.DTYPE (X.number_of x place)))
        (length out.old) }
{
    for i in 0..out.len() {
        out[i] = K::apply(x.at(i));
    }
}

/// Puts the operation on two elements in each place.
#[inline(never)]
#[tactic(auto, using(crate::proofs::LoopLemmas::one_more, crate::proofs::LoopLemmas::all_listed))]
pub fn both<T: Elem, K: Kernel, X: Column<T>, Y: Column<T>>(out: &mut [T], x: X, y: Y)
    requires first { (place : ℕ) → place < length out.old → X.reaches x place }
    requires second { (place : ℕ) → place < length out.old → Y.reaches y place }
    ensures { map T.number out.new
        ≡ listed (λ place. value_of K.kind T.DTYPE (wrap T.DTYPE (X.number_of x place))
        (wrap T.DTYPE (Y.number_of y place))) (length out.old) }
{
    for i in 0..out.len() {
        out[i] = K::apply(x.at(i), y.at(i));
    }
}

/// Puts the quotient of an element by the same one in each place.
pub fn divided<T: Divide>(out: &mut [T], x: &[T], y: T)
    requires { length x.now ≡ length out.old }
    ensures { map T.number out.new
        ≡ listed (λ place. value_of kinds.FloorDiv T.DTYPE
        (wrap T.DTYPE (item_at T.number x.now place)) (wrap T.DTYPE (T.number y)))
        (length out.old) }
{
    let _number = y.value();
    divide_all(out, x, y);
}

/// Puts in each place what that quotient leaves.
pub fn remainders<T: Divide>(out: &mut [T], x: &[T], y: T)
    requires { length x.now ≡ length out.old }
    ensures { map T.number out.new
        ≡ listed (λ place. value_of kinds.Rem T.DTYPE
        (wrap T.DTYPE (item_at T.number x.now place)) (wrap T.DTYPE (T.number y)))
        (length out.old) }
{
    let _number = y.value();
    remainder_all(out, x, y);
}

/// Puts in each place whether two elements compare so.
#[inline(never)]
#[tactic(auto, using(crate::proofs::LoopLemmas::one_more, crate::proofs::LoopLemmas::all_listed))]
pub fn compared<A: Elem, B: Elem, K: CompareKernel, X: Column<A>, Y: Column<B>>(
    out: &mut [bool],
    x: X,
    y: Y,
)
    requires first { (place : ℕ) → place < length out.old → X.reaches x place }
    requires second { (place : ℕ) → place < length out.old → Y.reaches y place }
    ensures { map (λ b. pos (from_bool b)) out.new
        ≡ listed (λ place. pos (from_bool (compare_of K.kind (X.number_of x place)
        (Y.number_of y place)))) (length out.old) }
{
    for i in 0..out.len() {
        out[i] = K::apply(x.at(i), y.at(i));
    }
}

/// Puts one of two elements in each place, by a truth value.
#[inline(never)]
#[tactic(auto, using(crate::proofs::LoopLemmas::one_more, crate::proofs::LoopLemmas::all_listed))]
pub fn chosen<T: Elem, C: Column<bool>, X: Column<T>, Y: Column<T>>(
    out: &mut [T],
    choice: C,
    x: X,
    y: Y,
)
    requires choice { (place : ℕ) → place < length out.old → C.reaches choice place }
    requires first { (place : ℕ) → place < length out.old → X.reaches x place }
    requires second { (place : ℕ) → place < length out.old → Y.reaches y place }
    ensures { map T.number out.new
        ≡ listed (λ place. if is_zero (C.number_of choice place)
        then wrap T.DTYPE (Y.number_of y place) else wrap T.DTYPE (X.number_of x place))
        (length out.old) }
{
    for i in 0..out.len() {
        // Both are read, so that no branch is in the way of vector code.
        out[i] = either(choice.at(i), x.at(i), y.at(i));
    }
}

// The first where the choice is true, else the second.
#[inline]
fn either<T: Elem>(choice: bool, x: T, y: T) -> T
    ensures { T.number result
        ≡ (if is_zero (pos (from_bool choice)) then T.number y else T.number x) }
{
    if choice { x } else { y }
}

/// Puts each element, as one of another type, in its place.
#[inline(never)]
#[tactic(auto, using(crate::proofs::LoopLemmas::one_more, crate::proofs::LoopLemmas::all_listed))]
pub fn converted<A: Elem, T: Elem, X: Column<A>>(out: &mut [T], x: X)
    requires { (place : ℕ) → place < length out.old → X.reaches x place }
    ensures { map T.number out.new
        ≡ listed (λ place. wrap T.DTYPE (X.number_of x place)) (length out.old) }
{
    for i in 0..out.len() {
        out[i] = cast_to(x.at(i));
    }
}

// The element of another type's element.
#[inline]
fn cast_to<A: Elem, T: Elem>(x: A) -> T
    ensures { T.number result ≡ wrap T.DTYPE (A.number x) }
{
    T::wrap(x.value())
}

/// Puts the element of each number in its place.
#[inline(never)]
#[tactic(auto, using(crate::proofs::LoopLemmas::one_more, crate::proofs::LoopLemmas::all_listed))]
pub fn wrapped<T: Elem>(out: &mut [T], numbers: &[i128])
    requires { length numbers.now ≡ length out.old }
    ensures { map T.number out.new
        ≡ listed (λ place. wrap T.DTYPE (slice_index_or numbers.now place (pos 0)))
        (length out.old) }
{
    for i in 0..out.len() {
        out[i] = T::wrap(numbers[i]);
    }
}

/// Puts in place the elements of the numbers from the one on that comes so many behind this one.
#[inline(never)]
#[tactic(auto, using(crate::proofs::LoopLemmas::one_more, crate::proofs::LoopLemmas::all_listed))]
pub fn counted<T: Elem>(out: &mut [T], first: i128, low: u64)
    requires { IsConstant first }
    ensures { map T.number out.new
        ≡ listed (λ place. wrap T.DTYPE ((first +ℤ pos low) +ℤ pos place)) (length out.old) }
{
    for i in 0..out.len() {
        out[i] = count_at(first, low, i);
    }
}

// The element of a number that comes so many behind another, and so many more.
#[inline]
fn count_at<T: Elem>(first: i128, low: u64, place: usize) -> T
    requires { IsConstant first }
    ensures { T.number result ≡ wrap T.DTYPE ((first +ℤ pos low) +ℤ pos place) }
{
    T::wrap(first + i128::from(low) + place as i128)
}

/// Whether an element is 0.
#[inline(never)]
#[tactic(auto, using(crate::proofs::LoopLemmas::any_more))]
pub fn any_zero<T: Elem, Y: Column<T>>(y: Y, count: usize) -> bool
    requires { (place : ℕ) → place < count → Y.reaches y place }
    ensures { result ≡ list_any is_zero
        (listed (λ place. wrap T.DTYPE (Y.number_of y place)) count) }
{
    let mut found = false;
    for i in 0..count {
        found |= y.at(i).value() == 0;
    }
    found
}

/// Whether an element is below 0.
#[inline(never)]
#[tactic(auto, using(crate::proofs::LoopLemmas::any_more))]
pub fn any_negative<T: Elem, Y: Column<T>>(y: Y, count: usize) -> bool
    requires { (place : ℕ) → place < count → Y.reaches y place }
    ensures { result ≡ list_any is_negative
        (listed (λ place. wrap T.DTYPE (Y.number_of y place)) count) }
{
    let mut found = false;
    for i in 0..count {
        found |= y.at(i).value() < 0;
    }
    found
}
