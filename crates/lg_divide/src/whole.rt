//! Division of all elements of a slice by the same element.
ghost use Rattle.std.specs.Prelude.{◌≡◌, length, map};
ghost use Rattle.std.specs.List.{All};
ghost use Rattle.lg_elem.specs.declared.kinds.Binary.TheVariants as kinds;
ghost use Rattle.lg_elem.specs.Operations.{value_of};
ghost use Rattle.lg_elem.specs.Types.{IsNumber};

use crate::Divide;
use crate::divisor::Divisor;
use lg_elem::Elem;
use lg_elem::kernels::{FloorDiv, Kernel, Rem};

/// Puts in each place the quotient of the element there by the same divisor, rounded down; 0 where
/// the divisor is 0 (NumPy's reference, "numpy.floor_divide").
pub fn divide_all<T: Divide>(out: &mut [T], x: &[T], other: T)
    requires { length x.now ≡ length out.old }
    ensures value { map T.number out.new
        ≡ map (λ a. value_of kinds.FloorDiv T.DTYPE a (T.number other)) (map T.number x.now) }
    ensures numbers { All (λ a. IsNumber T.DTYPE (T.number a)) x.now }
{
    let number = other.value();
    if 0 < number && number < 1 << 63 {
        quotients(out, x, Divisor::new(other));
    } else {
        each::<T, FloorDiv>(out, x, other);
    }
}

/// Puts in each place what that quotient leaves, which has the divisor's sign; 0 where the divisor
/// is 0 (NumPy's reference, "numpy.remainder").
pub fn remainder_all<T: Divide>(out: &mut [T], x: &[T], other: T)
    requires { length x.now ≡ length out.old }
    ensures value { map T.number out.new
        ≡ map (λ a. value_of kinds.Rem T.DTYPE a (T.number other)) (map T.number x.now) }
    ensures numbers { All (λ a. IsNumber T.DTYPE (T.number a)) x.now }
{
    let number = other.value();
    if 0 < number && number < 1 << 63 {
        remainders(out, x, Divisor::new(other));
    } else {
        each::<T, Rem>(out, x, other);
    }
}

// By the reciprocal. It is passed by value, so that no write in the loop can change it.
#[inline(never)]
fn quotients<T: Divide>(out: &mut [T], x: &[T], by: Divisor<T>)
    requires { length x.now ≡ length out.old }
    ensures value { map T.number out.new
        ≡ map (λ a. value_of kinds.FloorDiv T.DTYPE a (T.number by.number)) (map T.number x.now) }
    ensures numbers { All (λ a. IsNumber T.DTYPE (T.number a)) x.now }
{
    for i in 0..out.len() {
        let item = x[i];
        let _number = item.value();
        out[i] = by.quotient(item);
    }
}

// The same, of what the quotients leave.
#[inline(never)]
fn remainders<T: Divide>(out: &mut [T], x: &[T], by: Divisor<T>)
    requires { length x.now ≡ length out.old }
    ensures value { map T.number out.new
        ≡ map (λ a. value_of kinds.Rem T.DTYPE a (T.number by.number)) (map T.number x.now) }
    ensures numbers { All (λ a. IsNumber T.DTYPE (T.number a)) x.now }
{
    for i in 0..out.len() {
        let item = x[i];
        let _number = item.value();
        out[i] = by.remainder(item);
    }
}

// By the operation of the elements.
#[inline(never)]
fn each<T: Elem, K: Kernel>(out: &mut [T], x: &[T], other: T)
    requires { length x.now ≡ length out.old }
    ensures value { map T.number out.new
        ≡ map (λ a. value_of K.kind T.DTYPE a (T.number other)) (map T.number x.now) }
    ensures numbers { All (λ a. IsNumber T.DTYPE (T.number a)) x.now }
{
    for i in 0..out.len() {
        let item = x[i];
        let _number = item.value();
        out[i] = K::apply(item, other);
    }
}
