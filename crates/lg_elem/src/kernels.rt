//! The operations as types, for loops that are compiled for one operation each. Every operation has
//! one body for all element types, which goes by whole numbers; compiled for a type, it is the
//! machine's own arithmetic on that type.
ghost use Rattle.std.specs.Prelude.{◌≡◌, ◌<◌, Bool, true, pos};
ghost use Rattle.lg_elem.specs.declared.kinds.Binary.{Binary};
ghost use Rattle.lg_elem.specs.declared.kinds.Binary.TheVariants as kinds;
ghost use Rattle.lg_elem.specs.declared.kinds.Unary.{Unary};
ghost use Rattle.lg_elem.specs.declared.kinds.Unary.TheVariants as unary;
ghost use Rattle.lg_elem.specs.declared.kinds.Compare.{Compare};
ghost use Rattle.lg_elem.specs.declared.kinds.Compare.TheVariants as orders;
ghost use Rattle.lg_elem.specs.Operations.{is_shift, unary_of, value_of, compare_of};

use crate::division::{
    quotient_i32, quotient_i64, quotient_u64, remainder_i32, remainder_i64, remainder_u64,
};
use crate::power::power;
use crate::{DType, Elem};

/// An operation on one element.
pub trait UnaryKernel {
    ghost kind: { Unary };

    /// The number of the operation, wrapped to the type.
    fn apply<T: Elem>(x: T) -> T
        ensures { T.number result ≡ unary_of kind T.DTYPE (T.number x) };
}

/// An operation on two elements of one type.
pub trait Kernel {
    ghost kind: { Binary };

    /// The number of the operation, wrapped to the type; 0 where its flag is not clear.
    fn apply<T: Elem>(x: T, y: T) -> T
        ensures { T.number result ≡ value_of kind T.DTYPE (T.number x) (T.number y) };
}

/// A comparison of two elements.
pub trait CompareKernel {
    ghost kind: { Compare };

    /// Whether the two whole numbers compare so.
    fn apply<A: Elem, B: Elem>(x: A, y: B) -> bool
        ensures { result ≡ compare_of kind (A.number x) (B.number y) };
}

/// The sum.
pub struct Add;

impl Kernel for Add {
    ghost kind = { kinds.Add };

    #[inline]
    fn apply<T: Elem>(x: T, y: T) -> T {
        T::wrap(x.value() + y.value())
    }
}

/// The difference.
pub struct Sub;

impl Kernel for Sub {
    ghost kind = { kinds.Sub };

    #[inline]
    fn apply<T: Elem>(x: T, y: T) -> T {
        T::wrap(x.value() - y.value())
    }
}

/// The product.
pub struct Mul;

impl Kernel for Mul {
    ghost kind = { kinds.Mul };

    #[inline]
    #[tactic(auto, using(crate::proofs::Bitwise::product_wrapped))]
    fn apply<T: Elem>(x: T, y: T) -> T {
        T::wrap(x.value().wrapping_mul(y.value()))
    }
}

/// The quotient rounded down; 0 where the divisor is 0.
pub struct FloorDiv;

impl Kernel for FloorDiv {
    ghost kind = { kinds.FloorDiv };

    #[inline]
    fn apply<T: Elem>(x: T, y: T) -> T {
        let (x, y) = (x.value(), y.value());
        match T::DTYPE {
            DType::UInt64 => T::wrap(i128::from(quotient_u64(x as u64, y as u64))),
            DType::Int64 | DType::UInt32 => {
                T::wrap(i128::from(quotient_i64(x as i64, y as i64)))
            }
            _ => T::wrap(i128::from(quotient_i32(x as i32, y as i32))),
        }
    }
}

/// What the quotient rounded down leaves, which has the divisor's sign; 0 where the divisor is 0.
pub struct Rem;

impl Kernel for Rem {
    ghost kind = { kinds.Rem };

    #[inline]
    fn apply<T: Elem>(x: T, y: T) -> T {
        let (x, y) = (x.value(), y.value());
        match T::DTYPE {
            DType::UInt64 => T::wrap(i128::from(remainder_u64(x as u64, y as u64))),
            DType::Int64 | DType::UInt32 => {
                T::wrap(i128::from(remainder_i64(x as i64, y as i64)))
            }
            _ => T::wrap(i128::from(remainder_i32(x as i32, y as i32))),
        }
    }
}

/// The power, which is 1 for the exponent 0; 0 where the exponent is below 0.
pub struct Pow;

impl Kernel for Pow {
    ghost kind = { kinds.Pow };

    #[inline]
    fn apply<T: Elem>(x: T, y: T) -> T {
        let exponent = y.value();
        if exponent < 0 {
            T::wrap(0)
        } else {
            power(x, exponent as u64)
        }
    }
}

/// The bits that both have.
pub struct BitAnd;

impl Kernel for BitAnd {
    ghost kind = { kinds.BitAnd };

    #[inline]
    #[tactic(auto, using(crate::proofs::Bitwise::and_wrapped))]
    fn apply<T: Elem>(x: T, y: T) -> T {
        T::wrap(x.value() & y.value())
    }
}

/// The bits that one has or both have.
pub struct BitOr;

impl Kernel for BitOr {
    ghost kind = { kinds.BitOr };

    #[inline]
    #[tactic(auto, using(crate::proofs::Bitwise::or_wrapped))]
    fn apply<T: Elem>(x: T, y: T) -> T {
        T::wrap(x.value() | y.value())
    }
}

/// The bits that just one has.
pub struct BitXor;

impl Kernel for BitXor {
    ghost kind = { kinds.BitXor };

    #[inline]
    #[tactic(auto, using(crate::proofs::Bitwise::xor_wrapped))]
    fn apply<T: Elem>(x: T, y: T) -> T {
        T::wrap(x.value() ^ y.value())
    }
}

// Whether an element is a number of places by which its type is shifted.
#[inline]
fn is_place<T: Elem>(y: T) -> bool
    ensures { result ≡ is_shift T.DTYPE (T.number y) }
{
    let by = y.value();
    0 <= by && by < i128::from(T::DTYPE.bits())
}

// The number of places, where it is one. The rest is taken in any case, and before it is asked
// whether it is one: so the shift is compiled to one of the type's own width.
#[inline]
fn place<T: Elem>(y: T) -> u32
    ensures same { is_shift T.DTYPE (T.number y) ≡ true → pos result ≡ T.number y }
    ensures few { result < 64 }
{
    y.value().rem_euclid(i128::from(T::DTYPE.bits())) as u32
}

/// The product with 2 to the other number, where that is from 0 to below the number of bits; else
/// 0.
pub struct Shl;

impl Kernel for Shl {
    ghost kind = { kinds.Shl };

    #[inline]
    fn apply<T: Elem>(x: T, y: T) -> T {
        let shifted = T::wrap(x.value() << place(y));
        if is_place(y) { shifted } else { T::wrap(0) }
    }
}

/// The quotient by 2 to the other number, rounded down, where that is from 0 to below the number of
/// bits; else 0, or -1 where the element is below 0.
pub struct Shr;

impl Kernel for Shr {
    ghost kind = { kinds.Shr };

    #[inline]
    fn apply<T: Elem>(x: T, y: T) -> T {
        let shifted = T::wrap(x.value() >> place(y));
        if is_place(y) {
            shifted
        } else if x.value() < 0 {
            T::wrap(-1)
        } else {
            T::wrap(0)
        }
    }
}

/// The lesser.
pub struct Min;

impl Kernel for Min {
    ghost kind = { kinds.Min };

    #[inline]
    fn apply<T: Elem>(x: T, y: T) -> T {
        if y.value() < x.value() { y } else { x }
    }
}

/// The greater.
pub struct Max;

impl Kernel for Max {
    ghost kind = { kinds.Max };

    #[inline]
    fn apply<T: Elem>(x: T, y: T) -> T {
        if y.value() < x.value() { x } else { y }
    }
}

/// The negative.
pub struct Neg;

impl UnaryKernel for Neg {
    ghost kind = { unary.Neg };

    #[inline]
    fn apply<T: Elem>(x: T) -> T {
        T::wrap(-x.value())
    }
}

/// The other bits: those of -1, which are all, less those of the element.
pub struct Invert;

impl UnaryKernel for Invert {
    ghost kind = { unary.Invert };

    #[inline]
    fn apply<T: Elem>(x: T) -> T {
        T::wrap(T::wrap(-1).value() - x.value())
    }
}

/// The absolute value; the least number of a signed type stays.
pub struct Abs;

impl UnaryKernel for Abs {
    ghost kind = { unary.Abs };

    #[inline]
    fn apply<T: Elem>(x: T) -> T {
        T::wrap(x.value().abs())
    }
}

/// `==`.
pub struct Eq;

impl CompareKernel for Eq {
    ghost kind = { orders.Eq };

    #[inline]
    fn apply<A: Elem, B: Elem>(x: A, y: B) -> bool {
        x.value() == y.value()
    }
}

/// `!=`.
pub struct Ne;

impl CompareKernel for Ne {
    ghost kind = { orders.Ne };

    #[inline]
    fn apply<A: Elem, B: Elem>(x: A, y: B) -> bool {
        x.value() != y.value()
    }
}

/// `<`.
pub struct Lt;

impl CompareKernel for Lt {
    ghost kind = { orders.Lt };

    #[inline]
    fn apply<A: Elem, B: Elem>(x: A, y: B) -> bool {
        x.value() < y.value()
    }
}

/// `<=`.
pub struct Le;

impl CompareKernel for Le {
    ghost kind = { orders.Le };

    #[inline]
    fn apply<A: Elem, B: Elem>(x: A, y: B) -> bool {
        x.value() <= y.value()
    }
}

/// `>`.
pub struct Gt;

impl CompareKernel for Gt {
    ghost kind = { orders.Gt };

    #[inline]
    fn apply<A: Elem, B: Elem>(x: A, y: B) -> bool {
        x.value() > y.value()
    }
}

/// `>=`.
pub struct Ge;

impl CompareKernel for Ge {
    ghost kind = { orders.Ge };

    #[inline]
    fn apply<A: Elem, B: Elem>(x: A, y: B) -> bool {
        x.value() >= y.value()
    }
}
