ghost use Rattle.std.specs.Prelude.{◌≡◌, ℤ, ◌+ℤ◌};
ghost use Rattle.lg_elem.specs.declared.dtype.DType.{DType};
ghost use Rattle.lg_elem.specs.Types.{IsNumber, wrap};

use crate::DType;

/// A Rust type whose values are the elements of one element type. Contracts see an element as its
/// number.
pub trait Elem: Copy {
    ghost DTYPE: { DType };

    /// The number that an element stands for.
    ghost number: { Self → ℤ };

    /// The element type.
    const DTYPE: DType;

    /// The element's number.
    fn value(self) -> i128
        ensures value { result ≡ number self }
        ensures fits { IsNumber DTYPE result };

    /// The element of a number, which is first wrapped to the type: modulo 2 to the number of bits,
    /// or for `Bool` by whether it is 0 (NumPy's reference, "Data type promotion" and "Overflow
    /// errors").
    fn wrap(x: i128) -> Self
        ensures { number result ≡ wrap DTYPE x };

    /// The sum, wrapped to the type; for `Bool` the or (NumPy's reference, "Math operations").
    #[inline]
    final fn wrapping_add(self, other: Self) -> Self
        ensures { number result ≡ wrap DTYPE (number self +ℤ number other) }
    {
        Self::wrap(self.value() + other.value())
    }

    /// An element is told by its number.
    ghost distinct: { (x y : Self) → number x ≡ number y → x ≡ y };
}
