//! Powers by squaring.
ghost use Rattle.std.specs.Prelude.{◌≡◌};
ghost use Rattle.lg_elem.specs.Types.{wrap};
ghost use Rattle.lg_elem.specs.Operations.{power_of};
ghost use Rattle.lg_elem.specs.Powers.{factor_of};

use crate::Elem;
use crate::kernels::{Kernel, Mul};

/// The power, wrapped to the type; to the 0 it is 1.
pub fn power<T: Elem>(x: T, exponent: u64) -> T
    ensures { T.number result ≡ wrap T.DTYPE (power_of (T.number x) exponent) }
{
    let mut power = T::wrap(1);
    let mut base = x;
    let mut left = exponent;
    while 0 < left {
        power = Mul::apply(power, factor(base, left));
        base = Mul::apply(base, base);
        left /= 2;
    }
    T::wrap(power.value())
}

// What the last bit of the exponent gives to the power: so a step multiplies in either case.
#[inline]
fn factor<T: Elem>(base: T, exponent: u64) -> T
    ensures { T.number result ≡ factor_of T.DTYPE (T.number base) exponent }
{
    if exponent % 2 == 1 { base } else { T::wrap(1) }
}

/// The power of a number of the type, as a number.
pub fn power_of_number<T: Elem>(base: i128, exponent: u64) -> i128
    ensures { result ≡ wrap T.DTYPE (power_of base exponent) }
{
    power(T::wrap(base), exponent).value()
}
