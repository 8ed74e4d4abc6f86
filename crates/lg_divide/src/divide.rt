//! Division of an element of each type by its reciprocal.
ghost use Rattle.std.specs.Prelude.{◌≡◌, pos};
ghost use Rattle.lg_elem.specs.Operations.{floor_div};
ghost use Rattle.lg_divide.specs.Quotients.{magnitude_bits};

use crate::reciprocal::Reciprocal;
use crate::signs::{
    magnitude_8, magnitude_16, magnitude_32, magnitude_64, turned_8, turned_16, turned_32,
    turned_64,
};
use lg_elem::Elem;

/// An element type whose elements can be divided by a reciprocal.
pub trait Divide: Elem {
    /// The quotient rounded down.
    fn floor_quotient(self, by: Reciprocal) -> Self
        requires { by.bits ≡ magnitude_bits Self.DTYPE }
        ensures { Self.number result ≡ floor_div (Self.number self) (pos by.divisor) };
}

impl Divide for bool {
    // Its only divisor is 1.
    #[inline]
    fn floor_quotient(self, _by: Reciprocal) -> bool {
        self
    }
}

impl Divide for i8 {
    #[inline]
    fn floor_quotient(self, by: Reciprocal) -> i8 {
        turned_8(by.quotient_7(magnitude_8(self)), self)
    }
}

impl Divide for i16 {
    #[inline]
    fn floor_quotient(self, by: Reciprocal) -> i16 {
        turned_16(by.quotient_15(magnitude_16(self)), self)
    }
}

impl Divide for i32 {
    #[inline]
    fn floor_quotient(self, by: Reciprocal) -> i32 {
        turned_32(by.quotient_31(magnitude_32(self)), self)
    }
}

impl Divide for i64 {
    #[inline]
    fn floor_quotient(self, by: Reciprocal) -> i64 {
        turned_64(by.quotient_63(magnitude_64(self)), self)
    }
}

impl Divide for u8 {
    #[inline]
    fn floor_quotient(self, by: Reciprocal) -> u8 {
        by.quotient_8(self)
    }
}

impl Divide for u16 {
    #[inline]
    fn floor_quotient(self, by: Reciprocal) -> u16 {
        by.quotient_16(self)
    }
}

impl Divide for u32 {
    #[inline]
    fn floor_quotient(self, by: Reciprocal) -> u32 {
        by.quotient_32(self)
    }
}

impl Divide for u64 {
    #[inline]
    fn floor_quotient(self, by: Reciprocal) -> u64 {
        by.quotient_64(self)
    }
}
