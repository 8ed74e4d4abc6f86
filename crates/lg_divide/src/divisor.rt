//! A divisor of elements with its reciprocal, and what runs for each element.
ghost use Rattle.std.specs.Prelude.{◌≡◌, ◌^◌, ◌<ℤ◌, pos};
ghost use Rattle.lg_elem.specs.declared.kinds.Binary.TheVariants as kinds;
ghost use Rattle.lg_elem.specs.Operations.{value_of};
ghost use Rattle.lg_divide.specs.Quotients.{magnitude_bits};

use crate::Divide;
use crate::reciprocal::Reciprocal;
use lg_elem::DType;

/// An element from 1 to below 2 to the 63, as a divisor.
#[derive(Drop)]
pub struct Divisor<T: Divide> {
    pub number: T,
    by: Reciprocal,
    ghost bits: { by.bits ≡ magnitude_bits T.DTYPE },
    ghost same: { pos by.divisor ≡ T.number number },
}

// How many bits the magnitudes of a type's numbers have.
fn bits_of(t: DType) -> u32
    ensures { result ≡ magnitude_bits t }
{
    match t {
        DType::Bool => 1,
        DType::Int8 => 7,
        DType::Int16 => 15,
        DType::Int32 => 31,
        DType::Int64 => 63,
        DType::UInt8 => 8,
        DType::UInt16 => 16,
        DType::UInt32 => 32,
        DType::UInt64 => 64,
    }
}

impl<T: Divide> Divisor<T> {
    ghost use Rattle.std.specs.Prelude.{◌≡◌, ◌^◌, ◌<ℤ◌, pos};
    ghost use Rattle.lg_elem.specs.declared.kinds.Binary.TheVariants as kinds;
    ghost use Rattle.lg_elem.specs.Operations.{value_of};

    /// The divisor of a number.
    pub fn new(number: T) -> Divisor<T>
        requires some { pos 0 <ℤ T.number number }
        requires most { T.number number <ℤ pos (2 ^ 63) }
        ensures { result.number ≡ number }
    {
        let by = Reciprocal::new(bits_of(T::DTYPE), number.value() as u64);
        Divisor { number, by }
    }

    /// The quotient rounded down.
    #[inline]
    pub fn quotient(&self, x: T) -> T
        ensures { T.number result
            ≡ value_of kinds.FloorDiv T.DTYPE (T.number x) (T.number self.now.number) }
    {
        // That an element's number is one of its type is known of an element that was asked for it.
        let _number = x.value();
        x.floor_quotient(self.by)
    }

    /// What the quotient leaves.
    #[inline]
    pub fn remainder(&self, x: T) -> T
        ensures { T.number result
            ≡ value_of kinds.Rem T.DTYPE (T.number x) (T.number self.now.number) }
    {
        let quotient = x.floor_quotient(self.by).value();
        T::wrap(x.value() - self.number.value() * quotient)
    }
}
