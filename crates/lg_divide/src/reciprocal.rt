//! The reciprocal of a divisor, and quotients by it at each width. Each takes the factor at its own
//! width before the product, which is then compiled to one of the machine's vectors where it has
//! one.
ghost use Rattle.std.specs.Prelude.{◌≡◌, ◌+◌, ◌/◌, ◌^◌, ◌<◌, ◌≤◌};
ghost use Rattle.lg_divide.specs.Reciprocals.{IsShift, IsReciprocal};

/// A divisor of numbers of so many bits, with what quotients by it are computed from: the factor
/// 2 to the number of bits plus `low`, and a shift.
#[derive(Clone, Copy)]
pub struct Reciprocal {
    pub bits: u32,
    pub divisor: u64,
    low: u64,
    shift: u32,
    ghost fits: { low < 2 ^ bits },
    ghost few: { shift ≤ bits },
    ghost is: { IsReciprocal bits shift divisor (2 ^ bits + low) },
}

// The shift of a divisor.
fn shift_of(divisor: u64) -> u32
    requires some { 0 < divisor }
    requires most { divisor < 2 ^ 63 }
    ensures shift { IsShift divisor result }
    ensures few { result ≤ 63 }
{
    64 - (divisor - 1).leading_zeros()
}

// The factor of a divisor, without its highest bit.
fn factor_of(bits: u32, divisor: u64, shift: u32) -> u64
    requires bits { bits ≤ 64 }
    requires some { 0 < divisor }
    requires small { divisor < 2 ^ bits }
    requires shift { IsShift divisor shift }
    requires few { shift ≤ 63 }
    ensures fits { result < 2 ^ bits }
    ensures few { shift ≤ bits }
    ensures is { IsReciprocal bits shift divisor (2 ^ bits + result) }
{
    let factor = (1_u128 << (bits + shift)) / u128::from(divisor) + 1;
    (factor - (1 << bits)) as u64
}

impl Reciprocal {
    /// The reciprocal of a divisor of numbers of so many bits.
    pub fn new(bits: u32, divisor: u64) -> Reciprocal
        requires bits { bits ≤ 64 }
        requires some { 0 < divisor }
        requires small { divisor < 2 ^ bits }
        requires most { divisor < 2 ^ 63 }
        ensures bits { result.bits ≡ bits }
        ensures divisor { result.divisor ≡ divisor }
    {
        let shift = shift_of(divisor);
        let low = factor_of(bits, divisor, shift);
        Reciprocal {
            bits,
            divisor,
            low,
            shift,
        }
    }

    /// The quotient of a number of 7 bits.
    #[inline]
    pub fn quotient_7(self, x: u8) -> u8
        requires bits { self.bits ≡ 7 }
        requires below { x < 2 ^ 7 }
        ensures { result ≡ x / self.divisor }
    {
        let factor = (self.low + (1 << 7)) as u8;
        ((u16::from(x) * u16::from(factor)) >> (7 + self.shift)) as u8
    }

    /// The quotient of a number of 8 bits.
    #[inline]
    pub fn quotient_8(self, x: u8) -> u8
        requires { self.bits ≡ 8 }
        ensures { result ≡ x / self.divisor }
    {
        let (x, low) = (u16::from(x), u16::from(self.low as u8));
        ((x + ((x * low) >> 8)) >> self.shift) as u8
    }

    /// The quotient of a number of 15 bits.
    #[inline]
    pub fn quotient_15(self, x: u16) -> u16
        requires bits { self.bits ≡ 15 }
        requires below { x < 2 ^ 15 }
        ensures { result ≡ x / self.divisor }
    {
        let factor = (self.low + (1 << 15)) as u16;
        let high = ((2 * u32::from(x) * u32::from(factor)) >> 16) as u16;
        high >> self.shift
    }

    /// The quotient of a number of 16 bits.
    #[inline]
    pub fn quotient_16(self, x: u16) -> u16
        requires { self.bits ≡ 16 }
        ensures { result ≡ x / self.divisor }
    {
        let high = ((u32::from(x) * u32::from(self.low as u16)) >> 16) as u16;
        let first = self.shift.min(1);
        (high + ((x - high) >> first)) >> (self.shift - first)
    }

    /// The quotient of a number of 31 bits.
    #[inline]
    pub fn quotient_31(self, x: u32) -> u32
        requires bits { self.bits ≡ 31 }
        requires below { x < 2 ^ 31 }
        ensures { result ≡ x / self.divisor }
    {
        let factor = (self.low + (1 << 31)) as u32;
        ((u64::from(x) * u64::from(factor)) >> (31 + self.shift)) as u32
    }

    /// The quotient of a number of 32 bits.
    #[inline]
    pub fn quotient_32(self, x: u32) -> u32
        requires { self.bits ≡ 32 }
        ensures { result ≡ x / self.divisor }
    {
        let high = ((u64::from(x) * u64::from(self.low as u32)) >> 32) as u32;
        let first = self.shift.min(1);
        (high + ((x - high) >> first)) >> (self.shift - first)
    }

    /// The quotient of a number of 63 bits.
    #[inline]
    pub fn quotient_63(self, x: u64) -> u64
        requires bits { self.bits ≡ 63 }
        requires below { x < 2 ^ 63 }
        ensures { result ≡ x / self.divisor }
    {
        let factor = (self.low + (1 << 63)) as u64;
        let high = ((2 * u128::from(x) * u128::from(factor)) >> 64) as u64;
        high >> self.shift
    }

    /// The quotient of a number of 64 bits.
    #[inline]
    pub fn quotient_64(self, x: u64) -> u64
        requires { self.bits ≡ 64 }
        ensures { result ≡ x / self.divisor }
    {
        let high = ((u128::from(x) * u128::from(self.low)) >> 64) as u64;
        let first = self.shift.min(1);
        (high + ((x - high) >> first)) >> (self.shift - first)
    }
}
