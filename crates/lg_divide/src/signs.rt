//! Numbers with a sign as numbers without one, for division: all bits of a number below 0 are
//! turned, and those of its quotient are turned back, which rounds it down.
ghost use Rattle.std.specs.Prelude.{◌≡◌, ◌^◌, ◌<◌};
ghost use Rattle.lg_divide.specs.Quotients.{magnitude, turned_by};

/// The magnitude of a number of 8 bits.
#[inline]
pub fn magnitude_8(x: i8) -> u8
    ensures value { result ≡ magnitude x }
    ensures fits { result < 2 ^ 7 }
{
    if x < 0 { !x as u8 } else { x as u8 }
}

/// A quotient of magnitudes as that of a number of 8 bits.
#[inline]
pub fn turned_8(quotient: u8, x: i8) -> i8
    requires { quotient < 2 ^ 7 }
    ensures { result ≡ turned_by x quotient }
{
    if x < 0 {
        !(quotient as i8)
    } else {
        quotient as i8
    }
}

/// The magnitude of a number of 16 bits.
#[inline]
pub fn magnitude_16(x: i16) -> u16
    ensures value { result ≡ magnitude x }
    ensures fits { result < 2 ^ 15 }
{
    if x < 0 { !x as u16 } else { x as u16 }
}

/// A quotient of magnitudes as that of a number of 16 bits.
#[inline]
pub fn turned_16(quotient: u16, x: i16) -> i16
    requires { quotient < 2 ^ 15 }
    ensures { result ≡ turned_by x quotient }
{
    if x < 0 {
        !(quotient as i16)
    } else {
        quotient as i16
    }
}

/// The magnitude of a number of 32 bits.
#[inline]
pub fn magnitude_32(x: i32) -> u32
    ensures value { result ≡ magnitude x }
    ensures fits { result < 2 ^ 31 }
{
    if x < 0 { !x as u32 } else { x as u32 }
}

/// A quotient of magnitudes as that of a number of 32 bits.
#[inline]
pub fn turned_32(quotient: u32, x: i32) -> i32
    requires { quotient < 2 ^ 31 }
    ensures { result ≡ turned_by x quotient }
{
    if x < 0 {
        !(quotient as i32)
    } else {
        quotient as i32
    }
}

/// The magnitude of a number of 64 bits.
#[inline]
pub fn magnitude_64(x: i64) -> u64
    ensures value { result ≡ magnitude x }
    ensures fits { result < 2 ^ 63 }
{
    if x < 0 { !x as u64 } else { x as u64 }
}

/// A quotient of magnitudes as that of a number of 64 bits.
#[inline]
pub fn turned_64(quotient: u64, x: i64) -> i64
    requires { quotient < 2 ^ 63 }
    ensures { result ≡ turned_by x quotient }
{
    if x < 0 {
        !(quotient as i64)
    } else {
        quotient as i64
    }
}
