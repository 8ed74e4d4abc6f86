ghost use Rattle.std.specs.Prelude.{◌≡◌, ◌<◌, ◌≤◌, ◌≤ℤ◌, true, false};
ghost use Rattle.lg_elem.specs.Types.{least_of, greatest_of, wrap_to};

/// The number of so many bits without a sign that differs from `x` by a multiple of 2 to the number
/// of bits.
#[inline]
pub fn wrapped_unsigned(x: i128, bits: u32) -> i128
    requires { bits ≤ 64 }
    ensures value { result ≡ wrap_to false bits x }
    ensures fits { (least_of false bits ≤ℤ result) × (result ≤ℤ greatest_of false bits) }
{
    x.rem_euclid(1 << bits)
}

/// The number of so many bits with a sign that differs from `x` by a multiple of 2 to the number of
/// bits.
#[inline]
pub fn wrapped_signed(x: i128, bits: u32) -> i128
    requires some { 0 < bits }
    requires most { bits ≤ 64 }
    ensures value { result ≡ wrap_to true bits x }
    ensures fits { (least_of true bits ≤ℤ result) × (result ≤ℤ greatest_of true bits) }
{
    let low = wrapped_unsigned(x, bits);
    if low < 1 << (bits - 1) {
        low
    } else {
        low - (1 << bits)
    }
}
