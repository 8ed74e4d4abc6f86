//! Division of machine integers, rounded down. Of the types that share a width the division is
//! that of the narrowest machine integer that holds them, which takes the least time.
ghost use Rattle.std.specs.Prelude.{◌≡◌, pos};
ghost use Rattle.std.specs.Int.{w32, w64};
ghost use Rattle.lg_elem.specs.Division.{floored, quotient_of, remainder_of};

/// The quotient rounded down, wrapped (of the least number by -1); 0 where the divisor is 0.
#[inline]
pub fn quotient_i32(x: i32, y: i32) -> i32
    ensures { result ≡ quotient_of w32 x y }
{
    if y == 0 {
        return 0;
    }
    let (quotient, rest) = (x.wrapping_div(y), x.wrapping_rem(y));
    if y < 0 {
        if 0 < rest {
            quotient.wrapping_sub(1)
        } else {
            quotient
        }
    } else if rest < 0 {
        quotient.wrapping_sub(1)
    } else {
        quotient
    }
}

/// The same at 64 bits.
#[inline]
pub fn quotient_i64(x: i64, y: i64) -> i64
    ensures { result ≡ quotient_of w64 x y }
{
    if y == 0 {
        return 0;
    }
    let (quotient, rest) = (x.wrapping_div(y), x.wrapping_rem(y));
    if y < 0 {
        if 0 < rest {
            quotient.wrapping_sub(1)
        } else {
            quotient
        }
    } else if rest < 0 {
        quotient.wrapping_sub(1)
    } else {
        quotient
    }
}

/// What the quotient rounded down leaves, which has the divisor's sign; 0 where the divisor is 0.
#[inline]
pub fn remainder_i32(x: i32, y: i32) -> i32
    ensures { result ≡ remainder_of x y }
{
    if y == 0 {
        return 0;
    }
    let rest = x.wrapping_rem(y);
    if y < 0 {
        if 0 < rest { rest + y } else { rest }
    } else if rest < 0 {
        rest + y
    } else {
        rest
    }
}

/// The same at 64 bits.
#[inline]
pub fn remainder_i64(x: i64, y: i64) -> i64
    ensures { result ≡ remainder_of x y }
{
    if y == 0 {
        return 0;
    }
    let rest = x.wrapping_rem(y);
    if y < 0 {
        if 0 < rest { rest + y } else { rest }
    } else if rest < 0 {
        rest + y
    } else {
        rest
    }
}

/// The quotient without a sign; 0 where the divisor is 0.
#[inline]
pub fn quotient_u64(x: u64, y: u64) -> u64
    ensures { pos result ≡ floored (pos x) (pos y) }
{
    if y == 0 { 0 } else { x / y }
}

/// What it leaves; 0 where the divisor is 0.
#[inline]
pub fn remainder_u64(x: u64, y: u64) -> u64
    ensures { pos result ≡ remainder_of (pos x) (pos y) }
{
    if y == 0 { 0 } else { x % y }
}
