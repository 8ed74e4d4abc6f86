//! The numbers that digits write.

ghost use Rattle.std.specs.Prelude.{◌≡◌, ◌<◌, ◌+◌, ◌*◌, ◌≤◌, ℕ, length, decimal, IfSome, IfNone};
ghost use Rattle.lg_lex.specs.Lexical.{IsNumber, MAX_NUMBER};

use crate::bytes::is_digit;

/// The number that these bytes write in decimal, with no needless zero in front. `None` where they
/// write none, or one above 2^64 - 1.
pub fn number_of(text: &[u8]) -> Option<u64>
    requires { 0 < length text.now }
    ensures found { IfSome result (λ n. decimal n ≡ text.now) }
    ensures small { IfSome result (λ n. n ≤ MAX_NUMBER) }
    ensures none { IfNone result (IsNumber text.now → ⊥) }
{
    if text.len() > 1 && text[0] == b'0' {
        return None;
    }
    let mut value: u64 = 0;
    for digit in text {
        if !is_digit(*digit) {
            return None;
        }
        value = more_digits(value, *digit - b'0')?;
    }
    Some(value)
}

/// The number with one digit more behind it.
fn more_digits(value: u64, digit: u8) -> Option<u64>
    requires { digit < 10 }
    ensures found { IfSome result (λ n. n ≡ value * 10 + digit) }
    ensures small { IfSome result (λ n. n ≤ MAX_NUMBER) }
    ensures none { IfNone result (MAX_NUMBER < value * 10 + digit) }
{
    value.checked_mul(10)?.checked_add(u64::from(digit))
}
