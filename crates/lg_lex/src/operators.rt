//! The operator in front of bytes, by its length.

ghost use Rattle.std.specs.Prelude.{◌≡◌};
ghost use Rattle.lg_lex.specs.Operators.{one, two, three, one_at, two_at, three_at};

use crate::tokens::TokenKind;

/// The operator of three bytes in front.
pub fn three_in_front(bytes: &[u8]) -> Option<TokenKind>
    ensures { result ≡ three_at bytes.now }
{
    if bytes.len() < 3 {
        return None;
    }
    three_bytes(bytes[0], bytes[1], bytes[2])
}

/// The operator of two bytes in front.
pub fn two_in_front(bytes: &[u8]) -> Option<TokenKind>
    ensures { result ≡ two_at bytes.now }
{
    if bytes.len() < 2 {
        return None;
    }
    two_bytes(bytes[0], bytes[1])
}

/// The operator of one byte in front.
pub fn one_in_front(bytes: &[u8]) -> Option<TokenKind>
    ensures { result ≡ one_at bytes.now }
{
    if bytes.is_empty() {
        return None;
    }
    one_byte(bytes[0])
}

/// The operator that these three bytes are.
fn three_bytes(first: u8, second: u8, third: u8) -> Option<TokenKind>
    ensures { result ≡ three first second third }
{
    match (first, second, third) {
        (b'*', b'*', b'=') => Some(TokenKind::DoubleStarEqual),
        (b'/', b'/', b'=') => Some(TokenKind::DoubleSlashEqual),
        (b'<', b'<', b'=') => Some(TokenKind::LeftShiftEqual),
        (b'>', b'>', b'=') => Some(TokenKind::RightShiftEqual),
        (b'.', b'.', b'.') => Some(TokenKind::Ellipsis),
        _ => None,
    }
}

/// The operator that these two bytes are.
fn two_bytes(first: u8, second: u8) -> Option<TokenKind>
    ensures { result ≡ two first second }
{
    match (first, second) {
        (b'*', b'*') => Some(TokenKind::DoubleStar),
        (b'/', b'/') => Some(TokenKind::DoubleSlash),
        (b'<', b'<') => Some(TokenKind::LeftShift),
        (b'>', b'>') => Some(TokenKind::RightShift),
        (b'<', b'=') => Some(TokenKind::LessEqual),
        (b'>', b'=') => Some(TokenKind::GreaterEqual),
        (b'=', b'=') => Some(TokenKind::EqualEqual),
        (b'!', b'=') => Some(TokenKind::NotEqual),
        (b'+', b'=') => Some(TokenKind::PlusEqual),
        (b'-', b'=') => Some(TokenKind::MinusEqual),
        (b'*', b'=') => Some(TokenKind::StarEqual),
        (b'%', b'=') => Some(TokenKind::PercentEqual),
        (b'&', b'=') => Some(TokenKind::AmpersandEqual),
        (b'|', b'=') => Some(TokenKind::BarEqual),
        (b'^', b'=') => Some(TokenKind::CircumflexEqual),
        _ => None,
    }
}

/// The operator that this byte is.
fn one_byte(byte: u8) -> Option<TokenKind>
    ensures { result ≡ one byte }
{
    match byte {
        b'+' => Some(TokenKind::Plus),
        b'-' => Some(TokenKind::Minus),
        b'*' => Some(TokenKind::Star),
        b'%' => Some(TokenKind::Percent),
        b'@' => Some(TokenKind::At),
        b'&' => Some(TokenKind::Ampersand),
        b'|' => Some(TokenKind::Bar),
        b'^' => Some(TokenKind::Circumflex),
        b'~' => Some(TokenKind::Tilde),
        b'<' => Some(TokenKind::Less),
        b'>' => Some(TokenKind::Greater),
        b'=' => Some(TokenKind::Equal),
        b'(' => Some(TokenKind::LeftParenthesis),
        b')' => Some(TokenKind::RightParenthesis),
        b'[' => Some(TokenKind::LeftBracket),
        b']' => Some(TokenKind::RightBracket),
        b',' => Some(TokenKind::Comma),
        b':' => Some(TokenKind::Colon),
        b'.' => Some(TokenKind::Dot),
        _ => None,
    }
}
