//! The operators between two operands.

ghost use Rattle.std.specs.Prelude.{◌≡◌};
ghost use Rattle.lg_parse.specs.Operators as spec;
ghost use Rattle.lg_parse.specs.Parsing.{at_level};

use lg_elem::Compare;
use lg_lex::TokenKind;
use lg_tree::Arith;

/// What an operator between two operands does.
#[derive(Clone, Copy, Debug)]
pub enum Operator {
    /// An operation on each pair of elements.
    Each(Arith),
    /// `@`
    Matrix,
}

/// The level and the operation of an operator.
pub fn operation(kind: TokenKind) -> Option<(u8, Operator)>
    ensures { result ≡ spec.operation kind }
{
    match kind {
        TokenKind::Star => Some((1, Operator::Each(Arith::Mul))),
        TokenKind::DoubleSlash => Some((1, Operator::Each(Arith::FloorDiv))),
        TokenKind::Percent => Some((1, Operator::Each(Arith::Rem))),
        TokenKind::At => Some((1, Operator::Matrix)),
        TokenKind::Plus => Some((2, Operator::Each(Arith::Add))),
        TokenKind::Minus => Some((2, Operator::Each(Arith::Sub))),
        TokenKind::LeftShift => Some((3, Operator::Each(Arith::Shl))),
        TokenKind::RightShift => Some((3, Operator::Each(Arith::Shr))),
        TokenKind::Ampersand => Some((4, Operator::Each(Arith::BitAnd))),
        TokenKind::Circumflex => Some((5, Operator::Each(Arith::BitXor))),
        TokenKind::Bar => Some((6, Operator::Each(Arith::BitOr))),
        _ => None,
    }
}

/// The operation, if it is of this level.
pub fn of_level(level: u8, found: Option<(u8, Operator)>) -> Option<Operator>
    ensures { result ≡ at_level level found }
{
    match found {
        Some((other, op)) => { if other == level { Some(op) } else { None } }
        None => None,
    }
}

/// The comparison of an operator.
pub fn comparison(kind: TokenKind) -> Option<Compare>
    ensures { result ≡ spec.comparison kind }
{
    match kind {
        TokenKind::EqualEqual => Some(Compare::Eq),
        TokenKind::NotEqual => Some(Compare::Ne),
        TokenKind::Less => Some(Compare::Lt),
        TokenKind::LessEqual => Some(Compare::Le),
        TokenKind::Greater => Some(Compare::Gt),
        TokenKind::GreaterEqual => Some(Compare::Ge),
        _ => None,
    }
}

/// The operation of an assigning operator.
pub fn assigning(kind: TokenKind) -> Option<Arith>
    ensures { result ≡ spec.assigning kind }
{
    match kind {
        TokenKind::PlusEqual => Some(Arith::Add),
        TokenKind::MinusEqual => Some(Arith::Sub),
        TokenKind::StarEqual => Some(Arith::Mul),
        TokenKind::DoubleSlashEqual => Some(Arith::FloorDiv),
        TokenKind::PercentEqual => Some(Arith::Rem),
        TokenKind::DoubleStarEqual => Some(Arith::Pow),
        TokenKind::AmpersandEqual => Some(Arith::BitAnd),
        TokenKind::BarEqual => Some(Arith::BitOr),
        TokenKind::CircumflexEqual => Some(Arith::BitXor),
        TokenKind::LeftShiftEqual => Some(Arith::Shl),
        TokenKind::RightShiftEqual => Some(Arith::Shr),
        _ => None,
    }
}
