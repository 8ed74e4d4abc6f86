//! The type of a call's elements, and names.

ghost use Rattle.std.specs.Prelude.{◌≡◌};
ghost use Rattle.lg_parse.specs.Parsing as spec;
ghost use Rattle.lg_parse.specs.Reading.{ahead, Reads, same};

use crate::cursor::Cursor;
use crate::ends::ParseEnd;
use crate::words::Word;
use lg_elem::DType;
use lg_lex::TokenKind;

#[tactic(auto, unfolding(crate::specs::Parsing::element_type))]
pub fn element_type(tokens: &mut Cursor<'_>) -> Result<DType, ParseEnd>
    ensures { Reads same (spec.element_type (ahead tokens.old)) result (ahead tokens.new) }
{
    let Some(dtype) = tokens.element_type() else {
        return Err(ParseEnd::Syntax);
    };
    tokens.advance();
    Ok(dtype)
}

/// A name in front.
#[tactic(auto, unfolding(crate::specs::Parsing::a_word))]
pub fn a_word<'a>(tokens: &mut Cursor<'a>) -> Result<&'a [u8], ParseEnd>
    ensures { Reads (λ w. w.now) (spec.a_word (ahead tokens.old)) result (ahead tokens.new) }
{
    let Some(name) = tokens.name() else {
        return Err(ParseEnd::Syntax);
    };
    tokens.advance();
    Ok(name)
}

/// Behind the comma.
#[tactic(auto, unfolding(crate::specs::Parsing::named_type))]
fn named_type(tokens: &mut Cursor<'_>) -> Result<DType, ParseEnd>
    ensures { Reads same (spec.named_type (ahead tokens.old)) result (ahead tokens.new) }
{
    if tokens.eat_word(Word::Dtype) {
        tokens.expect(TokenKind::Equal)?;
    }
    Ok(element_type(tokens)?)
}

/// The type that may stand behind the arguments of a call.
#[tactic(auto, unfolding(crate::specs::Parsing::dtype))]
fn dtype(tokens: &mut Cursor<'_>) -> Result<Option<DType>, ParseEnd>
    ensures { Reads same (spec.dtype (ahead tokens.old)) result (ahead tokens.new) }
{
    if !tokens.begins_type() {
        return Ok(None);
    }
    tokens.advance();
    Ok(Some(named_type(tokens)?))
}

/// The end of a call that may have a type.
#[tactic(auto, unfolding(crate::specs::Parsing::ending))]
pub fn ending(tokens: &mut Cursor<'_>) -> Result<Option<DType>, ParseEnd>
    ensures { Reads same (spec.ending (ahead tokens.old)) result (ahead tokens.new) }
{
    let dtype = dtype(tokens)?;
    tokens.expect(TokenKind::RightParenthesis)?;
    Ok(dtype)
}

/// The empty parentheses of a method.
#[tactic(auto, unfolding(crate::specs::Parsing::empty))]
pub fn empty(tokens: &mut Cursor<'_>) -> Result<(), ParseEnd>
    ensures { Reads same (spec.empty (ahead tokens.old)) result (ahead tokens.new) }
{
    tokens.expect(TokenKind::LeftParenthesis)?;
    Ok(tokens.expect(TokenKind::RightParenthesis)?)
}
