//! The terminals of the grammar, from the tokens of a line.

ghost use Rattle.std.specs.Prelude.{◌≡◌, IfOk, All};
ghost use Rattle.std.specs.Str.Parse.{digits_value};
ghost use Rattle.lg_lex.specs.Lexical.{IsNumber};
ghost use Rattle.lg_lex.specs.Line.{Stands};
ghost use Rattle.lg_parse.specs.Keywords.{keyword_of};
ghost use Rattle.lg_parse.specs.Lexed.{word_from, terminal_at, terminals_of};
ghost use Rattle.lg_parse.specs.Reading.{terminal_of, terminals_view};

use crate::keywords::reserved_word;
use crate::words::{Function, Keyword, Word};
use lg_elem::DType;
use lg_lex::{Token, TokenKind, number_of};
use std::alloc::{AllocError, Global};

/// What a token is to the grammar.
#[derive(Clone, Copy, Debug)]
pub enum Terminal<'a> {
    /// A word that is not reserved.
    Name(&'a [u8]),
    /// A number.
    Number(u64),
    /// A reserved word that stands for itself.
    Itself(Word),
    /// The reserved word that names an element type.
    Element(DType),
    /// The reserved word of a function.
    Call(Function),
    /// An operator or a delimiter.
    Sign(TokenKind),
}

/// The terminals that the tokens of a line are.
pub fn as_terminals<'a>(
    alloc: Global,
    line: &'a [u8],
    tokens: &[Token],
) -> Result<Vec<Terminal<'a>>, AllocError>
    requires { All (Stands line.now) tokens.now }
    ensures { IfOk result (λ found. terminals_view found.items
        ≡ terminals_of line.now tokens.now) }
{
    let mut found = Vec::new(alloc);
    for token in tokens {
        found.push(as_terminal(line, *token))?;
    }
    Ok(found)
}

/// The terminal that a token of the line is.
fn as_terminal<'a>(line: &'a [u8], token: Token) -> Terminal<'a>
    requires { Stands line.now token }
    ensures { terminal_of result ≡ terminal_at line.now token }
{
    let text = &line[token.start as usize..token.end as usize];
    match token.kind {
        TokenKind::Word => word(text),
        TokenKind::Number => Terminal::Number(number(text)),
        kind => Terminal::Sign(kind),
    }
}

/// A word, which may be reserved.
fn word<'a>(text: &'a [u8]) -> Terminal<'a>
    ensures { terminal_of result ≡ word_from (keyword_of text.now) text.now }
{
    match reserved_word(text) {
        Some(Keyword::Itself(word)) => Terminal::Itself(word),
        Some(Keyword::Element(dtype)) => Terminal::Element(dtype),
        Some(Keyword::Call(function)) => Terminal::Call(function),
        None => Terminal::Name(text),
    }
}

/// The number that the digits write.
fn number(text: &[u8]) -> u64
    requires { IsNumber text.now }
    ensures { result ≡ digits_value 10 text.now }
{
    match number_of(text) {
        Some(value) => value,
        None => unreachable!(),
    }
}
