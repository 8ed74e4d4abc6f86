//! From the bytes of a line to its tokens.

ghost use Rattle.std.specs.Prelude.{◌≡◌, ◌<◌, ◌≤◌, ◌^◌, List, length, drop, IfOk, IfErr, IfSome, IfNone, All};
ghost use Rattle.std.specs.List.{prefix_len};
ghost use Rattle.lg_lex.specs.Bytes.{is_word_byte};
ghost use Rattle.lg_lex.specs.Lexical.{Begins, BeginsNone};
ghost use Rattle.lg_lex.specs.Line.{Stands, Reads, EndsLexing, HasNone};
ghost use Rattle.lg_lex.specs.declared.tokens.Token.{Token};

use crate::bytes::{begins_comment, is_blank, is_letter, is_word_byte};
use crate::numbers::number_of;
use crate::operators::{one_in_front, three_in_front, two_in_front};
use crate::tokens::{LexEnd, Token, TokenKind};
use std::alloc::Global;

/// The tokens of a line, each the bytes of the line from its start to its end. Spaces and tabs
/// stand before, between and after them, and a `#` behind them begins a comment, which goes to the
/// end of the line and may have any bytes.
///
/// # Errors
///
/// `Fault` with the first place where a byte stands that is no blank and begins no comment and no
/// token, and `NoMemory` where there is no memory for the tokens.
pub fn lex_line(alloc: Global, line: &[u8]) -> Result<Vec<Token>, LexEnd>
    requires { length line.now < 2 ^ 32 }
    ensures tokens { IfOk result (λ tokens. Reads line.now tokens.items) }
    ensures only { IfOk result (λ tokens. (other : List Token) → Reads line.now other
        → other ≡ tokens.items) }
    ensures inside { IfOk result (λ tokens. All (Stands line.now) tokens.items) }
    ensures fault { IfErr result (EndsLexing line.now) }
    ensures none { IfErr result (HasNone line.now) }
{
    let mut tokens = Vec::new(alloc);
    let mut place = 0;
    while place < line.len() && !begins_comment(line[place]) {
        if is_blank(line[place]) {
            place += 1;
            continue;
        }
        let Some(token) = next_token(line, place) else {
            return Err(LexEnd::Fault {
                place: place as u32,
            });
        };
        if tokens.push(token).is_err() {
            return Err(LexEnd::NoMemory);
        }
        place = token.end as usize;
    }
    Ok(tokens)
}

/// The token that begins at this place.
fn next_token(line: &[u8], place: usize) -> Option<Token>
    requires inside { place < length line.now }
    requires short { length line.now < 2 ^ 32 }
    ensures found { IfSome result (Stands line.now) }
    ensures here { IfSome result (λ token. token.start ≡ place) }
    ensures none { IfNone result (BeginsNone (drop place line.now)) }
{
    let (kind, count) = first_token(&line[place..])?;
    Some(Token {
        kind,
        start: place as u32,
        end: (place + count) as u32,
    })
}

/// The token in front, and how many bytes it has.
fn first_token(rest: &[u8]) -> Option<(TokenKind, usize)>
    ensures found { IfSome result (λ p. Begins rest.now p.0 p.1) }
    ensures some { IfSome result (λ p. 0 < p.1) }
    ensures none { IfNone result (BeginsNone rest.now) }
{
    let run = run_length(rest);
    if run == 0 {
        return operator(rest);
    }
    if is_letter(rest[0]) {
        return Some((TokenKind::Word, run));
    }
    number_of(&rest[..run])?;
    Some((TokenKind::Number, run))
}

/// How many letters, digits and `_` stand in front.
fn run_length(rest: &[u8]) -> usize
    ensures run { result ≡ prefix_len is_word_byte rest.now }
    ensures within { result ≤ length rest.now }
{
    rest.iter().take_while(|b| is_word_byte(**b)).count()
}

/// The longest operator in front, and how many bytes it has.
fn operator(rest: &[u8]) -> Option<(TokenKind, usize)>
    requires { prefix_len is_word_byte rest.now ≡ 0 }
    ensures found { IfSome result (λ p. Begins rest.now p.0 p.1) }
    ensures some { IfSome result (λ p. 0 < p.1) }
    ensures none { IfNone result (BeginsNone rest.now) }
{
    if let Some(kind) = three_in_front(rest) {
        return Some((kind, 3));
    }
    if let Some(kind) = two_in_front(rest) {
        return Some((kind, 2));
    }
    Some((one_in_front(rest)?, 1))
}
