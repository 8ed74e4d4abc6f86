//! A cursor over the terminals of a line.

ghost use Rattle.std.specs.Prelude.{◌≡◌, ◌∷◌, length, map, IfSome, IfNone, [], Some, None};
ghost use Rattle.lg_parse.specs.Parsing as spec;
ghost use Rattle.lg_parse.specs.ParsingHeads.{assigning_ahead};
ghost use Rattle.lg_parse.specs.Reading.{ahead, terminal_of, terminals_view, Reads, same};

use crate::ends::ParseEnd;
use crate::operators::{Operator, assigning, comparison, of_level, operation};
use crate::terminals::Terminal;
use crate::words::Word;
use lg_elem::{Compare, DType};
use lg_lex::TokenKind;
use lg_tree::Arith;
use sqlite_items::at;

/// The terminals that are not read yet.
#[derive(Drop)]
pub struct Cursor<'a> {
    pub rest: &'a [Terminal<'a>],
}

impl<'a> Cursor<'a> {
    #[tactic(auto, unfolding(crate::specs::Reading::ahead))]
    pub fn new(terminals: &'a [Terminal<'a>]) -> Cursor<'a>
        ensures { ahead result ≡ terminals_view terminals.now }
    {
        Cursor { rest: terminals }
    }

    /// How many terminals are left.
    #[tactic(auto, unfolding(crate::specs::Reading::ahead))]
    pub fn left(&self) -> usize
        ensures { result ≡ length (ahead self.now) }
    {
        self.rest.len()
    }

    /// The terminal in front.
    pub fn front(&self) -> Option<Terminal<'a>>
        ensures found { IfSome result (λ t.
            ahead self.now ≡ terminal_of t ∷ spec.behind (ahead self.now)) }
        ensures none { IfNone result (ahead self.now ≡ []) }
    {
        at(self.rest, 0).copied()
    }

    /// The terminal behind the one in front.
    pub fn second(&self) -> Option<Terminal<'a>>
        ensures found { IfSome result (λ t. spec.behind (ahead self.now)
            ≡ terminal_of t ∷ spec.behind (spec.behind (ahead self.now))) }
        ensures none { IfNone result (spec.behind (ahead self.now) ≡ []) }
    {
        at(self.rest, 1).copied()
    }

    /// Takes the terminal in front.
    pub fn advance(&mut self)
        ensures { ahead self.new ≡ spec.behind (ahead self.old) }
    {
        if !self.rest.is_empty() {
            self.rest = &self.rest[1..];
        }
    }

    /// Whether this sign stands in front.
    pub fn sees(&self, kind: TokenKind) -> bool
        ensures { result ≡ spec.sees kind (ahead self.now) }
    {
        match self.front() {
            Some(Terminal::Sign(found)) => same_kind(found, kind),
            _ => false,
        }
    }

    /// Whether this sign stands behind the terminal in front.
    pub fn sees_second(&self, kind: TokenKind) -> bool
        ensures { result ≡ spec.sees kind (spec.behind (ahead self.now)) }
    {
        match self.second() {
            Some(Terminal::Sign(found)) => same_kind(found, kind),
            _ => false,
        }
    }

    /// Whether this word stands in front.
    pub fn sees_word(&self, word: Word) -> bool
        ensures { result ≡ spec.sees_word word (ahead self.now) }
    {
        match self.front() {
            Some(Terminal::Itself(found)) => same_word(found, word),
            _ => false,
        }
    }

    /// The operation of the operator in front, if it is of this level.
    pub fn operator(&self, level: u8) -> Option<Operator>
        ensures { result ≡ spec.operator_ahead level (ahead self.now) }
    {
        match self.front() {
            Some(Terminal::Sign(kind)) => of_level(level, operation(kind)),
            _ => None,
        }
    }

    /// The comparison in front.
    pub fn comparison(&self) -> Option<Compare>
        ensures { result ≡ spec.comparison_ahead (ahead self.now) }
    {
        match self.front() {
            Some(Terminal::Sign(kind)) => comparison(kind),
            _ => None,
        }
    }

    /// The operation of the assigning operator in front.
    pub fn assigning(&self) -> Option<Arith>
        ensures { result ≡ assigning_ahead (ahead self.now) }
    {
        match self.front() {
            Some(Terminal::Sign(kind)) => assigning(kind),
            _ => None,
        }
    }

    /// Whether a comma and a type stand in front.
    pub fn begins_type(&self) -> bool
        ensures { result ≡ spec.begins_type (ahead self.now) }
    {
        self.sees(TokenKind::Comma) && self.has_type_second()
    }

    fn has_type_second(&self) -> bool
        ensures { result ≡ spec.sees_type (spec.behind (ahead self.now)) }
    {
        match self.second() {
            Some(Terminal::Element(_)) => true,
            Some(Terminal::Itself(word)) => same_word(word, Word::Dtype),
            _ => false,
        }
    }

    /// The element type in front.
    pub fn element_type(&self) -> Option<DType>
        ensures { result ≡ spec.type_ahead (ahead self.now) }
    {
        match self.front() {
            Some(Terminal::Element(dtype)) => Some(dtype),
            _ => None,
        }
    }

    /// The name in front.
    pub fn name(&self) -> Option<&'a [u8]>
        ensures found { IfSome result (λ w. spec.name_ahead (ahead self.now) ≡ Some w.now) }
        ensures none { IfNone result (spec.name_ahead (ahead self.now) ≡ None) }
    {
        match self.front() {
            Some(Terminal::Name(name)) => Some(name),
            _ => None,
        }
    }

    /// Whether a tuple stands in front.
    pub fn sees_tuple(&self) -> bool
        ensures { result ≡ spec.sees_tuple (ahead self.now) }
    {
        self.sees(TokenKind::LeftParenthesis)
            && (self.sees_second(TokenKind::RightParenthesis) || self.has_comma())
    }

    /// Whether a comma stands behind the terminal in front, before a bracket that is closed but not
    /// opened there, and outside of the brackets that are.
    fn has_comma(&self) -> bool
        ensures { result ≡ spec.has_comma (spec.behind (ahead self.now)) 0 }
    {
        if self.rest.is_empty() {
            return false;
        }
        has_comma(&self.rest[1..])
    }

    /// Whether a part of a slice is left out here.
    pub fn sees_end(&self) -> bool
        ensures { result ≡ spec.sees_end (ahead self.now) }
    {
        self.sees(TokenKind::Colon)
            || self.sees(TokenKind::Comma)
            || self.sees(TokenKind::RightBracket)
    }

    /// Takes this sign, if it stands in front.
    #[tactic(auto, unfolding(crate::specs::Parsing::eat))]
    pub fn eat(&mut self, kind: TokenKind) -> bool
        ensures { spec.eat kind (ahead self.old) ≡ Some (result, ahead self.new) }
    {
        let found = self.sees(kind);
        if found {
            self.advance();
        }
        found
    }

    /// Takes this sign, which has to stand in front.
    #[tactic(auto, unfolding(crate::specs::Parsing::expect))]
    pub fn expect(&mut self, kind: TokenKind) -> Result<(), ParseEnd>
        ensures { Reads same (spec.expect kind (ahead self.old)) result (ahead self.new) }
    {
        if !self.sees(kind) {
            return Err(ParseEnd::Syntax);
        }
        self.advance();
        Ok(())
    }

    /// Takes this word, if it stands in front.
    #[tactic(auto, unfolding(crate::specs::Parsing::eat_word))]
    pub fn eat_word(&mut self, word: Word) -> bool
        ensures { spec.eat_word word (ahead self.old) ≡ Some (result, ahead self.new) }
    {
        let found = self.sees_word(word);
        if found {
            self.advance();
        }
        found
    }

    /// Takes this word, which has to stand in front.
    #[tactic(auto, unfolding(crate::specs::Parsing::expect_word))]
    pub fn expect_word(&mut self, word: Word) -> Result<(), ParseEnd>
        ensures { Reads same (spec.expect_word word (ahead self.old)) result (ahead self.new) }
    {
        if !self.sees_word(word) {
            return Err(ParseEnd::Syntax);
        }
        self.advance();
        Ok(())
    }
}

/// Whether a comma stands before a bracket that is closed but not opened here, and outside of the
/// brackets that are.
fn has_comma(terminals: &[Terminal<'_>]) -> bool
    ensures { result ≡ spec.has_comma (terminals_view terminals.now) 0 }
{
    let mut depth: usize = 0;
    for terminal in terminals {
        match *terminal {
            Terminal::Sign(TokenKind::LeftParenthesis | TokenKind::LeftBracket) => {
                depth += 1;
            }
            Terminal::Sign(TokenKind::RightParenthesis | TokenKind::RightBracket) => {
                if depth == 0 {
                    return false;
                }
                depth -= 1;
            }
            Terminal::Sign(TokenKind::Comma) => {
                if depth == 0 {
                    return true;
                }
            }
            _ => {}
        }
    }
    false
}

#[tactic(auto, unfolding(crate::specs::Parsing::same_kind))]
pub fn same_kind(a: TokenKind, b: TokenKind) -> bool
    ensures { result ≡ spec.same_kind a b }
{
    a == b
}

#[tactic(auto, unfolding(crate::specs::Parsing::same_word))]
fn same_word(a: Word, b: Word) -> bool
    ensures { result ≡ spec.same_word a b }
{
    a == b
}
