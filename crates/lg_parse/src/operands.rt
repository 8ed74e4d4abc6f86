//! Operands, their signs and powers, and the levels of operators between them.

ghost use Rattle.std.specs.Prelude.{◌≡◌, Some};
ghost use Rattle.lg_parse.specs.Nests.{Nests};
ghost use Rattle.lg_parse.specs.Parsing as spec;
ghost use Rattle.lg_parse.specs.Parts.{parsed_tree, parsed_part, parsed_shape, parsed_list, parsed_item, parsed_index};
ghost use Rattle.lg_parse.specs.Reading.{ahead, Reads, Gives};
ghost use Rattle.lg_tree.specs.Tree.{name as name_tree};

use crate::cursor::{Cursor, same_kind};
use crate::ends::ParseEnd;
use crate::grammar::Grammar;
use crate::joints::{arithmetic, compared, inverted, joined, negative};
use crate::nodes::leaf;
use crate::parsed::Parsed;
use crate::rules::Rule;
use crate::terminals::Terminal;
use crate::words::Word;
use lg_lex::TokenKind;
use lg_tree::{Arith, Expr};
use sqlite_items::Items;
use std::alloc::Global;

/// The highest level of operators.
const WIDEST: u8 = 6;

/// A name.
fn named(alloc: Global, name: &[u8]) -> Result<Parsed, ParseEnd>
    ensures { Gives parsed_tree (Some (name_tree name.now)) result }
{
    let name = Items::from_slice(alloc, name)?;
    Ok(leaf(alloc, Expr::Name(name))?)
}

impl<F: Fn(Global, &mut Cursor<'_>, usize, Rule) -> Result<Parsed, ParseEnd>> Grammar<F> {
    /// Behind `(`.
    #[tactic(auto, unfolding(crate::specs::Parsing::enclosed))]
    fn enclosed(&self, tokens: &mut Cursor<'_>) -> Result<Parsed, ParseEnd>
        requires { Nests self.now.depth (F.pre self.now.parse) (F.post self.now.parse) }
        ensures { Reads parsed_tree (spec.enclosed (spec.parse self.now.depth) self.now.depth (ahead tokens.old)) result (ahead tokens.new) }
    {
        let tree = self.inner(tokens)?;
        tokens.expect(TokenKind::RightParenthesis)?;
        Ok(tree)
    }

    /// An operand without signs.
    #[tactic(auto, unfolding(crate::specs::Parsing::atom))]
    fn atom(&self, tokens: &mut Cursor<'_>) -> Result<Parsed, ParseEnd>
        requires { Nests self.now.depth (F.pre self.now.parse) (F.post self.now.parse) }
        ensures { Reads parsed_tree (spec.atom (spec.parse self.now.depth) self.now.depth (ahead tokens.old)) result (ahead tokens.new) }
    {
        let Some(front) = tokens.front() else {
            return Err(ParseEnd::Syntax);
        };
        tokens.advance();
        match front {
            Terminal::Number(value) => Ok(leaf(self.alloc, Expr::Number(value))?),
            Terminal::Name(name) => Ok(named(self.alloc, name)?),
            Terminal::Itself(Word::True) => Ok(leaf(self.alloc, Expr::Truth(true))?),
            Terminal::Itself(Word::False) => Ok(leaf(self.alloc, Expr::Truth(false))?),
            Terminal::Itself(_) => Err(ParseEnd::Syntax),
            Terminal::Call(function) => Ok(self.called(tokens, function)?),
            Terminal::Element(_) => Err(ParseEnd::Syntax),
            Terminal::Sign(kind) => {
                if same_kind(kind, TokenKind::LeftParenthesis) {
                    Ok(self.enclosed(tokens)?)
                } else {
                    Err(ParseEnd::Syntax)
                }
            }
        }
    }

    /// What stands behind an operand, for so many turns.
    fn suffixes(
        &self,
        tokens: &mut Cursor<'_>,
        turns: usize,
        base: Parsed,
    ) -> Result<Parsed, ParseEnd>
        requires { Nests self.now.depth (F.pre self.now.parse) (F.post self.now.parse) }
        ensures { Reads parsed_tree (spec.suffixes (spec.parse self.now.depth) self.now.depth turns (parsed_tree base) (ahead tokens.old)) result (ahead tokens.new) }
    {
        let mut left = base;
        for _turn in 0..turns {
            if tokens.eat(TokenKind::LeftBracket) {
                left = self.indexing(tokens, left)?;
            } else if tokens.eat(TokenKind::Dot) {
                left = self.method(tokens, left)?;
            } else {
                return Ok(left);
            }
        }
        Err(ParseEnd::Syntax)
    }

    /// An operand with what stands behind it.
    #[tactic(auto, unfolding(crate::specs::Parsing::postfix))]
    fn postfix(&self, tokens: &mut Cursor<'_>) -> Result<Parsed, ParseEnd>
        requires { Nests self.now.depth (F.pre self.now.parse) (F.post self.now.parse) }
        ensures { Reads parsed_tree (spec.postfix (spec.parse self.now.depth) self.now.depth (ahead tokens.old)) result (ahead tokens.new) }
    {
        let turns = tokens.left();
        let base = self.atom(tokens)?;
        Ok(self.suffixes(tokens, turns, base)?)
    }

    /// An operand, or one to the power of another.
    #[tactic(auto, unfolding(crate::specs::Parsing::power))]
    fn power(&self, tokens: &mut Cursor<'_>) -> Result<Parsed, ParseEnd>
        requires { Nests self.now.depth (F.pre self.now.parse) (F.post self.now.parse) }
        ensures { Reads parsed_tree (spec.power (spec.parse self.now.depth) self.now.depth (ahead tokens.old)) result (ahead tokens.new) }
    {
        let base = self.postfix(tokens)?;
        if !tokens.eat(TokenKind::DoubleStar) {
            return Ok(base);
        }
        let exponent = self.operand(tokens)?;
        Ok(arithmetic(self.alloc, Arith::Pow, base, exponent)?)
    }

    /// An operand with its signs.
    #[tactic(auto, unfolding(crate::specs::Parsing::unary))]
    pub fn unary(&self, tokens: &mut Cursor<'_>) -> Result<Parsed, ParseEnd>
        requires { Nests self.now.depth (F.pre self.now.parse) (F.post self.now.parse) }
        ensures { Reads parsed_tree (spec.unary (spec.parse self.now.depth) self.now.depth (ahead tokens.old)) result (ahead tokens.new) }
    {
        if tokens.eat(TokenKind::Minus) {
            let a = self.operand(tokens)?;
            return Ok(negative(self.alloc, a)?);
        }
        if tokens.eat(TokenKind::Tilde) {
            let a = self.operand(tokens)?;
            return Ok(inverted(self.alloc, a)?);
        }
        Ok(self.power(tokens)?)
    }

    /// Operands with operators of this level or a lower one between them.
    fn level(&self, tokens: &mut Cursor<'_>, level: u8) -> Result<Parsed, ParseEnd>
        requires { Nests self.now.depth (F.pre self.now.parse) (F.post self.now.parse) }
        ensures { Reads parsed_tree (spec.level (spec.parse self.now.depth) self.now.depth level (ahead tokens.old)) result (ahead tokens.new) }
    {
        if level == 0 {
            return Ok(self.unary(tokens)?);
        }
        let turns = tokens.left();
        let mut left = self.level(tokens, level - 1)?;
        for _turn in 0..turns {
            let Some(op) = tokens.operator(level) else {
                return Ok(left);
            };
            tokens.advance();
            let right = self.level(tokens, level - 1)?;
            left = joined(self.alloc, op, left, right)?;
        }
        Err(ParseEnd::Syntax)
    }

    /// A whole expression: one comparison at most.
    #[tactic(auto, unfolding(crate::specs::Parsing::expression))]
    pub fn expression(&self, tokens: &mut Cursor<'_>) -> Result<Parsed, ParseEnd>
        requires { Nests self.now.depth (F.pre self.now.parse) (F.post self.now.parse) }
        ensures { Reads parsed_tree (spec.expression (spec.parse self.now.depth) self.now.depth (ahead tokens.old)) result (ahead tokens.new) }
    {
        let left = self.level(tokens, WIDEST)?;
        let Some(op) = tokens.comparison() else {
            return Ok(left);
        };
        tokens.advance();
        let right = self.level(tokens, WIDEST)?;
        Ok(compared(self.alloc, op, left, right)?)
    }
}
