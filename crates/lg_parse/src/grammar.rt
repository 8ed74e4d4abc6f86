//! The rules of expressions take the parser of what stands inside them as a parameter, so that each
//! is proved by itself.

ghost use Rattle.std.specs.Prelude.{◌≡◌};
ghost use Rattle.lg_parse.specs.Nests.{Nests};
ghost use Rattle.lg_parse.specs.Parsing as spec;
ghost use Rattle.lg_parse.specs.Parts.{parsed_tree};
ghost use Rattle.lg_parse.specs.Reading.{ahead, Reads};

use crate::cursor::Cursor;
use crate::ends::ParseEnd;
use crate::parsed::Parsed;
use crate::rules::Rule;
use std::alloc::Global;

#[derive(Clone, Copy)]
pub struct Grammar<F> {
    pub alloc: Global,
    /// How many rules may still stand inside one another.
    pub depth: usize,
    pub parse: F,
}

impl<F: Fn(Global, &mut Cursor<'_>, usize, Rule) -> Result<Parsed, ParseEnd>> Grammar<F> {
    /// An expression that stands inside.
    pub fn inner(&self, tokens: &mut Cursor<'_>) -> Result<Parsed, ParseEnd>
        requires { Nests self.now.depth (F.pre self.now.parse) (F.post self.now.parse) }
        ensures { Reads parsed_tree (spec.parse self.now.depth Rule.Expression (ahead tokens.old))
            result (ahead tokens.new) }
    {
        (self.parse)(self.alloc, tokens, self.depth, Rule::Expression)
    }

    /// An operand with its signs that stands behind a sign or `**`.
    pub fn operand(&self, tokens: &mut Cursor<'_>) -> Result<Parsed, ParseEnd>
        requires { Nests self.now.depth (F.pre self.now.parse) (F.post self.now.parse) }
        ensures { Reads parsed_tree (spec.parse self.now.depth Rule.Unary (ahead tokens.old))
            result (ahead tokens.new) }
    {
        (self.parse)(self.alloc, tokens, self.depth, Rule::Unary)
    }
}

/// What the rule finds in front.
pub fn parse(
    alloc: Global,
    tokens: &mut Cursor<'_>,
    depth: usize,
    rule: Rule,
) -> Result<Parsed, ParseEnd>
    ensures { Reads parsed_tree (spec.parse depth rule (ahead tokens.old)) result
        (ahead tokens.new) }
{
    if depth == 0 {
        return Err(ParseEnd::Syntax);
    }
    let grammar = Grammar {
        alloc,
        depth: depth - 1,
        parse,
    };
    match rule {
        Rule::Expression => grammar.expression(tokens),
        Rule::Unary => grammar.unary(tokens),
    }
}
