//! What stands behind an operand: an index or a method.

ghost use Rattle.std.specs.Prelude.{◌≡◌};
ghost use Rattle.lg_parse.specs.Nests.{Nests};
ghost use Rattle.lg_parse.specs.Parsing as spec;
ghost use Rattle.lg_parse.specs.Parts.{parsed_tree, parsed_part, parsed_shape, parsed_list, parsed_item, parsed_index};
ghost use Rattle.lg_parse.specs.Reading.{ahead, Reads};

use crate::built::{
    cast_of, copy_of, flatten_of, index_of, reduce_of, reshape_of, reversed_of, transpose_of,
};
use crate::cursor::Cursor;
use crate::ends::ParseEnd;
use crate::grammar::Grammar;
use crate::methods::{Method, method_of};
use crate::parsed::Parsed;
use crate::rules::Rule;
use crate::terminals::Terminal;
use crate::types::{element_type, empty};
use crate::words::Function;
use lg_lex::TokenKind;
use lg_tree::Red;
use std::alloc::Global;

impl<F: Fn(Global, &mut Cursor<'_>, usize, Rule) -> Result<Parsed, ParseEnd>> Grammar<F> {
    /// Behind `.astype`.
    #[tactic(auto, unfolding(crate::specs::Parsing::casting))]
    fn casting(&self, tokens: &mut Cursor<'_>, a: Parsed) -> Result<Parsed, ParseEnd>
        requires { Nests self.now.depth (F.pre self.now.parse) (F.post self.now.parse) }
        ensures { Reads parsed_tree (spec.casting (spec.parse self.now.depth) self.now.depth (parsed_tree a) (ahead tokens.old)) result (ahead tokens.new) }
    {
        tokens.expect(TokenKind::LeftParenthesis)?;
        let dtype = element_type(tokens)?;
        tokens.expect(TokenKind::RightParenthesis)?;
        Ok(cast_of(self.alloc, a, dtype)?)
    }

    /// Behind `.reshape`.
    #[tactic(auto, unfolding(crate::specs::Parsing::reshaping))]
    fn reshaping(&self, tokens: &mut Cursor<'_>, a: Parsed) -> Result<Parsed, ParseEnd>
        requires { Nests self.now.depth (F.pre self.now.parse) (F.post self.now.parse) }
        ensures { Reads parsed_tree (spec.reshaping (spec.parse self.now.depth) self.now.depth (parsed_tree a) (ahead tokens.old)) result (ahead tokens.new) }
    {
        tokens.expect(TokenKind::LeftParenthesis)?;
        let shape = self.several(tokens)?;
        tokens.expect(TokenKind::RightParenthesis)?;
        Ok(reshape_of(self.alloc, a, shape)?)
    }

    /// Behind `.transpose`.
    #[tactic(auto, unfolding(crate::specs::Parsing::transposing))]
    fn transposing(&self, tokens: &mut Cursor<'_>, a: Parsed) -> Result<Parsed, ParseEnd>
        requires { Nests self.now.depth (F.pre self.now.parse) (F.post self.now.parse) }
        ensures { Reads parsed_tree (spec.transposing (spec.parse self.now.depth) self.now.depth (parsed_tree a) (ahead tokens.old)) result (ahead tokens.new) }
    {
        tokens.expect(TokenKind::LeftParenthesis)?;
        if tokens.eat(TokenKind::RightParenthesis) {
            return Ok(reversed_of(self.alloc, a)?);
        }
        let axes = self.several(tokens)?;
        tokens.expect(TokenKind::RightParenthesis)?;
        Ok(transpose_of(self.alloc, a, axes)?)
    }

    /// Behind `.sum`, and so for each reduction.
    #[tactic(auto, unfolding(crate::specs::Parsing::reducing))]
    fn reducing(&self, tokens: &mut Cursor<'_>, red: Red, a: Parsed) -> Result<Parsed, ParseEnd>
        requires { Nests self.now.depth (F.pre self.now.parse) (F.post self.now.parse) }
        ensures { Reads parsed_tree (spec.reducing (spec.parse self.now.depth) self.now.depth red (parsed_tree a) (ahead tokens.old)) result (ahead tokens.new) }
    {
        tokens.expect(TokenKind::LeftParenthesis)?;
        if tokens.eat(TokenKind::RightParenthesis) {
            return Ok(reduce_of(self.alloc, red, a, None)?);
        }
        let axis = self.along(tokens)?;
        tokens.expect(TokenKind::RightParenthesis)?;
        Ok(reduce_of(self.alloc, red, a, Some(axis))?)
    }

    /// Behind the word of a method that is no reserved word.
    fn named_method(
        &self,
        tokens: &mut Cursor<'_>,
        a: Parsed,
        method: Option<Method>,
    ) -> Result<Parsed, ParseEnd>
        requires { Nests self.now.depth (F.pre self.now.parse) (F.post self.now.parse) }
        ensures { Reads parsed_tree (spec.named_method (spec.parse self.now.depth) self.now.depth (parsed_tree a) method (ahead tokens.old)) result (ahead tokens.new) }
    {
        match method {
            None => Err(ParseEnd::Syntax),
            Some(Method::Turned) => Ok(reversed_of(self.alloc, a)?),
            Some(Method::Copy) => {
                empty(tokens)?;
                Ok(copy_of(self.alloc, a)?)
            }
            Some(Method::Flatten) => {
                empty(tokens)?;
                Ok(flatten_of(self.alloc, a)?)
            }
            Some(Method::AsType) => Ok(self.casting(tokens, a)?),
            Some(Method::Reshape) => Ok(self.reshaping(tokens, a)?),
        }
    }

    /// Behind the word of a method that is a function too.
    fn method_function(
        &self,
        tokens: &mut Cursor<'_>,
        a: Parsed,
        function: Function,
    ) -> Result<Parsed, ParseEnd>
        requires { Nests self.now.depth (F.pre self.now.parse) (F.post self.now.parse) }
        ensures { Reads parsed_tree (spec.method_function (spec.parse self.now.depth) self.now.depth (parsed_tree a) function (ahead tokens.old)) result (ahead tokens.new) }
    {
        match function {
            Function::Transpose => Ok(self.transposing(tokens, a)?),
            Function::Reduce(red) => Ok(self.reducing(tokens, red, a)?),
            _ => Err(ParseEnd::Syntax),
        }
    }

    /// Behind the dot.
    #[tactic(auto, unfolding(crate::specs::Parsing::method))]
    pub fn method(&self, tokens: &mut Cursor<'_>, a: Parsed) -> Result<Parsed, ParseEnd>
        requires { Nests self.now.depth (F.pre self.now.parse) (F.post self.now.parse) }
        ensures { Reads parsed_tree (spec.method (spec.parse self.now.depth) self.now.depth (parsed_tree a) (ahead tokens.old)) result (ahead tokens.new) }
    {
        let Some(front) = tokens.front() else {
            return Err(ParseEnd::Syntax);
        };
        tokens.advance();
        match front {
            Terminal::Name(name) => Ok(self.named_method(tokens, a, method_of(name))?),
            Terminal::Call(function) => Ok(self.method_function(tokens, a, function)?),
            _ => Err(ParseEnd::Syntax),
        }
    }

    /// Behind the bracket of an index.
    #[tactic(auto, unfolding(crate::specs::Parsing::indexing))]
    pub fn indexing(&self, tokens: &mut Cursor<'_>, a: Parsed) -> Result<Parsed, ParseEnd>
        requires { Nests self.now.depth (F.pre self.now.parse) (F.post self.now.parse) }
        ensures { Reads parsed_tree (spec.indexing (spec.parse self.now.depth) self.now.depth (parsed_tree a) (ahead tokens.old)) result (ahead tokens.new) }
    {
        let items = self.items(tokens)?;
        Ok(index_of(self.alloc, a, items)?)
    }
}
