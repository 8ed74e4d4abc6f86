//! Calls, from behind their word on.

ghost use Rattle.std.specs.Prelude.{◌≡◌};
ghost use Rattle.lg_parse.specs.Nests.{Nests};
ghost use Rattle.lg_parse.specs.Parsing as spec;
ghost use Rattle.lg_parse.specs.Parts.{parsed_tree, parsed_part, parsed_shape, parsed_list, parsed_item, parsed_index};
ghost use Rattle.lg_parse.specs.Reading.{ahead, Reads};
ghost use Rattle.lg_tree.specs.Tree.{zeros as zeros_tree, ones as ones_tree, minimum as minimum_tree, maximum as maximum_tree};

use crate::built::{
    abs_of, apply_of, arange_of, array_of, broadcast_of, choice_of, full_of, maximum_of,
    minimum_of, ones_of, reduce_of, reversed_of, scan_of, stencil_of, take_of, transpose_of,
    zeros_of,
};
use crate::cursor::Cursor;
use crate::ends::ParseEnd;
use crate::grammar::Grammar;
use crate::parsed::{Parsed, ParsedShape};
use crate::rules::Rule;
use crate::types::{a_word, ending};
use crate::words::{Function, Word};
use lg_lex::TokenKind;
use lg_tree::{Red, ScanCall};
use std::alloc::Global;

impl<F: Fn(Global, &mut Cursor<'_>, usize, Rule) -> Result<Parsed, ParseEnd>> Grammar<F> {
    /// The next argument.
    #[tactic(auto, unfolding(crate::specs::Parsing::next))]
    fn next(&self, tokens: &mut Cursor<'_>) -> Result<Parsed, ParseEnd>
        requires { Nests self.now.depth (F.pre self.now.parse) (F.post self.now.parse) }
        ensures { Reads parsed_tree (spec.next (spec.parse self.now.depth) self.now.depth (ahead tokens.old)) result (ahead tokens.new) }
    {
        tokens.expect(TokenKind::Comma)?;
        Ok(self.inner(tokens)?)
    }

    /// The last argument, and the parenthesis that closes the call.
    #[tactic(auto, unfolding(crate::specs::Parsing::last))]
    fn last(&self, tokens: &mut Cursor<'_>) -> Result<Parsed, ParseEnd>
        requires { Nests self.now.depth (F.pre self.now.parse) (F.post self.now.parse) }
        ensures { Reads parsed_tree (spec.last (spec.parse self.now.depth) self.now.depth (ahead tokens.old)) result (ahead tokens.new) }
    {
        let argument = self.next(tokens)?;
        tokens.expect(TokenKind::RightParenthesis)?;
        Ok(argument)
    }

    /// A shape that is the next argument.
    #[tactic(auto, unfolding(crate::specs::Parsing::next_shape))]
    fn next_shape(&self, tokens: &mut Cursor<'_>) -> Result<ParsedShape, ParseEnd>
        requires { Nests self.now.depth (F.pre self.now.parse) (F.post self.now.parse) }
        ensures { Reads parsed_shape (spec.next_shape (spec.parse self.now.depth) self.now.depth (ahead tokens.old)) result (ahead tokens.new) }
    {
        tokens.expect(TokenKind::Comma)?;
        Ok(self.shape(tokens)?)
    }

    /// The axis behind its comma, or in the parentheses of a method.
    #[tactic(auto, unfolding(crate::specs::Parsing::along))]
    pub fn along(&self, tokens: &mut Cursor<'_>) -> Result<Parsed, ParseEnd>
        requires { Nests self.now.depth (F.pre self.now.parse) (F.post self.now.parse) }
        ensures { Reads parsed_tree (spec.along (spec.parse self.now.depth) self.now.depth (ahead tokens.old)) result (ahead tokens.new) }
    {
        if tokens.eat_word(Word::Axis) {
            tokens.expect(TokenKind::Equal)?;
        }
        Ok(self.inner(tokens)?)
    }

    /// The axis that may stand behind the arguments of a call.
    #[tactic(auto, unfolding(crate::specs::Parsing::axis))]
    fn axis(&self, tokens: &mut Cursor<'_>) -> Result<Option<Parsed>, ParseEnd>
        requires { Nests self.now.depth (F.pre self.now.parse) (F.post self.now.parse) }
        ensures { Reads parsed_part (spec.axis (spec.parse self.now.depth) self.now.depth (ahead tokens.old)) result (ahead tokens.new) }
    {
        if !tokens.eat(TokenKind::Comma) {
            return Ok(None);
        }
        Ok(Some(self.along(tokens)?))
    }

    /// The end of a call that may have an axis.
    #[tactic(auto, unfolding(crate::specs::Parsing::axis_ending))]
    fn axis_ending(&self, tokens: &mut Cursor<'_>) -> Result<Option<Parsed>, ParseEnd>
        requires { Nests self.now.depth (F.pre self.now.parse) (F.post self.now.parse) }
        ensures { Reads parsed_part (spec.axis_ending (spec.parse self.now.depth) self.now.depth (ahead tokens.old)) result (ahead tokens.new) }
    {
        let axis = self.axis(tokens)?;
        tokens.expect(TokenKind::RightParenthesis)?;
        Ok(axis)
    }

    /// `full(`
    #[tactic(auto, unfolding(crate::specs::Parsing::full_call))]
    fn full(&self, tokens: &mut Cursor<'_>) -> Result<Parsed, ParseEnd>
        requires { Nests self.now.depth (F.pre self.now.parse) (F.post self.now.parse) }
        ensures { Reads parsed_tree (spec.full_call (spec.parse self.now.depth) self.now.depth (ahead tokens.old)) result (ahead tokens.new) }
    {
        let shape = self.shape(tokens)?;
        let value = self.next(tokens)?;
        let dtype = ending(tokens)?;
        Ok(full_of(self.alloc, shape, value, dtype)?)
    }

    /// `zeros(`
    #[tactic(auto, unfolding(crate::specs::Parsing::even_call))]
    fn zeros(&self, tokens: &mut Cursor<'_>) -> Result<Parsed, ParseEnd>
        requires { Nests self.now.depth (F.pre self.now.parse) (F.post self.now.parse) }
        ensures { Reads parsed_tree (spec.even_call (spec.parse self.now.depth) self.now.depth zeros_tree (ahead tokens.old)) result (ahead tokens.new) }
    {
        let shape = self.shape(tokens)?;
        let dtype = ending(tokens)?;
        Ok(zeros_of(self.alloc, shape, dtype)?)
    }

    /// `ones(`
    #[tactic(auto, unfolding(crate::specs::Parsing::even_call))]
    fn ones(&self, tokens: &mut Cursor<'_>) -> Result<Parsed, ParseEnd>
        requires { Nests self.now.depth (F.pre self.now.parse) (F.post self.now.parse) }
        ensures { Reads parsed_tree (spec.even_call (spec.parse self.now.depth) self.now.depth ones_tree (ahead tokens.old)) result (ahead tokens.new) }
    {
        let shape = self.shape(tokens)?;
        let dtype = ending(tokens)?;
        Ok(ones_of(self.alloc, shape, dtype)?)
    }

    /// The second argument of `arange(`, if there is one.
    #[tactic(auto, unfolding(crate::specs::Parsing::second))]
    fn second(&self, tokens: &mut Cursor<'_>) -> Result<Option<Parsed>, ParseEnd>
        requires { Nests self.now.depth (F.pre self.now.parse) (F.post self.now.parse) }
        ensures { Reads parsed_part (spec.second (spec.parse self.now.depth) self.now.depth (ahead tokens.old)) result (ahead tokens.new) }
    {
        if tokens.begins_type() {
            return Ok(None);
        }
        if !tokens.eat(TokenKind::Comma) {
            return Ok(None);
        }
        Ok(Some(self.inner(tokens)?))
    }

    /// `arange(`
    #[tactic(auto, unfolding(crate::specs::Parsing::arange_call))]
    fn arange(&self, tokens: &mut Cursor<'_>) -> Result<Parsed, ParseEnd>
        requires { Nests self.now.depth (F.pre self.now.parse) (F.post self.now.parse) }
        ensures { Reads parsed_tree (spec.arange_call (spec.parse self.now.depth) self.now.depth (ahead tokens.old)) result (ahead tokens.new) }
    {
        let first = self.inner(tokens)?;
        let second = self.second(tokens)?;
        let dtype = ending(tokens)?;
        Ok(arange_of(self.alloc, first, second, dtype)?)
    }

    /// `array(`
    #[tactic(auto, unfolding(crate::specs::Parsing::array_call))]
    fn array(&self, tokens: &mut Cursor<'_>) -> Result<Parsed, ParseEnd>
        requires { Nests self.now.depth (F.pre self.now.parse) (F.post self.now.parse) }
        ensures { Reads parsed_tree (spec.array_call (spec.parse self.now.depth) self.now.depth (ahead tokens.old)) result (ahead tokens.new) }
    {
        let list = self.bracketed(tokens, self.depth)?;
        let dtype = ending(tokens)?;
        Ok(array_of(self.alloc, list, dtype)?)
    }

    /// `abs(`
    #[tactic(auto, unfolding(crate::specs::Parsing::abs_call))]
    fn abs(&self, tokens: &mut Cursor<'_>) -> Result<Parsed, ParseEnd>
        requires { Nests self.now.depth (F.pre self.now.parse) (F.post self.now.parse) }
        ensures { Reads parsed_tree (spec.abs_call (spec.parse self.now.depth) self.now.depth (ahead tokens.old)) result (ahead tokens.new) }
    {
        let a = self.inner(tokens)?;
        tokens.expect(TokenKind::RightParenthesis)?;
        Ok(abs_of(self.alloc, a)?)
    }

    /// `minimum(`
    #[tactic(auto, unfolding(crate::specs::Parsing::pair_call))]
    fn minimum(&self, tokens: &mut Cursor<'_>) -> Result<Parsed, ParseEnd>
        requires { Nests self.now.depth (F.pre self.now.parse) (F.post self.now.parse) }
        ensures { Reads parsed_tree (spec.pair_call (spec.parse self.now.depth) self.now.depth minimum_tree (ahead tokens.old)) result (ahead tokens.new) }
    {
        let a = self.inner(tokens)?;
        let b = self.last(tokens)?;
        Ok(minimum_of(self.alloc, a, b)?)
    }

    /// `maximum(`
    #[tactic(auto, unfolding(crate::specs::Parsing::pair_call))]
    fn maximum(&self, tokens: &mut Cursor<'_>) -> Result<Parsed, ParseEnd>
        requires { Nests self.now.depth (F.pre self.now.parse) (F.post self.now.parse) }
        ensures { Reads parsed_tree (spec.pair_call (spec.parse self.now.depth) self.now.depth maximum_tree (ahead tokens.old)) result (ahead tokens.new) }
    {
        let a = self.inner(tokens)?;
        let b = self.last(tokens)?;
        Ok(maximum_of(self.alloc, a, b)?)
    }

    /// `where(`
    #[tactic(auto, unfolding(crate::specs::Parsing::where_call))]
    fn choice(&self, tokens: &mut Cursor<'_>) -> Result<Parsed, ParseEnd>
        requires { Nests self.now.depth (F.pre self.now.parse) (F.post self.now.parse) }
        ensures { Reads parsed_tree (spec.where_call (spec.parse self.now.depth) self.now.depth (ahead tokens.old)) result (ahead tokens.new) }
    {
        let condition = self.inner(tokens)?;
        let a = self.next(tokens)?;
        let b = self.last(tokens)?;
        Ok(choice_of(self.alloc, condition, a, b)?)
    }

    /// `sum(`, and so for each reduction.
    #[tactic(auto, unfolding(crate::specs::Parsing::axis_call))]
    fn reduction(&self, tokens: &mut Cursor<'_>, red: Red) -> Result<Parsed, ParseEnd>
        requires { Nests self.now.depth (F.pre self.now.parse) (F.post self.now.parse) }
        ensures { Reads parsed_tree (spec.inside (spec.parse self.now.depth) self.now.depth (Function.Reduce red) (ahead tokens.old)) result (ahead tokens.new) }
    {
        let a = self.inner(tokens)?;
        let axis = self.axis_ending(tokens)?;
        Ok(reduce_of(self.alloc, red, a, axis)?)
    }

    /// `cumsum(`, and so for each call along one axis.
    #[tactic(auto, unfolding(crate::specs::Parsing::axis_call))]
    fn scan(&self, tokens: &mut Cursor<'_>, call: ScanCall) -> Result<Parsed, ParseEnd>
        requires { Nests self.now.depth (F.pre self.now.parse) (F.post self.now.parse) }
        ensures { Reads parsed_tree (spec.inside (spec.parse self.now.depth) self.now.depth (Function.Scan call) (ahead tokens.old)) result (ahead tokens.new) }
    {
        let a = self.inner(tokens)?;
        let axis = self.axis_ending(tokens)?;
        Ok(scan_of(self.alloc, call, a, axis)?)
    }

    /// `take(`
    #[tactic(auto, unfolding(crate::specs::Parsing::take_call))]
    fn take(&self, tokens: &mut Cursor<'_>) -> Result<Parsed, ParseEnd>
        requires { Nests self.now.depth (F.pre self.now.parse) (F.post self.now.parse) }
        ensures { Reads parsed_tree (spec.take_call (spec.parse self.now.depth) self.now.depth (ahead tokens.old)) result (ahead tokens.new) }
    {
        let a = self.inner(tokens)?;
        let indices = self.next(tokens)?;
        let axis = self.axis_ending(tokens)?;
        Ok(take_of(self.alloc, a, indices, axis)?)
    }

    /// `transpose(`
    #[tactic(auto, unfolding(crate::specs::Parsing::transpose_call))]
    fn transpose(&self, tokens: &mut Cursor<'_>) -> Result<Parsed, ParseEnd>
        requires { Nests self.now.depth (F.pre self.now.parse) (F.post self.now.parse) }
        ensures { Reads parsed_tree (spec.transpose_call (spec.parse self.now.depth) self.now.depth (ahead tokens.old)) result (ahead tokens.new) }
    {
        let a = self.inner(tokens)?;
        if tokens.eat(TokenKind::RightParenthesis) {
            return Ok(reversed_of(self.alloc, a)?);
        }
        let axes = self.next_shape(tokens)?;
        tokens.expect(TokenKind::RightParenthesis)?;
        Ok(transpose_of(self.alloc, a, axes)?)
    }

    /// `broadcast_to(`
    #[tactic(auto, unfolding(crate::specs::Parsing::broadcast_call))]
    fn broadcast(&self, tokens: &mut Cursor<'_>) -> Result<Parsed, ParseEnd>
        requires { Nests self.now.depth (F.pre self.now.parse) (F.post self.now.parse) }
        ensures { Reads parsed_tree (spec.broadcast_call (spec.parse self.now.depth) self.now.depth (ahead tokens.old)) result (ahead tokens.new) }
    {
        let a = self.inner(tokens)?;
        let shape = self.next_shape(tokens)?;
        tokens.expect(TokenKind::RightParenthesis)?;
        Ok(broadcast_of(self.alloc, a, shape)?)
    }

    /// `stencil(`
    #[tactic(auto, unfolding(crate::specs::Parsing::stencil_call))]
    fn stencil(&self, tokens: &mut Cursor<'_>) -> Result<Parsed, ParseEnd>
        requires { Nests self.now.depth (F.pre self.now.parse) (F.post self.now.parse) }
        ensures { Reads parsed_tree (spec.stencil_call (spec.parse self.now.depth) self.now.depth (ahead tokens.old)) result (ahead tokens.new) }
    {
        let a = self.inner(tokens)?;
        tokens.expect(TokenKind::Comma)?;
        let weights = self.bracketed(tokens, self.depth)?;
        tokens.expect(TokenKind::RightParenthesis)?;
        Ok(stencil_of(self.alloc, a, weights)?)
    }

    /// `apply(`
    #[tactic(auto, unfolding(crate::specs::Parsing::apply_call))]
    fn application(&self, tokens: &mut Cursor<'_>) -> Result<Parsed, ParseEnd>
        requires { Nests self.now.depth (F.pre self.now.parse) (F.post self.now.parse) }
        ensures { Reads parsed_tree (spec.apply_call (spec.parse self.now.depth) self.now.depth (ahead tokens.old)) result (ahead tokens.new) }
    {
        let name = a_word(tokens)?;
        let a = self.next(tokens)?;
        let b = self.last(tokens)?;
        Ok(apply_of(self.alloc, name, a, b)?)
    }

    /// Behind the parenthesis of a call.
    fn inside(&self, tokens: &mut Cursor<'_>, function: Function) -> Result<Parsed, ParseEnd>
        requires { Nests self.now.depth (F.pre self.now.parse) (F.post self.now.parse) }
        ensures { Reads parsed_tree (spec.inside (spec.parse self.now.depth) self.now.depth function (ahead tokens.old)) result (ahead tokens.new) }
    {
        match function {
            Function::Full => Ok(self.full(tokens)?),
            Function::Zeros => Ok(self.zeros(tokens)?),
            Function::Ones => Ok(self.ones(tokens)?),
            Function::Arange => Ok(self.arange(tokens)?),
            Function::Array => Ok(self.array(tokens)?),
            Function::Abs => Ok(self.abs(tokens)?),
            Function::Minimum => Ok(self.minimum(tokens)?),
            Function::Maximum => Ok(self.maximum(tokens)?),
            Function::Where => Ok(self.choice(tokens)?),
            Function::Reduce(red) => Ok(self.reduction(tokens, red)?),
            Function::Take => Ok(self.take(tokens)?),
            Function::Transpose => Ok(self.transpose(tokens)?),
            Function::BroadcastTo => Ok(self.broadcast(tokens)?),
            Function::Stencil => Ok(self.stencil(tokens)?),
            Function::Apply => Ok(self.application(tokens)?),
            Function::Scan(call) => Ok(self.scan(tokens, call)?),
        }
    }

    /// Behind the word of a function.
    #[tactic(auto, unfolding(crate::specs::Parsing::called))]
    pub fn called(&self, tokens: &mut Cursor<'_>, function: Function) -> Result<Parsed, ParseEnd>
        requires { Nests self.now.depth (F.pre self.now.parse) (F.post self.now.parse) }
        ensures { Reads parsed_tree (spec.called (spec.parse self.now.depth) self.now.depth function (ahead tokens.old)) result (ahead tokens.new) }
    {
        tokens.expect(TokenKind::LeftParenthesis)?;
        Ok(self.inside(tokens, function)?)
    }
}
