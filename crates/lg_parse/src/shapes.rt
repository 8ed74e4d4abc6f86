//! Shapes.

ghost use Rattle.std.specs.Prelude.{◌≡◌, ◌++◌, ◌∷◌, [], Some};
ghost use Rattle.lg_parse.specs.Nests.{Nests};
ghost use Rattle.lg_parse.specs.Parsing as spec;
ghost use Rattle.lg_parse.specs.Parts.{parsed_tree, parsed_part, parsed_shape, parsed_list, parsed_item, parsed_trees};
ghost use Rattle.lg_parse.specs.Reading.{ahead, Reads, Gives};
ghost use Rattle.lg_parse.specs.declared.rules.Rule.TheVariants.{Expression};
ghost use Rattle.lg_lex.specs.declared.tokens.TokenKind.TheVariants.{RightParenthesis};
ghost use Rattle.lg_tree.specs.Tree.{one, tuple};
ghost use Rattle.lg_tree.specs.View.{trees};
ghost use Rattle.lg_tree.specs.Measures.{shape_height};

use crate::cursor::Cursor;
use crate::ends::ParseEnd;
use crate::grammar::Grammar;
use crate::nodes::shape_node;
use crate::parsed::{Parsed, ParsedShape, ParsedTrees};
use crate::rules::Rule;
use lg_lex::TokenKind;
use lg_tree::ShapeExpr;
use sqlite_items::Items;
use std::alloc::Global;

/// One extent.
fn one_of(extent: Parsed) -> ParsedShape
    ensures { parsed_shape result ≡ one (parsed_tree extent) }
{
    let Parsed { tree, height } = extent;
    let shape = ShapeExpr::One(tree);
    ParsedShape { shape, height }
}

/// Extents in parentheses.
fn tuple_of(extents: ParsedTrees) -> Result<ParsedShape, ParseEnd>
    ensures { Gives parsed_shape (spec.low shape_height (tuple (trees (parsed_trees extents))))
        result }
{
    let ParsedTrees { members, height } = extents;
    Ok(shape_node(ShapeExpr::Tuple(members), height)?)
}

fn no_trees(alloc: Global) -> ParsedTrees
    ensures { parsed_trees result ≡ [] }
{
    ParsedTrees {
        members: Items::new(alloc),
        height: 0,
    }
}

/// One extent more.
fn tree_added(found: ParsedTrees, last: Parsed) -> Result<ParsedTrees, ParseEnd>
    ensures { Gives parsed_trees (Some (parsed_trees found ++ parsed_tree last ∷ [])) result }
{
    let ParsedTrees {
        mut members,
        height: highest,
    } = found;
    let Parsed { tree, height } = last;
    members.push(tree.into_inner())?;
    Ok(ParsedTrees {
        members,
        height: highest.max(height),
    })
}

impl<F: Fn(Global, &mut Cursor<'_>, usize, Rule) -> Result<Parsed, ParseEnd>> Grammar<F> {
    /// Extents up to the parenthesis that closes them, behind some that are found.
    fn tree_members(
        &self,
        tokens: &mut Cursor<'_>,
        turns: usize,
        first: ParsedTrees,
    ) -> Result<ParsedTrees, ParseEnd>
        requires { Nests self.now.depth (F.pre self.now.parse) (F.post self.now.parse) }
        ensures { Reads parsed_trees (spec.members (spec.parse self.now.depth Expression)
            RightParenthesis turns (parsed_trees first) (ahead tokens.old)) result
            (ahead tokens.new) }
    {
        let mut found = first;
        for _turn in 0..turns {
            if tokens.eat(TokenKind::RightParenthesis) {
                return Ok(found);
            }
            let extent = self.inner(tokens)?;
            found = tree_added(found, extent)?;
            if !tokens.eat(TokenKind::Comma) {
                tokens.expect(TokenKind::RightParenthesis)?;
                return Ok(found);
            }
        }
        Err(ParseEnd::Syntax)
    }

    /// The extents of a tuple behind the first one.
    #[tactic(auto, unfolding(crate::specs::Parsing::other_members))]
    fn other_members(&self, tokens: &mut Cursor<'_>, first: Parsed) -> Result<ParsedShape, ParseEnd>
        requires { Nests self.now.depth (F.pre self.now.parse) (F.post self.now.parse) }
        ensures { Reads parsed_shape (spec.other_members (spec.parse self.now.depth)
            self.now.depth (parsed_tree first) (ahead tokens.old)) result (ahead tokens.new) }
    {
        let turns = tokens.left();
        let first = tree_added(no_trees(self.alloc), first)?;
        let found = self.tree_members(tokens, turns, first)?;
        Ok(tuple_of(found)?)
    }

    /// A tuple with extents, behind its parenthesis.
    #[tactic(auto, unfolding(crate::specs::Parsing::filled_tuple))]
    fn filled_tuple(&self, tokens: &mut Cursor<'_>) -> Result<ParsedShape, ParseEnd>
        requires { Nests self.now.depth (F.pre self.now.parse) (F.post self.now.parse) }
        ensures { Reads parsed_shape (spec.filled_tuple (spec.parse self.now.depth)
            self.now.depth (ahead tokens.old)) result (ahead tokens.new) }
    {
        let first = self.inner(tokens)?;
        tokens.expect(TokenKind::Comma)?;
        Ok(self.other_members(tokens, first)?)
    }

    /// Extents in parentheses.
    #[tactic(auto, unfolding(crate::specs::Parsing::tuple_shape))]
    fn tuple_shape(&self, tokens: &mut Cursor<'_>) -> Result<ParsedShape, ParseEnd>
        requires { Nests self.now.depth (F.pre self.now.parse) (F.post self.now.parse) }
        ensures { Reads parsed_shape (spec.tuple_shape (spec.parse self.now.depth)
            self.now.depth (ahead tokens.old)) result (ahead tokens.new) }
    {
        tokens.expect(TokenKind::LeftParenthesis)?;
        if tokens.eat(TokenKind::RightParenthesis) {
            return Ok(tuple_of(no_trees(self.alloc))?);
        }
        Ok(self.filled_tuple(tokens)?)
    }

    /// The extents or the axes of an array.
    #[tactic(auto, unfolding(crate::specs::Parsing::shape))]
    pub fn shape(&self, tokens: &mut Cursor<'_>) -> Result<ParsedShape, ParseEnd>
        requires { Nests self.now.depth (F.pre self.now.parse) (F.post self.now.parse) }
        ensures { Reads parsed_shape (spec.shape (spec.parse self.now.depth) self.now.depth (ahead tokens.old)) result (ahead tokens.new) }
    {
        if tokens.sees_tuple() {
            return Ok(self.tuple_shape(tokens)?);
        }
        let extent = self.inner(tokens)?;
        Ok(one_of(extent))
    }

    /// Extents with a comma between two of them.
    fn extents(
        &self,
        tokens: &mut Cursor<'_>,
        turns: usize,
        first: ParsedTrees,
    ) -> Result<ParsedTrees, ParseEnd>
        requires { Nests self.now.depth (F.pre self.now.parse) (F.post self.now.parse) }
        ensures { Reads parsed_trees (spec.extents (spec.parse self.now.depth Expression) turns (parsed_trees first) (ahead tokens.old)) result (ahead tokens.new) }
    {
        let mut found = first;
        for _turn in 0..turns {
            let extent = self.inner(tokens)?;
            found = tree_added(found, extent)?;
            if !tokens.eat(TokenKind::Comma) {
                return Ok(found);
            }
        }
        Err(ParseEnd::Syntax)
    }

    /// The extents behind the first one.
    #[tactic(auto, unfolding(crate::specs::Parsing::other_extents))]
    fn other_extents(&self, tokens: &mut Cursor<'_>, first: Parsed) -> Result<ParsedShape, ParseEnd>
        requires { Nests self.now.depth (F.pre self.now.parse) (F.post self.now.parse) }
        ensures { Reads parsed_shape (spec.other_extents (spec.parse self.now.depth) self.now.depth (parsed_tree first) (ahead tokens.old)) result (ahead tokens.new) }
    {
        let turns = tokens.left();
        let first = tree_added(no_trees(self.alloc), first)?;
        let found = self.extents(tokens, turns, first)?;
        Ok(tuple_of(found)?)
    }

    /// Extents without parentheses.
    #[tactic(auto, unfolding(crate::specs::Parsing::plain_extents))]
    fn plain_extents(&self, tokens: &mut Cursor<'_>) -> Result<ParsedShape, ParseEnd>
        requires { Nests self.now.depth (F.pre self.now.parse) (F.post self.now.parse) }
        ensures { Reads parsed_shape (spec.plain_extents (spec.parse self.now.depth) self.now.depth (ahead tokens.old)) result (ahead tokens.new) }
    {
        let extent = self.inner(tokens)?;
        if tokens.eat(TokenKind::Comma) {
            return Ok(self.other_extents(tokens, extent)?);
        }
        Ok(one_of(extent))
    }

    /// The arguments of a method that takes extents or axes.
    #[tactic(auto, unfolding(crate::specs::Parsing::several))]
    pub fn several(&self, tokens: &mut Cursor<'_>) -> Result<ParsedShape, ParseEnd>
        requires { Nests self.now.depth (F.pre self.now.parse) (F.post self.now.parse) }
        ensures { Reads parsed_shape (spec.several (spec.parse self.now.depth) self.now.depth (ahead tokens.old)) result (ahead tokens.new) }
    {
        if tokens.sees_tuple() {
            return Ok(self.tuple_shape(tokens)?);
        }
        Ok(self.plain_extents(tokens)?)
    }
}
