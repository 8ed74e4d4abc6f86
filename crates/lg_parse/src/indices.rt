//! Indices.

ghost use Rattle.std.specs.Prelude.{◌≡◌, ◌<◌, ◌≤◌, ◌++◌, ◌∷◌, [], Some, IfSome, IfNone};
ghost use Rattle.lg_parse.specs.Nests.{Nests};
ghost use Rattle.lg_parse.specs.Parsing as spec;
ghost use Rattle.lg_parse.specs.Parts.{parsed_tree, parsed_part, parsed_shape, parsed_list, parsed_item, parsed_items, parsed_index};
ghost use Rattle.lg_parse.specs.Reading.{ahead, Reads, Gives};
ghost use Rattle.lg_tree.specs.Measures.{item_height, part_height as part_tree_height};
ghost use Rattle.lg_tree.specs.Tree.{slice, at};
ghost use Rattle.lg_tree.specs.View.{maybe_of, item_of};
ghost use Rattle.lg_lex.specs.declared.tokens.TokenKind.TheVariants.{RightBracket};

use crate::cursor::Cursor;
use crate::ends::ParseEnd;
use crate::grammar::Grammar;
use crate::nodes::HEIGHT_LIMIT;
use crate::parsed::{Parsed, ParsedItem, ParsedItems};
use crate::rules::Rule;
use crate::words::Word;
use lg_lex::TokenKind;
use lg_tree::{Expr, Item};
use sqlite_items::Items;
use std::alloc::Global;

/// How high a slice is for this part.
fn part_height(part: &Option<Parsed>) -> u64
    ensures height { result ≡ part_tree_height (parsed_part part.now) }
    ensures low { result ≤ 201 }
{
    match part {
        Some(part) => part.height + 1,
        None => 0,
    }
}

/// The tree of a part that may be left out.
fn part_tree(part: Option<Parsed>) -> Option<Expr>
    ensures { maybe_of result ≡ parsed_part part }
{
    match part {
        Some(Parsed { tree, .. }) => Some(tree.into_inner()),
        None => None,
    }
}

/// `start:stop:step`
fn slice_item(start: Option<Expr>, stop: Option<Expr>, step: Option<Expr>) -> Item
    ensures { item_of result ≡ slice (maybe_of start) (maybe_of stop) (maybe_of step) }
{
    Item::Slice { start, stop, step }
}

/// How high `start:stop:step` is, if it is not too high.
fn slice_height(start: &Option<Parsed>, stop: &Option<Parsed>, step: &Option<Parsed>) -> Option<u64>
    ensures height { IfSome result (λ h. h ≡ item_height (slice (parsed_part start.now)
        (parsed_part stop.now) (parsed_part step.now))) }
    ensures low { IfSome result (λ h. h ≤ 200) }
    ensures high { IfNone result (200 < item_height (slice (parsed_part start.now)
        (parsed_part stop.now) (parsed_part step.now))) }
{
    let height = part_height(start).max(part_height(stop).max(part_height(step)));
    if height > HEIGHT_LIMIT {
        return None;
    }
    Some(height)
}

/// `start:stop:step`, if it is not too high.
fn slice_of(
    start: Option<Parsed>,
    stop: Option<Parsed>,
    step: Option<Parsed>,
) -> Result<ParsedItem, ParseEnd>
    ensures { Gives parsed_item (spec.low item_height (slice (parsed_part start)
        (parsed_part stop) (parsed_part step))) result }
{
    match slice_height(&start, &stop, &step) {
        None => Err(ParseEnd::Syntax),
        Some(height) => {
            let item = slice_item(part_tree(start), part_tree(stop), part_tree(step));
            Ok(ParsedItem { item, height })
        }
    }
}

/// The element at a place.
fn place_of(place: Parsed) -> Result<ParsedItem, ParseEnd>
    ensures { Gives parsed_item (spec.low item_height (at (parsed_tree place))) result }
{
    if place.height >= HEIGHT_LIMIT {
        return Err(ParseEnd::Syntax);
    }
    let Parsed { tree, height } = place;
    Ok(ParsedItem {
        item: Item::At(tree.into_inner()),
        height: height + 1,
    })
}

/// An item without parts.
fn mark(item: Item) -> ParsedItem
    requires { item_height (item_of item) ≡ 0 }
    ensures { parsed_item result ≡ item_of item }
{
    ParsedItem { item, height: 0 }
}

fn no_items(alloc: Global) -> ParsedItems
    ensures { parsed_items result ≡ [] }
{
    ParsedItems {
        members: Items::new(alloc),
        height: 0,
    }
}

/// One item more.
fn item_added(found: ParsedItems, last: ParsedItem) -> Result<ParsedItems, ParseEnd>
    ensures { Gives parsed_items (Some (parsed_items found ++ parsed_item last ∷ [])) result }
{
    let ParsedItems {
        mut members,
        height: highest,
    } = found;
    let ParsedItem { item, height } = last;
    members.push(item)?;
    Ok(ParsedItems {
        members,
        height: highest.max(height),
    })
}

impl<F: Fn(Global, &mut Cursor<'_>, usize, Rule) -> Result<Parsed, ParseEnd>> Grammar<F> {
    /// A part of a slice that may be left out.
    #[tactic(auto, unfolding(crate::specs::Parsing::part))]
    fn part(&self, tokens: &mut Cursor<'_>) -> Result<Option<Parsed>, ParseEnd>
        requires { Nests self.now.depth (F.pre self.now.parse) (F.post self.now.parse) }
        ensures { Reads parsed_part (spec.part (spec.parse self.now.depth) self.now.depth (ahead tokens.old)) result (ahead tokens.new) }
    {
        if tokens.sees_end() {
            return Ok(None);
        }
        Ok(Some(self.inner(tokens)?))
    }

    /// Behind the second colon, if there is one.
    #[tactic(auto, unfolding(crate::specs::Parsing::step))]
    fn step(&self, tokens: &mut Cursor<'_>) -> Result<Option<Parsed>, ParseEnd>
        requires { Nests self.now.depth (F.pre self.now.parse) (F.post self.now.parse) }
        ensures { Reads parsed_part (spec.step (spec.parse self.now.depth) self.now.depth (ahead tokens.old)) result (ahead tokens.new) }
    {
        if !tokens.eat(TokenKind::Colon) {
            return Ok(None);
        }
        Ok(self.part(tokens)?)
    }

    /// Behind the first colon.
    #[tactic(auto, unfolding(crate::specs::Parsing::sliced))]
    fn sliced(&self, tokens: &mut Cursor<'_>, start: Option<Parsed>) -> Result<ParsedItem, ParseEnd>
        requires { Nests self.now.depth (F.pre self.now.parse) (F.post self.now.parse) }
        ensures { Reads parsed_item (spec.sliced (spec.parse self.now.depth) self.now.depth (parsed_part start) (ahead tokens.old)) result (ahead tokens.new) }
    {
        let stop = self.part(tokens)?;
        let step = self.step(tokens)?;
        Ok(slice_of(start, stop, step)?)
    }

    /// An item that begins with an expression.
    #[tactic(auto, unfolding(crate::specs::Parsing::placed))]
    fn placed(&self, tokens: &mut Cursor<'_>) -> Result<ParsedItem, ParseEnd>
        requires { Nests self.now.depth (F.pre self.now.parse) (F.post self.now.parse) }
        ensures { Reads parsed_item (spec.placed (spec.parse self.now.depth) self.now.depth (ahead tokens.old)) result (ahead tokens.new) }
    {
        let place = self.inner(tokens)?;
        if tokens.eat(TokenKind::Colon) {
            return Ok(self.sliced(tokens, Some(place))?);
        }
        Ok(place_of(place)?)
    }

    /// An item of an index.
    #[tactic(auto, unfolding(crate::specs::Parsing::item))]
    fn item(&self, tokens: &mut Cursor<'_>) -> Result<ParsedItem, ParseEnd>
        requires { Nests self.now.depth (F.pre self.now.parse) (F.post self.now.parse) }
        ensures { Reads parsed_item (spec.item (spec.parse self.now.depth) self.now.depth (ahead tokens.old)) result (ahead tokens.new) }
    {
        if tokens.eat_word(Word::NewAxis) {
            return Ok(mark(Item::NewAxis));
        }
        if tokens.eat(TokenKind::Ellipsis) {
            return Ok(mark(Item::Ellipsis));
        }
        if tokens.eat(TokenKind::Colon) {
            return Ok(self.sliced(tokens, None)?);
        }
        Ok(self.placed(tokens)?)
    }

    /// The items of an index, and the bracket that closes it.
    fn item_members(&self, tokens: &mut Cursor<'_>, turns: usize) -> Result<ParsedItems, ParseEnd>
        requires { Nests self.now.depth (F.pre self.now.parse) (F.post self.now.parse) }
        ensures { Reads parsed_items (spec.members (spec.item (spec.parse self.now.depth) self.now.depth) RightBracket turns [] (ahead tokens.old)) result (ahead tokens.new) }
    {
        let mut found = no_items(self.alloc);
        for _turn in 0..turns {
            if tokens.eat(TokenKind::RightBracket) {
                return Ok(found);
            }
            let item = self.item(tokens)?;
            found = item_added(found, item)?;
            if !tokens.eat(TokenKind::Comma) {
                tokens.expect(TokenKind::RightBracket)?;
                return Ok(found);
            }
        }
        Err(ParseEnd::Syntax)
    }

    /// Behind the bracket of an index.
    #[tactic(auto, unfolding(crate::specs::Parsing::items))]
    pub fn items(&self, tokens: &mut Cursor<'_>) -> Result<ParsedItems, ParseEnd>
        requires { Nests self.now.depth (F.pre self.now.parse) (F.post self.now.parse) }
        ensures { Reads parsed_index (spec.items (spec.parse self.now.depth) self.now.depth (ahead tokens.old)) result (ahead tokens.new) }
    {
        if tokens.sees(TokenKind::RightBracket) {
            return Err(ParseEnd::Syntax);
        }
        let turns = tokens.left();
        Ok(self.item_members(tokens, turns)?)
    }
}
