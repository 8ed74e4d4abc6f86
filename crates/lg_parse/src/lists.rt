//! Lists.

ghost use Rattle.std.specs.Prelude.{◌≡◌, ◌++◌, ◌∷◌, [], Some};
ghost use Rattle.lg_parse.specs.Nests.{Nests};
ghost use Rattle.lg_parse.specs.Parsing as spec;
ghost use Rattle.lg_parse.specs.Parts.{parsed_tree, parsed_part, parsed_shape, parsed_list, parsed_item, parsed_lists};
ghost use Rattle.lg_parse.specs.Reading.{ahead, Reads, Gives};
ghost use Rattle.lg_tree.specs.Tree.{leaf, list as list_tree};
ghost use Rattle.lg_tree.specs.View.{list_trees};
ghost use Rattle.lg_tree.specs.Measures.{list_height};
ghost use Rattle.lg_lex.specs.declared.tokens.TokenKind.TheVariants.{RightBracket};

use crate::cursor::Cursor;
use crate::ends::ParseEnd;
use crate::grammar::Grammar;
use crate::nodes::list_node;
use crate::parsed::{Parsed, ParsedList, ParsedLists};
use crate::rules::Rule;
use lg_lex::TokenKind;
use lg_tree::ListExpr;
use sqlite_items::Items;
use std::alloc::Global;

/// An expression in a list.
fn leaf_of(entry: Parsed) -> ParsedList
    ensures { parsed_list result ≡ leaf (parsed_tree entry) }
{
    let Parsed { tree, height } = entry;
    let list = ListExpr::Leaf(tree);
    ParsedList { list, height }
}

/// A list of entries.
fn list_of_entries(entries: ParsedLists) -> Result<ParsedList, ParseEnd>
    ensures { Gives parsed_list (spec.low list_height (list_tree (list_trees
        (parsed_lists entries)))) result }
{
    let ParsedLists { members, height } = entries;
    Ok(list_node(ListExpr::List(members), height)?)
}

fn no_entries(alloc: Global) -> ParsedLists
    ensures { parsed_lists result ≡ [] }
{
    ParsedLists {
        members: Items::new(alloc),
        height: 0,
    }
}

/// One entry more.
fn entry_added(found: ParsedLists, last: ParsedList) -> Result<ParsedLists, ParseEnd>
    ensures { Gives parsed_lists (Some (parsed_lists found ++ parsed_list last ∷ [])) result }
{
    let ParsedLists {
        mut members,
        height: highest,
    } = found;
    let ParsedList { list, height } = last;
    members.push(list)?;
    Ok(ParsedLists {
        members,
        height: highest.max(height),
    })
}

impl<F: Fn(Global, &mut Cursor<'_>, usize, Rule) -> Result<Parsed, ParseEnd>> Grammar<F> {
    /// An expression in a list.
    #[tactic(auto, unfolding(crate::specs::Parsing::leaf_entry))]
    fn leaf_entry(&self, tokens: &mut Cursor<'_>) -> Result<ParsedList, ParseEnd>
        requires { Nests self.now.depth (F.pre self.now.parse) (F.post self.now.parse) }
        ensures { Reads parsed_list (spec.leaf_entry (spec.parse self.now.depth) self.now.depth (ahead tokens.old)) result (ahead tokens.new) }
    {
        let entry = self.inner(tokens)?;
        Ok(leaf_of(entry))
    }

    /// An entry of a list, where lists may stand so deep inside one another.
    #[cycle(list)]
    #[tactic(auto, unfolding(crate::specs::Parsing::entry_by))]
    fn entry(&self, tokens: &mut Cursor<'_>, depth: usize) -> Result<ParsedList, ParseEnd>
        requires { Nests self.now.depth (F.pre self.now.parse) (F.post self.now.parse) }
        ensures { Reads parsed_list (spec.entry_by (spec.parse self.now.depth) self.now.depth
            (spec.bracketed (spec.parse self.now.depth) self.now.depth depth) (ahead tokens.old))
            result (ahead tokens.new) }
    {
        if tokens.sees(TokenKind::LeftBracket) {
            return Ok(self.bracketed(tokens, depth)?);
        }
        Ok(self.leaf_entry(tokens)?)
    }

    /// The entries of a list, and the bracket that closes it.
    #[cycle(list)]
    fn entries(
        &self,
        tokens: &mut Cursor<'_>,
        turns: usize,
        depth: usize,
    ) -> Result<ParsedLists, ParseEnd>
        requires { Nests self.now.depth (F.pre self.now.parse) (F.post self.now.parse) }
        ensures { Reads parsed_lists (spec.members (spec.entry_by (spec.parse self.now.depth)
            self.now.depth (spec.bracketed (spec.parse self.now.depth) self.now.depth depth))
            RightBracket turns [] (ahead tokens.old)) result (ahead tokens.new) }
    {
        let mut found = no_entries(self.alloc);
        for _turn in 0..turns {
            if tokens.eat(TokenKind::RightBracket) {
                return Ok(found);
            }
            let entry = self.entry(tokens, depth)?;
            found = entry_added(found, entry)?;
            if !tokens.eat(TokenKind::Comma) {
                tokens.expect(TokenKind::RightBracket)?;
                return Ok(found);
            }
        }
        Err(ParseEnd::Syntax)
    }

    /// A list, where lists may stand so deep inside one another.
    #[cycle(list)]
    pub fn bracketed(&self, tokens: &mut Cursor<'_>, depth: usize) -> Result<ParsedList, ParseEnd>
        requires { Nests self.now.depth (F.pre self.now.parse) (F.post self.now.parse) }
        ensures { Reads parsed_list (spec.bracketed (spec.parse self.now.depth) self.now.depth
            depth (ahead tokens.old)) result (ahead tokens.new) }
    {
        if depth == 0 {
            return Err(ParseEnd::Syntax);
        }
        let turns = tokens.left();
        tokens.expect(TokenKind::LeftBracket)?;
        let found = self.entries(tokens, turns, depth - 1)?;
        Ok(list_of_entries(found)?)
    }
}
