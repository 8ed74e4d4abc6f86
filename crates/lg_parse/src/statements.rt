//! From the terminals of a line to what its statement says.

ghost use Rattle.std.specs.Prelude.{◌≡◌, ◌≤◌, length, IfOk, IfErr};
ghost use Rattle.lg_tree.specs.HeadView.{head_of};
ghost use Rattle.lg_parse.specs.Parts.{parsed_tree, parsed_index};
ghost use Rattle.lg_parse.specs.ParsingHeads as spec;
ghost use Rattle.lg_parse.specs.ParsingHeads.{EndsHead};
ghost use Rattle.lg_parse.specs.Reading.{ahead, terminals_view, Reads, same};
ghost use Rattle.lg_tree.specs.Heads.{head_height, head_nodes};
ghost use Rattle.lg_parse.specs.Statements.{HoldsHead};

use crate::brackets::is_shallow;
use crate::cursor::Cursor;
use crate::ends::ParseEnd;
use crate::grammar::{Grammar, parse};
use crate::parsed::{Parsed, ParsedItems};
use crate::rules::Rule;
use crate::terminals::Terminal;
use crate::types::a_word;
use crate::words::Word;
use lg_lex::TokenKind;
use lg_tree::{Arith, Head, Simple, Statement};
use sqlite_items::Items;
use std::alloc::Global;

/// So many rules may stand inside one another: the limits of brackets and of heights together.
const DEPTH: usize = 265;

/// What the line of a statement says that has these terminals: the whole statement, or for a loop
/// its name and its bounds.
///
/// # Errors
///
/// `Syntax` where the terminals spell no such line within the limits, and `NoMemory` where there is
/// no memory for its trees.
pub fn read_head(alloc: Global, terminals: &[Terminal<'_>]) -> Result<Head, ParseEnd>
    ensures found { IfOk result (λ h. HoldsHead (terminals_view terminals.now) (head_of h)) }
    ensures small { IfOk result (λ h. head_nodes (head_of h) ≤ length terminals.now) }
    ensures end { IfErr result (EndsHead (terminals_view terminals.now)) }
{
    if !is_shallow(terminals) {
        return Err(ParseEnd::Syntax);
    }
    let mut tokens = Cursor::new(terminals);
    let head = head(alloc, &mut tokens)?;
    if tokens.left() > 0 {
        return Err(ParseEnd::Syntax);
    }
    Ok(head)
}

/// The line of a statement in front.
#[tactic(auto, unfolding(crate::specs::ParsingHeads::head))]
fn head(alloc: Global, tokens: &mut Cursor<'_>) -> Result<Head, ParseEnd>
    ensures read { Reads head_of (spec.head (ahead tokens.old)) result (ahead tokens.new) }
    ensures low { IfOk result (λ h. head_height (head_of h) ≤ 200) }
{
    let Some(front) = tokens.front() else {
        return Err(ParseEnd::Syntax);
    };
    tokens.advance();
    match front {
        Terminal::Name(name) => Ok(named(alloc, tokens, name)?),
        Terminal::Itself(word) => Ok(worded(alloc, tokens, word)?),
        _ => Err(ParseEnd::Syntax),
    }
}

/// Behind a reserved word.
fn worded(alloc: Global, tokens: &mut Cursor<'_>, word: Word) -> Result<Head, ParseEnd>
    ensures read { Reads head_of (spec.worded word (ahead tokens.old)) result (ahead tokens.new) }
    ensures low { IfOk result (λ h. head_height (head_of h) ≤ 200) }
{
    match word {
        Word::Print => Ok(printing(alloc, tokens)?),
        Word::For => Ok(looping(alloc, tokens)?),
        Word::Save => Ok(saving(alloc, tokens)?),
        _ => Err(ParseEnd::Syntax),
    }
}

/// Behind `print`.
#[tactic(auto, unfolding(crate::specs::ParsingHeads::printing))]
fn printing(alloc: Global, tokens: &mut Cursor<'_>) -> Result<Head, ParseEnd>
    ensures read { Reads head_of (spec.printing (ahead tokens.old)) result (ahead tokens.new) }
    ensures low { IfOk result (λ h. head_height (head_of h) ≤ 200) }
{
    tokens.expect(TokenKind::LeftParenthesis)?;
    let Parsed { tree: value, .. } = parse(alloc, tokens, DEPTH, Rule::Expression)?;
    tokens.expect(TokenKind::RightParenthesis)?;
    Ok(Head::Whole(Simple {
        statement: Statement::Print {
            value: value.into_inner(),
        },
    }))
}

/// Behind `save`.
#[tactic(auto, unfolding(crate::specs::ParsingHeads::saving))]
fn saving(alloc: Global, tokens: &mut Cursor<'_>) -> Result<Head, ParseEnd>
    ensures read { Reads head_of (spec.saving (ahead tokens.old)) result (ahead tokens.new) }
    ensures low { IfOk result (λ h. head_height (head_of h) ≤ 200) }
{
    tokens.expect(TokenKind::LeftParenthesis)?;
    let file = a_word(tokens)?;
    tokens.expect(TokenKind::Comma)?;
    let Parsed { tree: value, .. } = parse(alloc, tokens, DEPTH, Rule::Expression)?;
    tokens.expect(TokenKind::RightParenthesis)?;
    let file = Items::from_slice(alloc, file)?;
    Ok(Head::Whole(Simple {
        statement: Statement::Save {
            file,
            value: value.into_inner(),
        },
    }))
}

/// Behind `for`.
#[tactic(auto, unfolding(crate::specs::ParsingHeads::looping))]
fn looping(alloc: Global, tokens: &mut Cursor<'_>) -> Result<Head, ParseEnd>
    ensures read { Reads head_of (spec.looping (ahead tokens.old)) result (ahead tokens.new) }
    ensures low { IfOk result (λ h. head_height (head_of h) ≤ 200) }
{
    let name = a_word(tokens)?;
    tokens.expect_word(Word::In)?;
    tokens.expect_word(Word::Range)?;
    tokens.expect(TokenKind::LeftParenthesis)?;
    let first = parse(alloc, tokens, DEPTH, Rule::Expression)?;
    let head = bounded(alloc, tokens, name, first)?;
    tokens.expect(TokenKind::RightParenthesis)?;
    tokens.expect(TokenKind::Colon)?;
    Ok(head)
}

/// Behind the first bound of a loop.
#[tactic(auto, unfolding(crate::specs::ParsingHeads::bound))]
fn bounded(
    alloc: Global,
    tokens: &mut Cursor<'_>,
    name: &[u8],
    first: Parsed,
) -> Result<Head, ParseEnd>
    ensures read { Reads head_of (spec.bound name.now (parsed_tree first) (ahead tokens.old)) result (ahead tokens.new) }
    ensures low { IfOk result (λ h. head_height (head_of h) ≤ 200) }
{
    let Parsed { tree: first, .. } = first;
    if !tokens.eat(TokenKind::Comma) {
        let name = Items::from_slice(alloc, name)?;
        return Ok(Head::For {
            name,
            from: None,
            to: first.into_inner(),
        });
    }
    let Parsed { tree: to, .. } = parse(alloc, tokens, DEPTH, Rule::Expression)?;
    let name = Items::from_slice(alloc, name)?;
    Ok(Head::For {
        name,
        from: Some(first.into_inner()),
        to: to.into_inner(),
    })
}

/// Behind `name = load`.
#[tactic(auto, unfolding(crate::specs::ParsingHeads::loading))]
fn loading(alloc: Global, tokens: &mut Cursor<'_>, name: &[u8]) -> Result<Head, ParseEnd>
    ensures read { Reads head_of (spec.loading name.now (ahead tokens.old)) result (ahead tokens.new) }
    ensures low { IfOk result (λ h. head_height (head_of h) ≤ 200) }
{
    tokens.expect(TokenKind::LeftParenthesis)?;
    let file = a_word(tokens)?;
    tokens.expect(TokenKind::RightParenthesis)?;
    let name = Items::from_slice(alloc, name)?;
    let file = Items::from_slice(alloc, file)?;
    Ok(Head::Whole(Simple {
        statement: Statement::Load { name, file },
    }))
}

/// Behind `name =`.
#[tactic(auto, unfolding(crate::specs::ParsingHeads::binding))]
fn binding(alloc: Global, tokens: &mut Cursor<'_>, name: &[u8]) -> Result<Head, ParseEnd>
    ensures read { Reads head_of (spec.binding name.now (ahead tokens.old)) result (ahead tokens.new) }
    ensures low { IfOk result (λ h. head_height (head_of h) ≤ 200) }
{
    if tokens.eat_word(Word::Load) {
        return Ok(loading(alloc, tokens, name)?);
    }
    let Parsed { tree: value, .. } = parse(alloc, tokens, DEPTH, Rule::Expression)?;
    let name = Items::from_slice(alloc, name)?;
    Ok(Head::Whole(Simple {
        statement: Statement::Bind {
            name,
            value: value.into_inner(),
        },
    }))
}

/// Behind a name that is neither bound nor indexed.
#[tactic(auto, unfolding(crate::specs::ParsingHeads::updating))]
fn updating(alloc: Global, tokens: &mut Cursor<'_>, name: &[u8]) -> Result<Head, ParseEnd>
    ensures read { Reads head_of (spec.updating name.now (ahead tokens.old)) result (ahead tokens.new) }
    ensures low { IfOk result (λ h. head_height (head_of h) ≤ 200) }
{
    let op = assigned(tokens)?;
    let Parsed { tree: value, .. } = parse(alloc, tokens, DEPTH, Rule::Expression)?;
    let name = Items::from_slice(alloc, name)?;
    Ok(Head::Whole(Simple {
        statement: Statement::Update {
            name,
            op,
            value: value.into_inner(),
        },
    }))
}

/// Behind the index of a target.
#[tactic(auto, unfolding(crate::specs::ParsingHeads::putting))]
fn putting(
    alloc: Global,
    tokens: &mut Cursor<'_>,
    name: &[u8],
    index: ParsedItems,
) -> Result<Head, ParseEnd>
    ensures read { Reads head_of (spec.putting name.now (parsed_index index) (ahead tokens.old)) result (ahead tokens.new) }
    ensures low { IfOk result (λ h. head_height (head_of h) ≤ 200) }
{
    let ParsedItems { members: index, .. } = index;
    if tokens.eat(TokenKind::Equal) {
        let Parsed { tree: value, .. } = parse(alloc, tokens, DEPTH, Rule::Expression)?;
        let name = Items::from_slice(alloc, name)?;
        return Ok(Head::Whole(Simple {
            statement: Statement::Put {
                name,
                index,
                value: value.into_inner(),
            },
        }));
    }
    let op = assigned(tokens)?;
    let Parsed { tree: value, .. } = parse(alloc, tokens, DEPTH, Rule::Expression)?;
    let name = Items::from_slice(alloc, name)?;
    Ok(Head::Whole(Simple {
        statement: Statement::UpdateAt {
            name,
            index,
            op,
            value: value.into_inner(),
        },
    }))
}

/// Behind a name.
#[tactic(auto, unfolding(crate::specs::ParsingHeads::named))]
fn named(alloc: Global, tokens: &mut Cursor<'_>, name: &[u8]) -> Result<Head, ParseEnd>
    ensures read { Reads head_of (spec.named name.now (ahead tokens.old)) result (ahead tokens.new) }
    ensures low { IfOk result (λ h. head_height (head_of h) ≤ 200) }
{
    if tokens.eat(TokenKind::Equal) {
        return Ok(binding(alloc, tokens, name)?);
    }
    if !tokens.eat(TokenKind::LeftBracket) {
        return Ok(updating(alloc, tokens, name)?);
    }
    let grammar = Grammar {
        alloc,
        depth: DEPTH,
        parse,
    };
    let index = grammar.items(tokens)?;
    Ok(putting(alloc, tokens, name, index)?)
}

/// The assigning operator in front.
#[tactic(auto, unfolding(crate::specs::ParsingHeads::assigned))]
fn assigned(tokens: &mut Cursor<'_>) -> Result<Arith, ParseEnd>
    ensures { Reads same (spec.assigned (ahead tokens.old)) result (ahead tokens.new) }
{
    let Some(op) = tokens.assigning() else {
        return Err(ParseEnd::Syntax);
    };
    tokens.advance();
    Ok(op)
}
