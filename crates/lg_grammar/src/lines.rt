//! What one line holds.

ghost use Rattle.std.specs.Prelude.{◌≡◌, ◌<◌, ◌≤◌, ◌^◌, ◌==◌, ℕ, length, IfOk, IfErr, IfSome, IfNone};
ghost use Rattle.std.specs.List.{prefix_len};
ghost use Rattle.lg_grammar.specs.Lines.{IsAtDepth, HoldsFound, found_nodes, EndsLine, begins_blank};

use crate::ends::ScriptEnd;
use lg_lex::{LexEnd, is_blank, lex_line};
use lg_parse::{ParseEnd, as_terminals, read_head};
use lg_tree::Head;
use std::alloc::Global;

/// How many spaces indent a line by one block more.
const INDENT: usize = 4;

/// A line may stand in so many blocks.
const MAX_DEPTH: usize = 16;

/// How many blocks the line with this number stands in and what it holds, or `None` where it is
/// skipped.
pub(crate) fn read_line(
    alloc: Global,
    number: u64,
    line: &[u8],
) -> Result<Option<(usize, Head)>, ScriptEnd>
    requires { length line.now < 2 ^ 32 }
    ensures ok { IfOk result (HoldsFound line.now) }
    ensures small { IfOk result (λ found. found_nodes found ≤ length line.now) }
    ensures end { IfErr result (EndsLine number line.now) }
{
    let tokens = match lex_line(alloc, line) {
        Ok(tokens) => tokens,
        Err(LexEnd::Fault { .. }) => return Err(ScriptEnd::Syntax { line: number }),
        Err(LexEnd::NoMemory) => return Err(ScriptEnd::NoMemory),
    };
    if tokens.is_empty() {
        return Ok(None);
    }
    let Some(depth) = depth_of(line) else {
        return Err(ScriptEnd::Syntax { line: number });
    };
    let Ok(terminals) = as_terminals(alloc, line, &tokens) else {
        return Err(ScriptEnd::NoMemory);
    };
    match read_head(alloc, &terminals) {
        Ok(head) => Ok(Some((depth, head))),
        Err(ParseEnd::Syntax) => Err(ScriptEnd::Syntax { line: number }),
        Err(ParseEnd::NoMemory) => Err(ScriptEnd::NoMemory),
    }
}

/// How many blocks the indentation of a line stands for. `None` where it has a tab, where its spaces
/// make no whole blocks, and where they make too many.
fn depth_of(line: &[u8]) -> Option<usize>
    ensures some { IfSome result (IsAtDepth line.now) }
    ensures none { IfNone result ((depth : ℕ) → IsAtDepth line.now depth → ⊥) }
{
    let spaces = spaces_in_front(line);
    if begins_blank(&line[spaces..]) {
        return None;
    }
    if spaces % INDENT != 0 || spaces / INDENT > MAX_DEPTH {
        return None;
    }
    Some(spaces / INDENT)
}

/// How many spaces stand in front.
fn spaces_in_front(line: &[u8]) -> usize
    ensures run { result ≡ prefix_len (λ b. b == 32) line.now }
    ensures within { result ≤ length line.now }
{
    line.iter().take_while(|b| **b == b' ').count()
}

/// Whether a blank stands in front.
fn begins_blank(rest: &[u8]) -> bool
    ensures { result ≡ begins_blank rest.now }
{
    match rest.first() {
        Some(byte) => is_blank(*byte),
        None => false,
    }
}
