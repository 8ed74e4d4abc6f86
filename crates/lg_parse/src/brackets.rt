//! How deep the brackets of a line nest.

ghost use Rattle.std.specs.Prelude.{◌≡◌, ◌≤◌};
ghost use Rattle.std.specs.Bool.{OnTrue, OnFalse};
ghost use Rattle.lg_parse.specs.Brackets as spec;
ghost use Rattle.lg_parse.specs.Brackets.{NestsAtMost, MAX_NESTING};
ghost use Rattle.lg_parse.specs.Reading.{terminal_of, terminals_view};
ghost use Rattle.lg_parse.specs.Brackets.{opened_by, closed_by};

use crate::terminals::Terminal;
use lg_lex::TokenKind;

/// The greatest number of brackets that may be open.
const NESTING_LIMIT: usize = 64;

/// Whether no more brackets are open at any place than may be.
pub fn is_shallow(terminals: &[Terminal<'_>]) -> bool
    ensures shallow { OnTrue result (NestsAtMost MAX_NESTING (terminals_view terminals.now)) }
    ensures deep { OnFalse result (NestsAtMost MAX_NESTING (terminals_view terminals.now) → ⊥) }
{
    let mut opened = 0;
    let mut closed = 0;
    for terminal in terminals {
        opened += opens(*terminal);
        closed += closes(*terminal);
        if opened > closed + NESTING_LIMIT {
            return false;
        }
    }
    true
}

/// How many brackets the terminal opens.
fn opens(terminal: Terminal<'_>) -> usize
    ensures count { result ≡ opened_by (terminal_of terminal.entry) }
    ensures one { result ≤ 1 }
{
    match terminal {
        Terminal::Sign(TokenKind::LeftParenthesis | TokenKind::LeftBracket) => 1,
        _ => 0,
    }
}

/// How many brackets the terminal closes.
fn closes(terminal: Terminal<'_>) -> usize
    ensures count { result ≡ closed_by (terminal_of terminal.entry) }
    ensures one { result ≤ 1 }
{
    match terminal {
        Terminal::Sign(TokenKind::RightParenthesis | TokenKind::RightBracket) => 1,
        _ => 0,
    }
}
