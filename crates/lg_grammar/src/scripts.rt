//! From the bytes of a script to its statements.

ghost use Rattle.std.specs.Prelude.{◌≡◌, ◌+◌, ◌<◌, ◌≤◌, ◌^◌, ◌∷◌, not, ◌==◌, ℕ, None, length, slice_range, sum_by, IfOk, IfErr, OnOk};
ghost use Rattle.std.specs.List.{prefix_len};
ghost use Rattle.lg_lex.specs.Bytes.{without_return};
ghost use Rattle.lg_tree.specs.Measures.{line_nodes};
ghost use Rattle.lg_tree.specs.Tree.{line_trees};
ghost use Rattle.lg_tree.specs.View.{script_of};
ghost use Rattle.lg_blocks.specs.Reader.{rows_read};
ghost use Rattle.lg_blocks.specs.Rows.{rows_of, IsFull, Follows};
ghost use Rattle.lg_grammar.specs.Script.{Spells};
ghost use Rattle.lg_grammar.specs.Lines.{lines_from, AddsLine, EndsAdding, EndsBlocks};
ghost use Rattle.lg_grammar.specs.Ends.{ScriptTree, SpellsNone, NamesFirstBad};

use crate::ends::ScriptEnd;
use crate::lines::read_line;
use lg_blocks::{FinishEnd, PushEnd, Reader};
use lg_lex::without_return;
use lg_tree::Script;
use std::alloc::Global;

/// The script that the bytes spell. Each line is skipped or holds one statement.
///
/// # Errors
///
/// `Syntax` with the number of the first bad line where the bytes spell no script, and `NoMemory`
/// where there is no memory for it.
pub fn read_script(alloc: Global, bytes: &[u8]) -> Result<Script, ScriptEnd>
    requires { length bytes.now < 2 ^ 32 }
    ensures script { IfOk result (λ script. Spells bytes.now (script_of script)) }
    ensures only { IfOk result (λ script. (other : ScriptTree) → Spells bytes.now other
        → other ≡ script_of script) }
    ensures small { IfOk result (λ script.
        sum_by line_nodes (script_of script) ≤ length bytes.now) }
    ensures none { IfErr result (SpellsNone bytes.now) }
    ensures first_bad { IfErr result (NamesFirstBad bytes.now) }
{
    let mut reader = Reader::new(alloc);
    let mut number = 0;
    let mut start = 0;
    while start <= bytes.len() {
        number += 1;
        let end = line_end(bytes, start);
        let line = without_return(&bytes[start..end]);
        add_line(alloc, &mut reader, number, line)?;
        start = end + 1;
    }
    Ok(blocks(reader)?)
}

/// The place where the line ends that begins at `start`.
fn line_end(bytes: &[u8], start: usize) -> usize
    requires { start ≤ length bytes.now }
    ensures after { start ≤ result }
    ensures within { result ≤ length bytes.now }
    ensures cut { lines_from bytes.now start
        ≡ without_return (slice_range bytes.now start result) ∷ lines_from bytes.now (result + 1) }
{
    start + line_length(&bytes[start..])
}

/// How many bytes stand before the first line's end.
fn line_length(rest: &[u8]) -> usize
    ensures run { result ≡ prefix_len (λ b. not (b == 10)) rest.now }
    ensures within { result ≤ length rest.now }
{
    rest.iter().take_while(|b| **b != b'\n').count()
}

/// Reads the line with this number behind those before it.
fn add_line(alloc: Global, reader: &mut Reader, number: u64, line: &[u8]) -> Result<(), ScriptEnd>
    requires { length line.now < 2 ^ 32 }
    ensures ok { OnOk result (AddsLine number line.now (rows_read reader.old)
        (rows_read reader.new)) }
    ensures end { IfErr result (EndsAdding number line.now (rows_read reader.old)) }
{
    let Some((depth, head)) = read_line(alloc, number, line)? else {
        return Ok(());
    };
    match reader.push(number, depth, head) {
        Ok(()) => Ok(()),
        Err(PushEnd::Place) => Err(ScriptEnd::Syntax { line: number }),
        Err(PushEnd::NoMemory) => Err(ScriptEnd::NoMemory),
    }
}

/// The script whose lines were all read.
fn blocks(reader: Reader) -> Result<Script, ScriptEnd>
    ensures rows { IfOk result (λ script.
        rows_of 0 (line_trees (script_of script)) ≡ rows_read reader) }
    ensures full { IfOk result (λ script. IsFull (line_trees (script_of script))) }
    ensures end { IfErr result (EndsBlocks (rows_read reader)) }
    ensures ordered { Follows None (rows_read reader) }
{
    match reader.finish() {
        Ok(lines) => Ok(Script { lines }),
        Err(FinishEnd::Open { line }) => Err(ScriptEnd::Syntax { line }),
        Err(FinishEnd::NoMemory) => Err(ScriptEnd::NoMemory),
    }
}
