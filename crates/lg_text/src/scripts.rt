//! The canonical text of a script.
ghost use Rattle.std.specs.Prelude.{◌≡◌, ◌++◌, ◌*◌, ℕ, suc, codes, replicate, OnOk, IfOk};
ghost use Rattle.lg_text.specs.Text as spec;
ghost use Rattle.lg_text.specs.Words as words;
ghost use Rattle.lg_tree.specs.View.{tree_of, maybe_of, statement_of, lines_of, script_of};

use crate::expressions::{put, write_expr, write_index};
use crate::words::arith_text;
use lg_outside::NoMemory;
use lg_tree::{Arith, Expr, Line, Script, Statement};
use std::alloc::{AllocError, Global};

/// The canonical text of a script: one line a statement, 4 spaces for each level of blocks, each
/// line ended by byte 10.
///
/// # Errors
///
/// `NoMemory` where there is no memory for the text.
pub fn text_of(alloc: Global, script: &Script) -> Result<Vec<u8>, NoMemory>
    ensures { IfOk result (λ text. text.items ≡ spec.script_text (script_of script.now)) }
{
    let mut out = Vec::new(alloc);
    write_lines(alloc, &mut out, b"", script.lines.as_slice())?;
    Ok(out)
}

// Appends lines of the depth that has this indentation.
#[cycle(lines)]
fn write_lines(
    alloc: Global,
    out: &mut Vec<u8>,
    indent: &[u8],
    lines: &[Line],
) -> Result<(), AllocError>
    ensures { OnOk result ((d : ℕ) → indent.now ≡ replicate (4 * d) 32
        → out.new.items ≡ out.old.items ++ spec.lines_text d (lines_of lines.now)) }
{
    for line in lines {
        put(out, indent)?;
        write_head(out, &line.statement)?;
        put(out, b"\n")?;
        write_block(alloc, out, indent, &line.statement)?;
    }
    Ok(())
}

// Appends the lines of a statement's block, if it has one: they are one level deeper.
#[cycle(lines)]
fn write_block(
    alloc: Global,
    out: &mut Vec<u8>,
    indent: &[u8],
    statement: &Statement,
) -> Result<(), AllocError>
    ensures { OnOk result ((d : ℕ) → indent.now ≡ replicate (4 * d) 32
        → out.new.items ≡ out.old.items ++ spec.block_text d (statement_of statement.now)) }
{
    match statement {
        Statement::For { body, .. } => {
            let deeper = deeper(alloc, indent)?;
            write_lines(alloc, out, deeper.as_slice(), body.as_slice())
        }
        _ => Ok(()),
    }
}

// The indentation of one level more.
fn deeper(alloc: Global, indent: &[u8]) -> Result<Vec<u8>, AllocError>
    ensures { IfOk result (λ deeper. (d : ℕ) → indent.now ≡ replicate (4 * d) 32
        → deeper.items ≡ replicate (4 * suc d) 32) }
{
    let mut deeper = Vec::new(alloc);
    put(&mut deeper, indent)?;
    put(&mut deeper, b"    ")?;
    Ok(deeper)
}

// Appends the line of a statement, without its indentation and its end.
fn write_head(out: &mut Vec<u8>, statement: &Statement) -> Result<(), AllocError>
    ensures { OnOk result (out.new.items
        ≡ out.old.items ++ spec.head_text (statement_of statement.now)) }
{
    match statement {
        Statement::Bind { name, value } => {
            put(out, name.as_slice())?;
            put(out, b" = ")?;
            write_expr(out, value)
        }
        Statement::Update { name, op, value } => {
            put(out, name.as_slice())?;
            put_assigning(out, *op)?;
            write_expr(out, value)
        }
        Statement::Put { name, index, value } => {
            put(out, name.as_slice())?;
            write_index(out, index.as_slice())?;
            put(out, b" = ")?;
            write_expr(out, value)
        }
        Statement::UpdateAt {
            name,
            index,
            op,
            value,
        } => {
            put(out, name.as_slice())?;
            write_index(out, index.as_slice())?;
            put_assigning(out, *op)?;
            write_expr(out, value)
        }
        Statement::Print { value } => {
            put(out, b"print(")?;
            write_expr(out, value)?;
            put(out, b")")
        }
        Statement::For { name, from, to, .. } => {
            put(out, b"for ")?;
            put(out, name.as_slice())?;
            put(out, b" in range(")?;
            write_bounds(out, from, to)?;
            put(out, b"):")
        }
        Statement::Load { name, file } => {
            put(out, name.as_slice())?;
            put(out, b" = load(")?;
            put(out, file.as_slice())?;
            put(out, b")")
        }
        Statement::Save { file, value } => {
            put(out, b"save(")?;
            put(out, file.as_slice())?;
            put(out, b", ")?;
            write_expr(out, value)?;
            put(out, b")")
        }
    }
}

// Appends the bounds of a loop.
fn write_bounds(out: &mut Vec<u8>, from: &Option<Expr>, to: &Expr) -> Result<(), AllocError>
    ensures { OnOk result (out.new.items
        ≡ out.old.items ++ spec.bounds_text (maybe_of from.now) (tree_of to.now)) }
{
    match from {
        Some(from) => {
            write_expr(out, from)?;
            put(out, b", ")?;
            write_expr(out, to)
        }
        None => write_expr(out, to),
    }
}

// Appends an assigning operator with a space on each side.
fn put_assigning(out: &mut Vec<u8>, op: Arith) -> Result<(), AllocError>
    ensures { OnOk result (out.new.items
        ≡ out.old.items ++ (codes " " ++ (words.arith_text op ++ codes "= "))) }
{
    put(out, b" ")?;
    put(out, arith_text(op))?;
    put(out, b"= ")
}
