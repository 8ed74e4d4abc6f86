//! Blocks that have been read up to some row.

ghost use Rattle.std.specs.Prelude.{◌≡◌, OnOk};
ghost use Rattle.lg_tree.specs.View.{lines_of, statement_of};
ghost use Rattle.lg_blocks.specs.Lines.{with_line};

use crate::ends::FinishEnd;
use lg_tree::{Expr, Head, Line, Simple, Statement};
use sqlite_items::Items;
use std::alloc::{AllocError, Global};
use std::mem;

/// A loop whose block has not ended.
#[derive(Drop)]
pub(crate) struct OpenLoop {
    number: u64,
    name: Items<u8>,
    from: Option<Expr>,
    to: Expr,
    // The lines that stand before it in its own block.
    before: Items<Line>,
}

/// The loops whose blocks have not ended, the outermost first, and the lines so far of the
/// innermost block.
#[derive(Drop)]
pub(crate) struct Unfinished {
    loops: Vec<OpenLoop>,
    lines: Items<Line>,
}

impl Unfinished {
    ghost use Rattle.std.specs.Prelude.{◌≡◌, ◌<◌, ◌≤◌, ◌↔◌, ℕ, suc, None, Err, [], ◌∷◌, ◌++◌, length, IsTrue, IfOk, OnOk};
    ghost use Rattle.lg_tree.specs.HeadView.{head_of};
    ghost use Rattle.lg_tree.specs.Heads.{whole, loop_head};
    ghost use Rattle.lg_tree.specs.Tree.{loop};
    ghost use Rattle.lg_tree.specs.View.{tree_of, maybe_of, lines_of, statement_of};
    ghost use Rattle.lg_blocks.specs.Rows.{row, rows_of, HasLine, IsFull, MayFollow, last_of, IsClosed, IsOpenAt};
    ghost use Rattle.lg_blocks.specs.Lines.{with_line};
    ghost use Rattle.lg_blocks.specs.Unfinished.{AreRead, IsAtEnd, unfinished_rows, last_row};

    /// Nothing has been read.
    pub(crate) fn new(alloc: Global) -> Unfinished
        ensures rows { unfinished_rows result ≡ [] }
        ensures full { AreRead result }
        ensures end { IsAtEnd result }
    {
        Unfinished {
            loops: Vec::new(alloc),
            lines: Items::new(alloc),
        }
    }

    /// Whether a row of this depth may stand behind those that have been read.
    pub(crate) fn may_follow(&self, depth: usize) -> bool
        requires { IsAtEnd self.now }
        ensures { IsTrue result ↔ MayFollow (last_row self.now) depth }
    {
        if self.lines.is_empty() {
            depth == self.loops.len()
        } else {
            depth <= self.loops.len()
        }
    }

    /// Reads one row more, which may stand there.
    pub(crate) fn add(
        &mut self,
        alloc: Global,
        number: u64,
        depth: usize,
        head: Head,
    ) -> Result<(), AllocError>
        requires full { AreRead self.old }
        requires end { IsAtEnd self.old }
        requires may { MayFollow (last_row self.old) depth }
        ensures rows { OnOk result (unfinished_rows self.new
            ≡ unfinished_rows self.old ++ row number depth (head_of head) ∷ []) }
        ensures full { OnOk result (AreRead self.new) }
        ensures end { OnOk result (IsAtEnd self.new) }
    {
        self.close(depth)?;
        match head {
            Head::Whole(simple) => {
                self.add_simple(number, simple)?;
                Ok(())
            }
            Head::For { name, from, to } => {
                self.open_loop(alloc, number, name, from, to)?;
                Ok(())
            }
        }
    }

    /// Reads a whole statement as the last line of the innermost block.
    fn add_simple(&mut self, number: u64, simple: Simple) -> Result<(), AllocError>
        requires { AreRead self.old }
        ensures rows { OnOk result (unfinished_rows self.new ≡ unfinished_rows self.old
            ++ row number (length self.old.loops.items)
            (whole (statement_of simple.statement)) ∷ []) }
        ensures full { OnOk result (AreRead self.new) }
        ensures end { OnOk result (IsAtEnd self.new) }
    {
        let Simple { statement } = simple;
        push_line(&mut self.lines, number, statement)?;
        Ok(())
    }

    /// Reads the first line of a loop as the last line of the innermost block.
    fn open_loop(
        &mut self,
        alloc: Global,
        number: u64,
        name: Items<u8>,
        from: Option<Expr>,
        to: Expr,
    ) -> Result<(), AllocError>
        requires { AreRead self.old }
        ensures rows { OnOk result (unfinished_rows self.new ≡ unfinished_rows self.old
            ++ row number (length self.old.loops.items)
            (loop_head name (maybe_of from) (tree_of to)) ∷ []) }
        ensures full { OnOk result (AreRead self.new) }
        ensures end { OnOk result (IsAtEnd self.new) }
    {
        let before = mem::replace(&mut self.lines, Items::new(alloc));
        self.loops.push(OpenLoop {
            number,
            name,
            from,
            to,
            before,
        })?;
        Ok(())
    }

    /// Ends loops until so many are open.
    fn close(&mut self, depth: usize) -> Result<(), AllocError>
        requires full { AreRead self.old }
        requires begun { depth < length self.old.loops.items → HasLine (lines_of self.old.lines) }
        requires deep { depth ≤ length self.old.loops.items }
        ensures rows { OnOk result (unfinished_rows self.new ≡ unfinished_rows self.old) }
        ensures full { OnOk result (AreRead self.new) }
        ensures deep { OnOk result (length self.new.loops.items ≡ depth) }
    {
        while self.loops.len() > depth {
            self.end_last()?;
        }
        Ok(())
    }

    /// Ends the innermost loop.
    fn end_last(&mut self) -> Result<(), AllocError>
        requires full { AreRead self.old }
        requires begun { HasLine (lines_of self.old.lines) }
        requires inside { 0 < length self.old.loops.items }
        ensures rows { OnOk result (unfinished_rows self.new ≡ unfinished_rows self.old) }
        ensures full { OnOk result (AreRead self.new) }
        ensures begun { OnOk result (HasLine (lines_of self.new.lines)) }
        ensures fewer { OnOk result (length self.old.loops.items
            ≡ suc (length self.new.loops.items)) }
    {
        let ended = self.loops.pop().unwrap();
        self.end(ended)?;
        Ok(())
    }

    /// Puts a loop that has ended behind the lines before it, with the innermost lines as its block.
    fn end(&mut self, ended: OpenLoop) -> Result<(), AllocError>
        ensures loops { self.new.loops.items ≡ self.old.loops.items }
        ensures lines { OnOk result (lines_of self.new.lines
            ≡ with_line (lines_of ended.before) ended.number
            (loop ended.name (maybe_of ended.from) (tree_of ended.to)
            (lines_of self.old.lines))) }
    {
        let OpenLoop {
            number,
            name,
            from,
            to,
            before,
        } = ended;
        let body = mem::replace(&mut self.lines, before);
        let statement = Statement::For {
            name,
            from,
            to,
            body,
        };
        push_line(&mut self.lines, number, statement)?;
        Ok(())
    }

    /// The lines of depth 0, after the last row.
    pub(crate) fn finish(mut self) -> Result<Items<Line>, FinishEnd>
        requires full { AreRead self }
        requires end { IsAtEnd self }
        ensures rows { IfOk result (λ lines. rows_of 0 (lines_of lines) ≡ unfinished_rows self) }
        ensures full { IfOk result (λ lines. IsFull (lines_of lines)) }
        ensures closed { IfOk result (λ lines. IsClosed (last_row self)) }
        ensures named { (line : ℕ) → (result ≡ Err (FinishEnd.Open line))
            ↔ IsOpenAt line (last_row self) }
    {
        if self.lines.is_empty() {
            match self.loops.pop() {
                Some(last) => Err(FinishEnd::Open { line: last.number }),
                None => Ok(self.lines),
            }
        } else {
            match self.close(0) {
                Ok(()) => Ok(self.lines),
                Err(_) => Err(FinishEnd::NoMemory),
            }
        }
    }
}

/// Puts a line behind the others.
fn push_line(lines: &mut Items<Line>, number: u64, statement: Statement) -> Result<(), AllocError>
    ensures { OnOk result (lines_of lines.new
        ≡ with_line (lines_of lines.old) number (statement_of statement)) }
{
    lines.push(Line { number, statement })?;
    Ok(())
}
