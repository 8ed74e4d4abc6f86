//! The reader of blocks.

ghost use Rattle.lg_blocks.specs.Unfinished.{AreRead, AreRead-prop, IsAtEnd, IsAtEnd-prop};

use crate::ends::{FinishEnd, PushEnd};
use crate::unfinished::Unfinished;
use lg_tree::{Head, Line};
use sqlite_items::Items;
use std::alloc::Global;

/// Reads the rows of a script one by one, and gives its blocks at the end.
#[derive(Drop)]
pub struct Reader {
    alloc: Global,
    read: Unfinished,
    ghost full: { AreRead read } by { AreRead-prop read },
    ghost end: { IsAtEnd read } by { IsAtEnd-prop read },
}

impl Reader {
    ghost use Rattle.std.specs.Prelude.{◌≡◌, ◌↔◌, ℕ, None, Err, [], ◌∷◌, ◌++◌, IfOk, OnOk};
    ghost use Rattle.lg_tree.specs.HeadView.{head_of};
    ghost use Rattle.lg_tree.specs.View.{lines_of};
    ghost use Rattle.lg_blocks.specs.Rows.{row, rows_of, IsFull, MayFollow, Follows, last_of, IsClosed, IsOpenAt};
    ghost use Rattle.lg_blocks.specs.Reader.{rows_read};

    /// A reader that has read nothing.
    pub fn new(alloc: Global) -> Reader
        ensures { rows_read result ≡ [] }
    {
        Reader {
            alloc,
            read: Unfinished::new(alloc),
        }
    }

    /// Reads one row more: its line's number, how many blocks it stands in, and what it holds.
    /// Where there is no memory for it, what was read is lost.
    ///
    /// # Errors
    ///
    /// `Place` where a row of this depth may not stand behind those that were read, which stay as
    /// they were, and `NoMemory`.
    pub fn push(&mut self, number: u64, depth: usize, head: Head) -> Result<(), PushEnd>
        ensures rows { OnOk result (rows_read self.new
            ≡ rows_read self.old ++ row number depth (head_of head) ∷ []) }
        ensures may { OnOk result (MayFollow (last_of None (rows_read self.old)) depth) }
        ensures place { (result ≡ Err PushEnd.Place)
            ↔ (MayFollow (last_of None (rows_read self.old)) depth → ⊥) }
        ensures same { result ≡ Err PushEnd.Place → rows_read self.new ≡ rows_read self.old }
        ensures lost { result ≡ Err PushEnd.NoMemory → rows_read self.new ≡ [] }
        ensures ordered { Follows None (rows_read self.new) }
    {
        if !self.read.may_follow(depth) {
            return Err(PushEnd::Place);
        }
        match self.read.add(self.alloc, number, depth, head) {
            Ok(()) => Ok(()),
            Err(_) => {
                self.read = Unfinished::new(self.alloc);
                Err(PushEnd::NoMemory)
            }
        }
    }

    /// The lines of depth 0 with all blocks in them. Each loop has a statement.
    ///
    /// # Errors
    ///
    /// `Open` with the number of the last row where that is the first line of a loop, and
    /// `NoMemory`.
    pub fn finish(self) -> Result<Items<Line>, FinishEnd>
        ensures rows { IfOk result (λ lines. rows_of 0 (lines_of lines) ≡ rows_read self) }
        ensures full { IfOk result (λ lines. IsFull (lines_of lines)) }
        ensures closed { IfOk result (λ lines. IsClosed (last_of None (rows_read self))) }
        ensures named { (line : ℕ) → (result ≡ Err (FinishEnd.Open line))
            ↔ IsOpenAt line (last_of None (rows_read self)) }
        ensures ordered { Follows None (rows_read self) }
    {
        self.read.finish()
    }
}
