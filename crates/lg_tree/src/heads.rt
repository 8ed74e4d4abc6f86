//! What a line holds by itself.

ghost use Rattle.lg_tree.specs.Heads.{IsSimple, IsSimple-prop};
ghost use Rattle.lg_tree.specs.View.{statement_of};

use crate::trees::{Expr, Statement};
use sqlite_items::Items;

/// What the first line of a statement holds, which is all of it where the statement has no block.
#[derive(Drop)]
pub enum Head {
    /// A whole statement.
    Whole(Simple),

    /// `for name in range(to):` or `for name in range(from, to):`
    For {
        /// The name of the loop's variable.
        name: Items<u8>,
        /// Its first value, 0 where it is left out.
        from: Option<Expr>,
        /// What it stays below.
        to: Expr,
    },
}

/// A statement without a block, so any but a loop.
#[derive(Drop)]
pub struct Simple {
    /// The statement.
    pub statement: Statement,
    ghost simple: { IsSimple (statement_of statement) } by { IsSimple-prop (statement_of statement) },
}
