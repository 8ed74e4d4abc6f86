//! Scripts as trees.
#![tactic(auto)]

mod examples;
mod heads;
mod kinds;
mod trees;

pub use examples::{
    heights_by_example, items_by_example, nodes_by_example, statement_heights_by_example,
    statement_nodes_by_example,
};
pub use heads::{Head, Simple};
pub use kinds::{Arith, Red, ScanCall};
pub use trees::{Expr, Item, Line, ListExpr, Script, ShapeExpr, Statement};
