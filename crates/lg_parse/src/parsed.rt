//! What the parser makes, with its height.

ghost use Rattle.std.specs.Prelude.{◌≡◌, ◌≤◌};
ghost use Rattle.lg_tree.specs.Measures.{height as tree_height, shape_height, list_height, lists_height, item_height, items_height, trees_height};
ghost use Rattle.lg_tree.specs.View.{tree_of, shape_of, list_of, item_of, trees_of, items_of, lists_of};

use lg_tree::{Expr, Item, ListExpr, ShapeExpr};
use sqlite_items::{Boxed, Items};

/// An expression with its height.
#[derive(Drop)]
pub struct Parsed {
    /// In a box, since each rule passes it on.
    pub tree: Boxed<Expr>,
    pub height: u64,
    ghost measured: { height ≡ tree_height (tree_of tree) },
    ghost low: { height ≤ 200 },
}

/// The extents of an array with their height.
#[derive(Drop)]
pub struct ParsedShape {
    pub shape: ShapeExpr,
    pub height: u64,
    ghost measured: { height ≡ shape_height (shape_of shape) },
    ghost low: { height ≤ 200 },
}

/// An item of an index with its height.
#[derive(Drop)]
pub struct ParsedItem {
    pub item: Item,
    pub height: u64,
    ghost measured: { height ≡ item_height (item_of item) },
    ghost low: { height ≤ 200 },
}

/// A list, or an expression in it, with its height.
#[derive(Drop)]
pub struct ParsedList {
    pub list: ListExpr,
    pub height: u64,
    ghost measured: { height ≡ list_height (list_of list) },
    ghost low: { height ≤ 200 },
}

/// Extents, with the height of the highest of them.
#[derive(Drop)]
pub struct ParsedTrees {
    pub members: Items<Expr>,
    pub height: u64,
    ghost measured: { height ≡ trees_height (trees_of members) },
    ghost low: { height ≤ 200 },
}

/// The items of an index, with the height of the highest of them.
#[derive(Drop)]
pub struct ParsedItems {
    pub members: Items<Item>,
    pub height: u64,
    ghost measured: { height ≡ items_height (items_of members) },
    ghost low: { height ≤ 200 },
}

/// What stands in a list, with the height of the highest of it.
#[derive(Drop)]
pub struct ParsedLists {
    pub members: Items<ListExpr>,
    pub height: u64,
    ghost measured: { height ≡ lists_height (lists_of members) },
    ghost low: { height ≤ 200 },
}
