//! Nodes of trees, which are refused where they are too high.

ghost use Rattle.std.specs.Prelude.{◌≡◌, ◌≤◌, suc, Some};
ghost use Rattle.lg_tree.specs.Measures.{height as tree_height, shape_height, list_height};
ghost use Rattle.lg_tree.specs.View.{tree_of, shape_of, list_of};
ghost use Rattle.lg_parse.specs.Parsing as spec;
ghost use Rattle.lg_parse.specs.Reading.{Gives};
ghost use Rattle.lg_parse.specs.Parts.{parsed_tree, parsed_shape, parsed_list};

use crate::ends::ParseEnd;
use crate::parsed::{Parsed, ParsedList, ParsedShape};
use lg_tree::{Expr, ListExpr, ShapeExpr};
use sqlite_items::Boxed;
use std::alloc::Global;

/// The greatest height of a tree.
pub const HEIGHT_LIMIT: u64 = 200;

/// A tree without parts.
pub fn leaf(alloc: Global, tree: Expr) -> Result<Parsed, ParseEnd>
    requires { tree_height (tree_of tree) ≡ 0 }
    ensures { Gives parsed_tree (Some (tree_of tree)) result }
{
    let tree = Boxed::new(alloc, tree)?;
    Ok(Parsed { tree, height: 0 })
}

/// A tree whose highest part has this height.
pub fn node(alloc: Global, tree: Expr, highest: u64) -> Result<Parsed, ParseEnd>
    requires highest { tree_height (tree_of tree) ≡ suc highest }
    requires low { highest ≤ 200 }
    ensures { Gives parsed_tree (spec.low tree_height (tree_of tree)) result }
{
    let tree = Boxed::new(alloc, tree)?;
    if highest >= HEIGHT_LIMIT {
        return Err(ParseEnd::Syntax);
    }
    Ok(Parsed {
        tree,
        height: highest + 1,
    })
}

/// Extents whose highest one has this height.
pub fn shape_node(shape: ShapeExpr, highest: u64) -> Result<ParsedShape, ParseEnd>
    requires highest { shape_height (shape_of shape) ≡ suc highest }
    requires low { highest ≤ 200 }
    ensures { Gives parsed_shape (spec.low shape_height (shape_of shape)) result }
{
    if highest >= HEIGHT_LIMIT {
        return Err(ParseEnd::Syntax);
    }
    Ok(ParsedShape {
        shape,
        height: highest + 1,
    })
}

/// A list whose highest part has this height.
pub fn list_node(list: ListExpr, highest: u64) -> Result<ParsedList, ParseEnd>
    requires highest { list_height (list_of list) ≡ suc highest }
    requires low { highest ≤ 200 }
    ensures { Gives parsed_list (spec.low list_height (list_of list)) result }
{
    if highest >= HEIGHT_LIMIT {
        return Err(ParseEnd::Syntax);
    }
    Ok(ParsedList {
        list,
        height: highest + 1,
    })
}
