ghost use Rattle.std.specs.Prelude.{◌≡◌, ℕ, List};
ghost use Rattle.lg_space.specs.Rectangle.{IsIn};
ghost use Rattle.lg_tile.specs.Tiles.{dtype_of, number_at, rect_of};
ghost use Rattle.lg_xform.specs.Chains.{mapped};
ghost use Rattle.lg_xform.specs.Footprints.{LeadsTo};
ghost use Rattle.lg_copy.specs.Leading.{LeadsInto, RepeatsNone};

use crate::through::{copy_any, identity};
use lg_tile::AnyTile;
use lg_xform::Chain;

/// Writes the elements of a tile through a view of a root: each to the root index to which the view
/// leads. All other elements of the root's tile stay. It takes no memory.
pub fn scatter(tile: &AnyTile, chain: &Chain, root: &mut AnyTile)
    requires dtype { dtype_of tile.now ≡ dtype_of root.old }
    requires leads { LeadsInto chain.now (rect_of tile.now) (rect_of root.old) }
    requires once { RepeatsNone (mapped chain.now) (rect_of tile.now) }
    ensures dtype { dtype_of root.new ≡ dtype_of root.old }
    ensures rect { rect_of root.new ≡ rect_of root.old }
    ensures written { (index : List ℕ) → IsIn (rect_of tile.now) index
        → number_at root.new (mapped chain.now index) ≡ number_at tile.now index }
    ensures kept { (at : List ℕ) → IsIn (rect_of root.old) at
        → ¬ LeadsTo (mapped chain.now) (rect_of tile.now) at
        → number_at root.new at ≡ number_at root.old at }
{
    let rect = *tile.rect();
    copy_any(tile, &identity(&rect), root, chain, &rect);
}
