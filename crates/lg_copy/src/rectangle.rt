ghost use Rattle.std.specs.Prelude.{◌≡◌, ℕ, List};
ghost use Rattle.lg_space.specs.Rectangle.{IsIn};
ghost use Rattle.lg_tile.specs.Sections.{Covers};
ghost use Rattle.lg_tile.specs.Tile.{tile_rect};
ghost use Rattle.lg_copy.specs.Leading.{element_at};

use crate::through::{copy_through, identity};
use lg_space::AnyRect;
use lg_tile::{Tile, TileElem};

/// Copies the elements at the indices of a rectangle from one tile to another (NumPy's reference,
/// "numpy.copyto"). All other elements stay. It takes no memory.
pub fn copy_rect<T: TileElem>(from: &Tile<T>, to: &mut Tile<T>, rect: &AnyRect)
    requires from { Covers (tile_rect from.now) rect.now }
    requires to { Covers (tile_rect to.old) rect.now }
    ensures rect { tile_rect to.new ≡ tile_rect to.old }
    ensures copied { (index : List ℕ) → IsIn rect.now index
        → element_at to.new index ≡ element_at from.now index }
    ensures kept { (index : List ℕ) → IsIn (tile_rect to.old) index → ¬ IsIn rect.now index
        → element_at to.new index ≡ element_at to.old index }
{
    let same = identity(rect);
    copy_through(from, &same, to, &same, rect);
}
