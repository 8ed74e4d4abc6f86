//! Whether what is copied meets what the calls ask.

ghost use Rattle.std.specs.Prelude.{◌≡◌, ℕ, List, map, slice_get, Some, false, IsTrue};
ghost use Rattle.lg_space.specs.Partition.{Covers, Disjoint};
ghost use Rattle.lg_space.specs.Rectangle.{IsIn};
ghost use Rattle.lg_shape.specs.Shapes.{whole};
ghost use Rattle.lg_tile.specs.declared.any_tile.AnyTile.{AnyTile};
ghost use Rattle.lg_tile.specs.Sections.{Covers as HoldsAll};
ghost use Rattle.lg_tile.specs.Tiles.{rect_of};
ghost use Rattle.lg_xform.specs.Chains.{mapped, shape_of};
ghost use Rattle.lg_xform.specs.Footprints.{LeadsTo};
ghost use Rattle.lg_copy.specs.Leading.{AreAlike, LeadsInto, RepeatsNone};

use lg_space::{AnyRect, Point};
use lg_tile::AnyTile;
use lg_xform::Chain;

// Whether all parts have one element type.
pub fn are_alike(parts: &[AnyTile]) -> bool
    ensures { IsTrue result → AreAlike parts.now }
{
    for part in parts {
        if part.dtype() != parts[0].dtype() {
            return false;
        }
    }
    true
}

// Whether no index is in two parts.
pub fn are_apart(parts: &[AnyTile]) -> bool
    ensures { IsTrue result → Disjoint (map rect_of parts.now) }
{
    for j in 0..parts.len() {
        for k in 0..j {
            if meet(parts[j].rect(), parts[k].rect()) {
                return false;
            }
        }
    }
    true
}

// Whether two rectangles have an index in common.
fn meet(first: &AnyRect, second: &AnyRect) -> bool
    ensures { result ≡ false → (index : List ℕ) → IsIn first.now index → ¬ IsIn second.now index }
{
    first.axes() == second.axes() && first.intersect(second).volume() != 0
}

// Whether a part has each index to which the indices of a rectangle lead.
pub fn are_held(parts: &[AnyTile], chain: &Chain, rect: &AnyRect) -> bool
    requires { HoldsAll (whole (shape_of chain.now)) rect.now }
    ensures { IsTrue result → Covers (map rect_of parts.now) (LeadsTo (mapped chain.now) rect.now) }
{
    for k in 0..rect.volume() {
        if !is_held(parts, &chain.map_point(&rect.unravel(k))) {
            return false;
        }
    }
    true
}

// Whether a part has this index.
fn is_held(parts: &[AnyTile], at: &Point) -> bool
    ensures { IsTrue result → (k : ℕ) × (part : AnyTile) × (slice_get parts.now k ≡ Some part)
        × IsIn (rect_of part) at.now }
{
    for part in parts {
        if part.rect().contains(at) {
            return true;
        }
    }
    false
}

// Whether the indices of a rectangle lead into a tile.
pub fn leads_into(chain: &Chain, rect: &AnyRect, tile: &AnyRect) -> bool
    requires { HoldsAll (whole (shape_of chain.now)) rect.now }
    ensures { IsTrue result → LeadsInto chain.now rect.now tile.now }
{
    for k in 0..rect.volume() {
        if !tile.contains(&chain.map_point(&rect.unravel(k))) {
            return false;
        }
    }
    true
}

// Whether no two indices of a rectangle lead to one place of a tile.
pub fn repeats_none(chain: &Chain, rect: &AnyRect, tile: &AnyRect) -> bool
    requires { LeadsInto chain.now rect.now tile.now }
    ensures { IsTrue result → RepeatsNone (mapped chain.now) rect.now }
{
    for j in 0..rect.volume() {
        let place = tile.ravel(&chain.map_point(&rect.unravel(j)));
        for k in 0..j {
            if tile.ravel(&chain.map_point(&rect.unravel(k))) == place {
                return false;
            }
        }
    }
    true
}
