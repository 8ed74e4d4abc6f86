//! The elements of a view of a root that lies in parts, gathered into a new tile.

ghost use Rattle.std.specs.Prelude.{◌≡◌, ◌<◌, ◌≤◌, ℕ, List, length, map, slice_get, IsTrue, IfOk, IfSome};
ghost use Rattle.lg_space.specs.Partition.{Covers, Disjoint};
ghost use Rattle.lg_space.specs.Rectangle.{IsIn};
ghost use Rattle.lg_space.specs.Stored.{MAX_VOLUME};
ghost use Rattle.lg_shape.specs.Shapes.{size_of};
ghost use Rattle.lg_tile.specs.declared.any_tile.AnyTile.{AnyTile};
ghost use Rattle.lg_tile.specs.Tiles.{dtype_of, number_at, numbers, rect_of};
ghost use Rattle.lg_tile.specs.Sections.{Covers as HoldsAll};
ghost use Rattle.lg_xform.specs.Chains.{inner_of, mapped, root_of, shape_of};
ghost use Rattle.lg_xform.specs.Footprints.{IsTile, LeadsTo};
ghost use Rattle.lg_copy.specs.Leading.{AreAlike, HasParts, IsOfType, LeadsInto};

use crate::appending::append_typed;
use crate::crossed::is_denser;
use crate::through::{copy_any, identity};
use lg_outside::NoMemory;
use lg_space::AnyRect;
use lg_tile::{AnyTile, each};
use lg_xform::Chain;
use std::alloc::Global;

/// The elements of a view of a root at the indices of a rectangle, as a tile of that rectangle. The
/// root's elements lie in parts, and each index of the root that is needed is in one of them. It
/// takes memory once where one part holds all that is needed, and else twice, and the only error is
/// that there is none.
pub fn gather(
    alloc: Global,
    parts: &[AnyTile],
    chain: &Chain,
    rect: &AnyRect,
) -> Result<AnyTile, NoMemory>
    requires some { 0 < length parts.now }
    requires dtype { AreAlike parts.now }
    requires disjoint { Disjoint (map rect_of parts.now) }
    requires tile { IsTile (shape_of chain.now) (inner_of chain.now) rect.now }
    requires root { size_of (root_of chain.now) ≤ MAX_VOLUME }
    requires held { Covers (map rect_of parts.now) (LeadsTo (mapped chain.now) rect.now) }
    ensures dtype { IfOk result (λ out. IsOfType parts.now out) }
    ensures rect { IfOk result (λ out. rect_of out ≡ rect.now) }
    ensures numbers { IfOk result (λ out. (index : List ℕ) (k : ℕ) (part : AnyTile)
        → IsIn rect.now index → slice_get parts.now k ≡ Some part
        → IsIn (rect_of part) (mapped chain.now index)
        → number_at out index ≡ number_at part (mapped chain.now index)) }
{
    let footprint = chain.footprint(rect);
    if let Some(part) = holder(parts, &footprint) {
        return gather_from(alloc, part, chain, rect);
    }
    let joined = join(alloc, parts, &footprint)?;
    gather_from(alloc, &joined, chain, rect)
}

/// The same where one tile has all that is needed of the root. It takes memory once, and the only
/// error is that there is none. The elements are written once, unless they lie crosswise: then the
/// tile is made of zeros first, for a copy by blocks.
pub fn gather_from(
    alloc: Global,
    root: &AnyTile,
    chain: &Chain,
    rect: &AnyRect,
) -> Result<AnyTile, NoMemory>
    requires leads { LeadsInto chain.now rect.now (rect_of root.now) }
    ensures dtype { IfOk result (λ out. dtype_of out ≡ dtype_of root.now) }
    ensures rect { IfOk result (λ out. rect_of out ≡ rect.now) }
    ensures numbers { IfOk result (λ out. (index : List ℕ) → IsIn rect.now index
        → number_at out index ≡ number_at root.now (mapped chain.now index)) }
{
    if is_crosswise(root, chain, rect) {
        let mut out = AnyTile::filled(alloc, root.dtype(), rect, 0)?;
        pull(root, chain, &mut out);
        return Ok(out);
    }
    each!(root, tile => append_typed(alloc, tile, chain, rect))
}

// Whether the elements lie denser along the last axis but one than along the last.
fn is_crosswise(root: &AnyTile, chain: &Chain, rect: &AnyRect) -> bool
    requires { LeadsInto chain.now rect.now (rect_of root.now) }
{
    let axes = rect.ranges().len();
    if axes < 2 || rect.volume() == 0 {
        return false;
    }
    let strides = chain.strides(root.rect(), rect);
    is_denser(strides.axes[axes - 2], strides.axes[axes - 1])
}

// Reads each element of a tile through a view of a root.
fn pull(root: &AnyTile, chain: &Chain, tile: &mut AnyTile)
    requires same { dtype_of root.now ≡ dtype_of tile.old }
    requires leads { LeadsInto chain.now (rect_of tile.old) (rect_of root.now) }
    ensures dtype { dtype_of tile.new ≡ dtype_of tile.old }
    ensures rect { rect_of tile.new ≡ rect_of tile.old }
    ensures numbers { (index : List ℕ) → IsIn (rect_of tile.old) index
        → number_at tile.new index ≡ number_at root.now (mapped chain.now index) }
{
    let rect = *tile.rect();
    copy_any(root, chain, tile, &identity(&rect), &rect);
}

// A part that has all indices of a rectangle, if one has.
fn holder<'a>(parts: &'a [AnyTile], rect: &AnyRect) -> Option<&'a AnyTile>
    ensures part { IfSome result
        (λ part. (k : ℕ) × (slice_get parts.now k ≡ Some part.now)) }
    ensures holds { IfSome result (λ part. HoldsAll (rect_of part.now) rect.now) }
{
    for part in parts {
        if is_within(rect.ranges(), part.rect().ranges()) {
            return Some(part);
        }
    }
    None
}

// Whether each range lies in that of the same axis.
pub(crate) fn is_within(inner: &[(u64, u64)], outer: &[(u64, u64)]) -> bool
    ensures { IsTrue result → HoldsAll outer.now inner.now }
{
    match (inner.split_first(), outer.split_first()) {
        (Some((first, inner)), Some((second, outer))) => {
            second.0 <= first.0 && first.1 <= second.1 && is_within(inner, outer)
        }
        (None, None) => true,
        _ => false,
    }
}

// A tile of a rectangle with what each part has of it.
fn join(alloc: Global, parts: &[AnyTile], rect: &AnyRect) -> Result<AnyTile, NoMemory>
    requires some { 0 < length parts.now }
    requires dtype { AreAlike parts.now }
    requires disjoint { Disjoint (map rect_of parts.now) }
    ensures dtype { IfOk result (λ joined. IsOfType parts.now joined) }
    ensures rect { IfOk result (λ joined. rect_of joined ≡ rect.now) }
    ensures numbers { IfOk result (λ joined. HasParts parts.now (length parts.now) joined) }
{
    let mut joined = AnyTile::filled(alloc, parts[0].dtype(), rect, 0)?;
    for part in parts {
        add_part(part, &mut joined);
    }
    Ok(joined)
}

// Copies from a part all that a tile has in common with it.
fn add_part(part: &AnyTile, joined: &mut AnyTile)
    requires { dtype_of part.now ≡ dtype_of joined.old }
    ensures dtype { dtype_of joined.new ≡ dtype_of joined.old }
    ensures rect { rect_of joined.new ≡ rect_of joined.old }
    ensures copied { (index : List ℕ) → IsIn (rect_of joined.old) index
        → IsIn (rect_of part.now) index → number_at joined.new index ≡ number_at part.now index }
    ensures kept { (index : List ℕ) → IsIn (rect_of joined.old) index
        → ¬ IsIn (rect_of part.now) index → number_at joined.new index ≡ number_at joined.old index }
{
    let rect = *joined.rect();
    if part.rect().axes() != rect.axes() {
        return;
    }
    let common = part.rect().intersect(&rect);
    let same = identity(&common);
    copy_any(part, &same, joined, &same, &common);
}
