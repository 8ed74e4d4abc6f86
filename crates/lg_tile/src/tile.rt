ghost use Rattle.std.specs.Prelude.{◌≡◌, length};
ghost use Rattle.lg_space.specs.Rectangle.{volume_of};

use crate::section::{Section, section_of};
use lg_elem::Elem;
use lg_outside::NoMemory;
use lg_space::{AnyRect, Point};
use std::alloc::Global;

/// The elements of a rectangle, in row-major order, in which the last axis runs fastest (NumPy's
/// reference, "Internal memory layout of an ndarray"). Contracts see the rectangle, as the list of
/// its ranges, and the list of the elements.
#[derive(Drop)]
pub struct Tile<T> {
    rect: AnyRect,
    items: Vec<T>,
    ghost full: { length items.items ≡ volume_of rect },
}

impl<T: Elem + Drop> Tile<T> {
    ghost use Rattle.std.specs.Prelude.{◌≡◌, IfOk, length, replicate, slice_get, slice_set, Some};
    ghost use Rattle.std.specs.Borrow.{sem};
    ghost use Rattle.lg_space.specs.Rectangle.{IsIn, place_in, volume_of};
    ghost use Rattle.lg_tile.specs.Sections.{Covers, IsSection, section_items};
    ghost use Rattle.lg_tile.specs.Tile.{tile_items, tile_rect};
    ghost use Rattle.lg_tile.specs.TileLends.{lends_items};

    /// The tile of these elements, which are as many as the rectangle has indices. It takes no
    /// memory.
    pub fn new(rect: AnyRect, items: Vec<T>) -> Tile<T>
        requires { length items.items ≡ volume_of rect }
        ensures rect { tile_rect result ≡ rect }
        ensures items { tile_items result ≡ items.items }
    {
        Tile { rect, items }
    }

    /// The elements alone.
    pub fn into_items(self) -> Vec<T>
        ensures { result.items ≡ tile_items self }
    {
        self.items
    }

    /// A tile with the same element at each index. It takes memory once, and the only error is that
    /// there is none.
    pub fn filled(alloc: Global, rect: &AnyRect, x: T) -> Result<Tile<T>, NoMemory>
        ensures rect { IfOk result (λ tile. tile_rect tile ≡ rect.now) }
        ensures items { IfOk result (λ tile. tile_items tile ≡ replicate (volume_of rect.now) x) }
    {
        let count = rect.volume() as usize;
        // Of `vec![in alloc; x; count]` it would be known only that its elements are clones of x.
        let mut items = Vec::with_capacity(alloc, count)?;
        items.resize(count, x)?;
        Ok(Tile::new(*rect, items))
    }

    /// The rectangle.
    pub fn rect(&self) -> &AnyRect
        ensures value { result.now ≡ tile_rect self.now }
        ensures full { length (tile_items self.now) ≡ volume_of (tile_rect self.now) }
    {
        &self.rect
    }

    /// The elements.
    pub fn items(&self) -> &[T]
        ensures value { result.now ≡ tile_items self.now }
        ensures full { length result.now ≡ volume_of (tile_rect self.now) }
    {
        &self.items
    }

    /// The elements, for writing.
    pub fn items_mut(&mut self) -> &mut [T]
        ensures* writes_back { sem 𝓛 (lends_items T.row self.entry result) }
        ensures value { result.now ≡ tile_items self.old }
        ensures full { length result.now ≡ volume_of (tile_rect self.old) }
    {
        self.items.as_mut_slice()
    }

    /// The element at an index.
    #[tactic(auto, using(crate::proofs::TileLemmas::place_within))]
    pub fn at(&self, p: &Point) -> T
        requires { IsIn (tile_rect self.now) p.now }
        ensures { slice_get (tile_items self.now) (place_in (tile_rect self.now) p.now)
            ≡ Some result }
    {
        let place = self.rect.ravel(p) as usize;
        self.items()[place]
    }

    /// Writes the element at an index.
    #[tactic(auto, using(crate::proofs::TileLemmas::place_within))]
    pub fn set(&mut self, p: &Point, x: T)
        requires { IsIn (tile_rect self.old) p.now }
        ensures rect { tile_rect self.new ≡ tile_rect self.old }
        ensures items { tile_items self.new
            ≡ slice_set (tile_items self.old) (place_in (tile_rect self.old) p.now) x }
    {
        let place = self.rect.ravel(p) as usize;
        self.items_mut()[place] = x;
    }

    /// The elements at the indices of a part of the rectangle, in row-major order. They are lent as
    /// they lie where the part is the whole rectangle, and else copied. It takes memory at most
    /// once, and the only error is that there is none.
    pub fn section(&self, alloc: Global, part: &AnyRect) -> Result<Section<'_, T>, NoMemory>
        requires { Covers (tile_rect self.now) part.now }
        ensures { IfOk result (λ section. IsSection (tile_rect self.now) part.now
            (tile_items self.now) (section_items section)) }
    {
        section_of(alloc, &self.items, &self.rect, part)
    }
}
