//! Memory for the elements of new tiles. To touch fresh memory costs more than to write it, so that of
//! tiles which are not needed any more is used again. No contract tells where elements lie.
ghost use Rattle.std.specs.Prelude.{◌≡◌, [], length, IfOk, IfSome};
ghost use Rattle.lg_tile.specs.Tile.{tile_items, tile_rect};

use crate::{AnyTile, Tile, TileElem};
use lg_elem::DType;
use lg_outside::NoMemory;
use lg_space::AnyRect;
use std::alloc::Global;
use std::cell::Cell;

// Smaller tiles are not worth it.
const LEAST_COUNT: u64 = 4_096;

/// Tiles that are not needed any more, four at most.
#[derive(Drop)]
pub struct Spares {
    // The one that was kept last comes first.
    tiles: [Cell<Option<AnyTile>>; 4],
    bytes: Cell<u64>,
}

/// Where new tiles take the memory of their elements: from a spare tile of their type and size, and
/// where there is none, anew.
#[derive(Clone, Copy)]
pub struct Room<'a> {
    alloc: Global,
    spares: Option<&'a Spares>,
}

impl Spares {
    /// None.
    pub fn new() -> Spares {
        Spares {
            tiles: [
                Cell::new(None),
                Cell::new(None),
                Cell::new(None),
                Cell::new(None),
            ],
            bytes: Cell::new(0),
        }
    }

    /// Keeps a tile for its memory, where it is large. Where there are too many, the one that was
    /// kept first goes.
    pub fn keep(&self, tile: AnyTile) {
        if tile.rect().volume() < LEAST_COUNT {
            return;
        }
        self.bytes
            .set(self.bytes.get().saturating_add(tile.bytes()));
        let mut next = Some(tile);
        for place in &self.tiles {
            if next.is_none() {
                return;
            }
            next = place.replace(next);
        }
        self.give_up(next);
    }

    /// Keeps no more than so many bytes any longer. What was kept first goes first.
    pub fn shrink(&self, most: u64) {
        for place in self.tiles.iter().rev() {
            if self.bytes.get() <= most {
                return;
            }
            self.give_up(place.take());
        }
    }

    // Lets a tile go that was kept.
    fn give_up(&self, tile: Option<AnyTile>) {
        if let Some(tile) = tile {
            self.bytes
                .set(self.bytes.get().saturating_sub(tile.bytes()));
        }
    }

    // So many elements of a spare tile, if there is one of just this type and size.
    fn items<T: TileElem>(&self, count: usize) -> Option<Vec<T>>
        ensures { IfSome result (λ items. length items.items ≡ count) }
    {
        for place in &self.tiles {
            if let Some(items) = items_in(place, count) {
                self.bytes.set(
                    self.bytes
                        .get()
                        .saturating_sub(bytes_of(T::DTYPE, count as u64)),
                );
                return Some(items);
            }
        }
        None
    }
}

impl Room<'_> {
    /// Memory that is taken anew.
    pub fn new(alloc: Global) -> Room<'static> {
        Room {
            alloc,
            spares: None,
        }
    }

    /// Memory of spare tiles first.
    pub fn beside(alloc: Global, spares: &Spares) -> Room<'_> {
        Room {
            alloc,
            spares: Some(spares),
        }
    }

    /// Memory for anything else.
    pub fn alloc(self) -> Global {
        self.alloc
    }

    /// Gives the memory of a tile back that is not needed any more.
    pub fn keep(self, tile: AnyTile) {
        if let Some(spares) = self.spares {
            spares.keep(tile);
        }
    }

    /// Keeps no more than so many bytes of spare tiles any longer.
    pub fn shrink(self, most: u64) {
        if let Some(spares) = self.spares {
            spares.shrink(most);
        }
    }

    /// So many elements, of which each is to be written: no one knows what they are.
    pub fn items<T: TileElem>(self, count: usize) -> Result<Vec<T>, NoMemory>
        ensures { IfOk result (λ items. length items.items ≡ count) }
    {
        if let Some(items) = self.spare_items(count) {
            return Ok(items);
        }
        let mut items = Vec::with_capacity(self.alloc, count)?;
        items.resize(count, T::wrap(0))?;
        Ok(items)
    }

    /// A tile over a rectangle, of which each element is to be written: no one knows what they are.
    pub fn tile<T: TileElem>(self, rect: &AnyRect) -> Result<Tile<T>, NoMemory>
        ensures { IfOk result (λ tile. tile_rect tile ≡ rect.now) }
    {
        let items = self.items(rect.volume() as usize)?;
        Ok(Tile::new(*rect, items))
    }

    /// A tile of the same rectangle and elements.
    pub fn copy_of<T: TileElem>(self, tile: &Tile<T>) -> Result<Tile<T>, NoMemory>
        ensures rect { IfOk result (λ copy. tile_rect copy ≡ tile_rect tile.now) }
        ensures items { IfOk result (λ copy. tile_items copy ≡ tile_items tile.now) }
    {
        let mut items = self.none_of(tile.items().len())?;
        items.extend_from_slice(tile.items())?;
        Ok(Tile::new(*tile.rect(), items))
    }

    /// No element, with room for so many.
    pub fn none_of<T: TileElem>(self, count: usize) -> Result<Vec<T>, NoMemory>
        ensures { IfOk result (λ items. items.items ≡ []) }
    {
        if let Some(mut items) = self.spare_items(count) {
            items.clear();
            return Ok(items);
        }
        Ok(Vec::with_capacity(self.alloc, count)?)
    }

    // So many elements of a spare tile, if there is one that is worth it.
    fn spare_items<T: TileElem>(self, count: usize) -> Option<Vec<T>>
        ensures { IfSome result (λ items. length items.items ≡ count) }
    {
        if (count as u64) < LEAST_COUNT {
            return None;
        }
        self.spares?.items(count)
    }
}

// The elements of the tile in a place, if it is one of just this type and size. Else it stays.
fn items_in<T: TileElem>(place: &Cell<Option<AnyTile>>, count: usize) -> Option<Vec<T>>
    ensures { IfSome result (λ items. length items.items ≡ count) }
{
    let tile = place.take()?;
    if tile.dtype() == T::DTYPE && tile.rect().volume() == count as u64 {
        return Some(T::into_tile(tile).into_items());
    }
    place.set(Some(tile));
    None
}

/// How many bytes so many elements of a type take.
pub(crate) fn bytes_of(dtype: DType, count: u64) -> u64 {
    let width = match dtype {
        DType::Bool | DType::Int8 | DType::UInt8 => 1,
        DType::Int16 | DType::UInt16 => 2,
        DType::Int32 | DType::UInt32 => 4,
        DType::Int64 | DType::UInt64 => 8,
    };
    count.saturating_mul(width)
}
