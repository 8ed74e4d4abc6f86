ghost use Rattle.std.specs.Prelude.{[], ◌∷◌};
ghost use Rattle.lg_elem.specs.Types.{IsNumber};
ghost use Rattle.lg_space.specs.Stored.{IsStorable};
ghost use Rattle.lg_tile.specs.Blocks.{IsPart};

use crate::laws::full_tiles;
use crate::{AnyTile, Room, Spares, Tile};
use lg_elem::DType;
use lg_space::{AnyRect, Point};
use std::alloc::Global;
use std::process::Abort;
use std::test::Fail;

// Fills a tile with 3 and writes a 4 at an index, whose place is worked out by hand.
fn writes_one_place(
    rt: &impl Abort,
    alloc: Global,
    rect: &AnyRect,
    p: &Point,
    place: usize,
) -> Result<(), Fail> {
    assert!(rt; rect.contains(p));
    let mut tile = Tile::<u16>::filled(alloc, rect, 3)?;
    assert_eq!(rt; tile.at(p), 3);
    tile.set(p, 4);
    assert_eq!(rt; tile.at(p), 4);
    assert_eq!(rt; *tile.rect(), *rect);
    for (i, x) in tile.items().iter().enumerate() {
        assert_eq!(rt; *x == 4, i == place, "place {i}");
    }
    Ok(())
}

#[test]
fn places_in_row_major_order(rt: HostRuntime) -> Result<(), Fail> {
    let alloc = rt.alloc();
    let row = AnyRect::new(&[(5, 8)]);
    let table = AnyRect::new(&[(1, 3), (2, 5)]);
    let cube = AnyRect::new(&[(0, 2), (3, 5), (1, 4)]);
    let all_axes = AnyRect::new(&[(2, 4), (0, 1), (7, 10), (1, 3)]);
    writes_one_place(&rt, alloc, &AnyRect::new(&[]), &Point::new(&[]), 0)?;
    writes_one_place(&rt, alloc, &row, &Point::new(&[7]), 2)?;
    writes_one_place(&rt, alloc, &table, &Point::new(&[2, 3]), 4)?;
    writes_one_place(&rt, alloc, &cube, &Point::new(&[1, 3, 2]), 7)?;
    writes_one_place(&rt, alloc, &all_axes, &Point::new(&[3, 0, 8, 2]), 9)?;
    Ok(())
}

// A tile of this type, filled with x, that takes y at an index and gives both back.
fn keeps_numbers(rt: &impl Abort, alloc: Global, dtype: DType, x: i128, y: i128) -> Result<(), Fail>
    requires first { IsNumber dtype x }
    requires second { IsNumber dtype y }
{
    let rect = AnyRect::new(&[(1, 3), (2, 5)]);
    let (here, there) = (Point::new(&[2, 3]), Point::new(&[2, 4]));
    assert!(rt; rect.contains(&here) && rect.contains(&there));
    let mut tile = AnyTile::filled(alloc, dtype, &rect, x)?;
    tile.set(&here, y);
    let copy = tile.copied(Room::new(alloc))?;
    tile.set(&here, x);
    assert_eq!(rt; copy.dtype(), dtype);
    assert_eq!(rt; *copy.rect(), rect, "{dtype:?}");
    assert_eq!(rt; copy.at(&here), y, "{dtype:?}");
    assert_eq!(rt; copy.at(&there), x, "{dtype:?}");
    assert_eq!(rt; tile.at(&here), x, "{dtype:?}");
    Ok(())
}

#[test]
fn numbers_of_every_type(rt: HostRuntime) -> Result<(), Fail> {
    let alloc = rt.alloc();
    let least = -9_223_372_036_854_775_808;
    keeps_numbers(&rt, alloc, DType::Bool, 0, 1)?;
    keeps_numbers(&rt, alloc, DType::Int8, -128, 127)?;
    keeps_numbers(&rt, alloc, DType::Int16, -32_768, 32_767)?;
    keeps_numbers(&rt, alloc, DType::Int32, -2_147_483_648, 2_147_483_647)?;
    keeps_numbers(&rt, alloc, DType::Int64, least, 9_223_372_036_854_775_807)?;
    keeps_numbers(&rt, alloc, DType::UInt8, 0, 255)?;
    keeps_numbers(&rt, alloc, DType::UInt16, 0, 65_535)?;
    keeps_numbers(&rt, alloc, DType::UInt32, 0, 4_294_967_295)?;
    keeps_numbers(&rt, alloc, DType::UInt64, 0, 18_446_744_073_709_551_615)?;
    Ok(())
}

// The tile of `full(3, 7)`.
#[test]
fn copies_a_row(rt: HostRuntime) -> Result<(), Fail> {
    let alloc = rt.alloc();
    let rect = AnyRect::new(&[(0, 3)]);
    let copy = AnyTile::filled(alloc, DType::Int64, &rect, 7)?.copied(Room::new(alloc))?;
    assert_eq!(rt; copy.dtype(), DType::Int64);
    assert_eq!(rt; *copy.rect(), rect);
    for i in 0..3 {
        let p = Point::new(&[i]);
        assert!(rt; copy.rect().contains(&p));
        assert_eq!(rt; copy.at(&p), 7);
    }
    Ok(())
}

#[test]
fn elements_as_a_slice(rt: HostRuntime) -> Result<(), Fail> {
    let alloc = rt.alloc();
    let rect = AnyRect::new(&[(1, 3), (2, 5)]);
    let mut tile = Tile::<i32>::filled(alloc, &rect, -1)?;
    tile.items_mut().copy_from_slice(&[1, 2, 3, 4, 5, 6]);
    let copy = Room::new(alloc).copy_of(&tile)?;
    tile.items_mut()[4] = 0;
    assert_eq!(rt; tile.items(), [1, 2, 3, 4, 0, 6].as_slice());
    assert_eq!(rt; copy.items(), [1, 2, 3, 4, 5, 6].as_slice());
    let again = Tile::new(rect, copy.into_items());
    assert_eq!(rt; *again.rect(), rect);
    assert_eq!(rt; again.items(), [1, 2, 3, 4, 5, 6].as_slice());
    Ok(())
}

// The section of a tile of 24 elements, 0 to 23, over all of whose axes the ranges begin at 1.
#[tactic(auto, using(crate::proofs::SectionLemmas::part_covers))]
fn cuts(rt: &impl Abort, alloc: Global, part: &[(u64, u64)], expected: &[i16]) -> Result<(), Fail>
    requires storable { IsStorable part.now }
    requires inside { IsPart ((1, 3) ∷ (1, 4) ∷ (1, 5) ∷ []) part.now }
{
    let mut tile = Tile::filled(alloc, &AnyRect::new(&[(1, 3), (1, 4), (1, 5)]), 0)?;
    let mut next = 0_i16;
    for x in tile.items_mut() {
        *x = next;
        next = next.wrapping_add(1);
    }
    let section = tile.section(alloc, &AnyRect::new(part))?;
    assert_eq!(rt; section.items(), expected);
    Ok(())
}

#[test]
fn sections(rt: HostRuntime) -> Result<(), Fail> {
    let alloc = rt.alloc();
    cuts(&rt, alloc, &[(2, 3), (2, 4), (3, 5)], &[18, 19, 22, 23])?;
    cuts(&rt, alloc, &[(1, 3), (3, 4), (1, 2)], &[8, 20])?;
    cuts(&rt, alloc, &[(1, 3), (2, 2), (1, 5)], &[])?;
    cuts(
        &rt,
        alloc,
        &[(1, 2), (1, 3), (1, 5)],
        &[0, 1, 2, 3, 4, 5, 6, 7],
    )?;
    let whole = [(1, 3), (1, 4), (1, 5)];
    let all = [
        0, 1, 2, 3, 4, 5, 6, 7, 8, 9, 10, 11, 12, 13, 14, 15, 16, 17, 18, 19, 20, 21, 22, 23,
    ];
    cuts(&rt, alloc, &whole, &all)
}

// What threads may hold.
fn crosses_threads<T: Send + Sync>() {}

#[test]
fn tiles_cross_threads(_rt: HostRuntime) -> Result<(), Fail> {
    crosses_threads::<Tile<bool>>();
    crosses_threads::<Tile<i64>>();
    crosses_threads::<AnyTile>();
    Ok(())
}

// The law has no body; that it can be called is all that there is to try.
#[test]
fn law(_rt: HostRuntime) -> Result<(), Fail> {
    full_tiles();
    Ok(())
}

// The next tile of this type and size, whose first element is told: it tells whose memory was taken.
fn first_of(room: Room<'_>, rect: &AnyRect) -> Result<Option<i16>, Fail> {
    let tile = room.tile::<i16>(rect)?;
    Ok(tile.items().first().copied())
}

#[test]
fn spare_tiles_are_used_again(rt: HostRuntime) -> Result<(), Fail> {
    let alloc = rt.alloc();
    let spares = Spares::new();
    let room = Room::beside(alloc, &spares);
    let rect = AnyRect::new(&[(0, 8_192)]);
    let small = AnyRect::new(&[(0, 100)]);
    spares.keep(AnyTile::filled(alloc, DType::Int16, &rect, 1)?);
    spares.keep(AnyTile::filled(alloc, DType::Int16, &rect, 2)?);
    spares.keep(AnyTile::filled(alloc, DType::Int16, &rect, 3)?);
    spares.keep(AnyTile::filled(alloc, DType::UInt16, &rect, 4)?);
    spares.keep(AnyTile::filled(alloc, DType::Int16, &rect, 5)?);
    spares.keep(AnyTile::filled(alloc, DType::Int16, &small, 6)?);
    assert_eq!(rt; first_of(room, &small)?, Some(0));
    assert_eq!(rt; first_of(room, &AnyRect::new(&[(0, 8_191)]))?, Some(0));
    assert_eq!(rt; first_of(room, &rect)?, Some(5));
    assert_eq!(rt; first_of(room, &rect)?, Some(3));
    assert_eq!(rt; first_of(room, &rect)?, Some(2));
    assert_eq!(rt; first_of(room, &rect)?, Some(0));
    spares.keep(AnyTile::filled(alloc, DType::Int16, &rect, 7)?);
    spares.shrink(2 * 16_384);
    assert_eq!(rt; first_of(room, &rect)?, Some(7));
    spares.keep(AnyTile::filled(alloc, DType::Int16, &rect, 8)?);
    spares.shrink(16_383);
    assert_eq!(rt; first_of(room, &rect)?, Some(0));
    assert_eq!(rt; room.none_of::<u16>(8_192)?.len(), 0);
    Ok(())
}
