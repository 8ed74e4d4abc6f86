use super::*;
use lg_outside::NoMemory;
use lg_shape::Shape;
use lg_space::AnyRect;
use std::alloc::Global;
use std::test::Fail;

const NONE: [bool; 4] = [false; 4];

const FIRST: [bool; 4] = [true, false, false, false];

fn has_ranges(tile: &AnyRect, ranges: &[(u64, u64)]) -> bool {
    tile.axes() == ranges.len() && (0..tile.axes()).all(|axis| tile.range(axis) == ranges[axis])
}

// Whether these are the tiles of a grid, each the low and the high end of each axis.
fn has_tiles(alloc: Global, grid: &Grid, wanted: &[&[(u64, u64)]]) -> Result<bool, NoMemory> {
    let all = tiles(alloc, grid)?;
    if all.len() != wanted.len() || grid.count() as usize != wanted.len() {
        return Ok(false);
    }
    for color in 0..grid.count() {
        let ranges = wanted[color as usize];
        if !has_ranges(&all[color as usize], ranges) || !has_ranges(&grid.tile(color), ranges) {
            return Ok(false);
        }
    }
    Ok(true)
}

// Whether a grid of one axis has so many tiles, each of one number.
fn has_single_numbers(alloc: Global, grid: &Grid, count: u32) -> Result<bool, NoMemory> {
    let all = tiles(alloc, grid)?;
    if all.len() != count as usize || grid.count() != count {
        return Ok(false);
    }
    for color in 0..grid.count() {
        let number = u64::from(color);
        let ranges = [(number, number + 1)];
        if !has_ranges(&all[color as usize], &ranges) || !has_ranges(&grid.tile(color), &ranges) {
            return Ok(false);
        }
    }
    Ok(true)
}

#[test]
fn cuts_one_axis(rt: HostRuntime) -> Result<(), Fail> {
    let alloc = rt.alloc();
    let ten = Shape::new(&[10]);
    assert!(rt;
        has_tiles(
            alloc,
            &colors(3, &ten, &NONE),
            &[&[(0, 4)], &[(4, 8)], &[(8, 10)]]
        )?
    );
    assert!(rt; has_tiles(alloc, &colors(1, &ten, &NONE), &[&[(0, 10)]])?);
    assert!(rt; has_single_numbers(alloc, &colors(64, &ten, &NONE), 10)?);
    assert!(rt; has_tiles(alloc, &colors(64, &ten, &FIRST), &[&[(0, 10)]])?);

    assert!(rt; has_single_numbers(alloc, &colors(28, &Shape::new(&[28]), &NONE), 28)?);
    assert!(rt; has_single_numbers(alloc, &colors(4, &Shape::new(&[2]), &NONE), 2)?);
    assert!(rt; has_tiles(alloc, &colors(4, &Shape::new(&[0]), &NONE), &[&[(0, 0)]])?);
    Ok(())
}

#[test]
fn cuts_several_axes_or_none(rt: HostRuntime) -> Result<(), Fail> {
    let alloc = rt.alloc();
    let two_by_three = [
        [(0, 1), (0, 2)].as_slice(),
        &[(0, 1), (2, 3)],
        &[(1, 2), (0, 2)],
        &[(1, 2), (2, 3)],
    ];
    assert!(rt;
        has_tiles(
            alloc,
            &colors(4, &Shape::new(&[2, 3]), &NONE),
            &two_by_three
        )?
    );

    let columns = [
        [(0, 4), (0, 1)].as_slice(),
        &[(0, 4), (1, 2)],
        &[(0, 4), (2, 3)],
        &[(0, 4), (3, 4)],
    ];
    assert!(rt; has_tiles(alloc, &colors(4, &Shape::new(&[4, 4]), &FIRST), &columns)?);

    assert!(rt; has_tiles(alloc, &colors(4, &Shape::new(&[]), &NONE), &[&[]])?);
    Ok(())
}

// Four pieces give an axis of 5 only three parts, and then one piece is left, which cuts nothing.
// An empty axis has one part, and all pieces are left.
#[test]
fn shares_the_pieces_that_are_left(rt: HostRuntime) -> Result<(), Fail> {
    let alloc = rt.alloc();
    let three_rows = [
        [(0, 2), (0, 2)].as_slice(),
        &[(2, 4), (0, 2)],
        &[(4, 5), (0, 2)],
    ];
    assert!(rt; has_tiles(alloc, &colors(4, &Shape::new(&[5, 2]), &NONE), &three_rows)?);

    let no_rows = [
        [(0, 0), (0, 2)].as_slice(),
        &[(0, 0), (2, 4)],
        &[(0, 0), (4, 6)],
    ];
    assert!(rt; has_tiles(alloc, &colors(4, &Shape::new(&[0, 6]), &NONE), &no_rows)?);
    Ok(())
}

#[test]
fn cuts_around_a_whole_axis(rt: HostRuntime) -> Result<(), Fail> {
    let middle = [false, true, false, false];
    let six = [
        [(0, 1), (0, 5), (0, 1)].as_slice(),
        &[(0, 1), (0, 5), (1, 2)],
        &[(1, 2), (0, 5), (0, 1)],
        &[(1, 2), (0, 5), (1, 2)],
        &[(2, 3), (0, 5), (0, 1)],
        &[(2, 3), (0, 5), (1, 2)],
    ];
    assert!(rt;
        has_tiles(
            rt.alloc(),
            &colors(12, &Shape::new(&[3, 5, 2]), &middle),
            &six
        )?
    );
    Ok(())
}

#[test]
fn cuts_four_axes(rt: HostRuntime) -> Result<(), Fail> {
    let eight = [
        [(0, 1), (0, 1), (0, 1), (0, 2)].as_slice(),
        &[(0, 1), (0, 1), (1, 2), (0, 2)],
        &[(0, 1), (1, 2), (0, 1), (0, 2)],
        &[(0, 1), (1, 2), (1, 2), (0, 2)],
        &[(1, 2), (0, 1), (0, 1), (0, 2)],
        &[(1, 2), (0, 1), (1, 2), (0, 2)],
        &[(1, 2), (1, 2), (0, 1), (0, 2)],
        &[(1, 2), (1, 2), (1, 2), (0, 2)],
    ];
    assert!(rt;
        has_tiles(
            rt.alloc(),
            &colors(8, &Shape::new(&[2, 2, 2, 2]), &NONE),
            &eight
        )?
    );
    Ok(())
}

// What threads may hold.
fn crosses_threads<T: Send + Sync>() {}

// The laws have no body; that they can be called is all that there is to try.
#[test]
fn laws_and_threads(_rt: HostRuntime) -> Result<(), Fail> {
    laws::tiles_partition();
    laws::tiles_count();
    laws::parts_filled();
    examples::one_axis_by_example();
    examples::axes_by_example();
    crosses_threads::<Grid>();
    Ok(())
}
