// The expected elements are worked out by hand.

ghost use Rattle.std.specs.Prelude.{◌≡◌, ◌<◌, ◌≤◌, ℕ, [], ◌∷◌, length, slice_get, Some, IfOk, false, true};
ghost use Rattle.lg_space.specs.Rectangle.{volume_of};
ghost use Rattle.lg_space.specs.Stored.{MAX_END, MAX_VOLUME, IsStorable};
ghost use Rattle.lg_shape.specs.Shapes.{size_of, whole};
ghost use Rattle.lg_tile.specs.declared.any_tile.AnyTile.{AnyTile};
ghost use Rattle.lg_tile.specs.Sections.{Covers};
ghost use Rattle.lg_tile.specs.Tiles.{dtype_of, rect_of};
ghost use Rattle.lg_xform.specs.Chains.{inner_of, root_of, shape_of};
ghost use Rattle.lg_xform.specs.Footprints.{IsTile};

mod checking;

use self::checking::{are_alike, are_apart, are_held, leads_into, repeats_none};
use crate::gathering::is_within;
use crate::{copy_rect, gather, scatter};
use lg_outside::NoMemory;
use lg_shape::{Shape, Step};
use lg_space::AnyRect;
use lg_tile::{AnyTile, Tile, TileElem};
use lg_xform::Chain;
use std::alloc::Global;
use std::fmt::Debug;
use std::process::Abort;
use std::test::Fail;

// What stands behind the axes of a transpose.
const UNUSED: u8 = 9;

// A tile of these elements.
fn tile<T: TileElem>(alloc: Global, ranges: &[(u64, u64)], items: &[T]) -> Result<AnyTile, NoMemory>
    requires storable { IsStorable ranges.now }
    requires full { length items.now ≡ volume_of ranges.now }
    ensures dtype { IfOk result (λ tile. dtype_of tile ≡ T.DTYPE) }
    ensures rect { IfOk result (λ tile. rect_of tile ≡ ranges.now) }
{
    let items = Vec::from_slice(alloc, items)?;
    Ok(T::any(Tile::new(AnyRect::new(ranges), items)))
}

// Copies a rectangle from a tile of 0, 1, 2 and so on to one that has a 9 everywhere.
fn copies(
    rt: &impl Abort,
    alloc: Global,
    from: &[(u64, u64)],
    to: &[(u64, u64)],
    rect: &[(u64, u64)],
    expected: &[u8],
) -> Result<(), Fail>
    requires from { IsStorable from.now }
    requires to { IsStorable to.now }
    requires rect { IsStorable rect.now }
{
    let (from, to, rect) = (AnyRect::new(from), AnyRect::new(to), AnyRect::new(rect));
    let mut source = Tile::<u8>::filled(alloc, &from, 0)?;
    let mut next = 0_u8;
    for item in source.items_mut() {
        *item = next;
        next = next.wrapping_add(1);
    }
    let mut target = Tile::<u8>::filled(alloc, &to, 9)?;
    assert!(rt; is_within(rect.ranges(), from.ranges()) && is_within(rect.ranges(), to.ranges()));
    copy_rect(&source, &mut target, &rect);
    assert_eq!(rt; target.items(), expected);
    assert_eq!(rt; *target.rect(), to);
    Ok(())
}

#[test]
fn rectangles(rt: HostRuntime) -> Result<(), Fail> {
    let alloc = rt.alloc();
    copies(&rt, alloc, &[], &[], &[], &[0])?;
    copies(
        &rt,
        alloc,
        &[(2, 7)],
        &[(0, 5)],
        &[(3, 5)],
        &[9, 9, 9, 1, 2],
    )?;
    let (from, to) = ([(1, 3), (2, 5)], [(0, 3), (0, 4)]);
    let column = [9, 9, 9, 9, 9, 9, 9, 1, 9, 9, 9, 4];
    copies(&rt, alloc, &from, &to, &[(1, 3), (3, 4)], &column)?;
    copies(&rt, alloc, &from, &to, &[(1, 1), (2, 4)], &[9; 12])?;
    let (from, to) = ([(0, 2), (0, 2), (0, 3)], [(0, 2), (1, 2), (1, 3)]);
    let rect = [(0, 2), (1, 2), (2, 3)];
    copies(&rt, alloc, &from, &to, &rect, &[9, 5, 9, 11])?;
    let cube = [(0, 2), (0, 1), (0, 2), (0, 2)];
    let rect = [(1, 2), (0, 1), (0, 2), (1, 2)];
    copies(&rt, alloc, &cube, &cube, &rect, &[9, 9, 9, 9, 9, 5, 9, 7])
}

// The columns of a table as rows.
fn transposed(rows: u64, columns: u64) -> Chain
    requires rows { rows ≤ MAX_END }
    requires columns { columns ≤ MAX_END }
    ensures root { root_of result ≡ rows ∷ columns ∷ [] }
    ensures shape { shape_of result ≡ columns ∷ rows ∷ [] }
    ensures inner { inner_of result ≡ false ∷ false ∷ [] }
{
    Chain::whole(&Shape::new(&[rows, columns])).apply(&Step::Transpose {
        axes: [1, 0, UNUSED, UNUSED],
    })
}

// Five elements, of which every second is taken, from the last one on.
fn backwards() -> Chain
    ensures root { root_of result ≡ 5 ∷ [] }
    ensures shape { shape_of result ≡ 3 ∷ [] }
    ensures inner { inner_of result ≡ false ∷ [] }
{
    Chain::whole(&Shape::new(&[5])).apply(&Step::Slice {
        axis: 0,
        start: 4,
        len: 3,
        step: -2,
    })
}

// Gathers the elements of a view at the indices of a rectangle.
fn gathers<T: TileElem + PartialEq + Debug>(
    rt: &impl Abort,
    alloc: Global,
    parts: &[AnyTile],
    chain: &Chain,
    rect: &[(u64, u64)],
    expected: &[T],
) -> Result<(), Fail>
    requires some { 0 < length parts.now }
    requires rect { IsStorable rect.now }
    requires root { size_of (root_of chain.now) ≤ MAX_VOLUME }
    requires tile { IsTile (shape_of chain.now) (inner_of chain.now) rect.now }
    requires dtype { (k : ℕ) (part : AnyTile) → slice_get parts.now k ≡ Some part → dtype_of part ≡ T.DTYPE }
{
    let rect = AnyRect::new(rect);
    assert!(rt; are_alike(parts) && are_apart(parts) && are_held(parts, chain, &rect));
    let out = gather(alloc, parts, chain, &rect)?;
    assert_eq!(rt; *out.rect(), rect);
    assert_eq!(rt; T::tile_of(&out).items(), expected);
    Ok(())
}

#[test]
fn one_part(rt: HostRuntime) -> Result<(), Fail> {
    let alloc = rt.alloc();
    let table = [tile(alloc, &[(0, 2), (0, 3)], &[0_i32, 1, 2, 3, 4, 5])?];
    let view = transposed(2, 3);
    gathers(
        &rt,
        alloc,
        &table,
        &view,
        &[(0, 3), (0, 2)],
        &[0_i32, 3, 1, 4, 2, 5],
    )?;
    gathers(&rt, alloc, &table, &view, &[(1, 2), (0, 2)], &[1_i32, 4])?;
    let row = [tile(alloc, &[(0, 5)], &[true, false, false, false, true])?];
    gathers(
        &rt,
        alloc,
        &row,
        &backwards(),
        &[(0, 3)],
        &[true, false, true],
    )?;
    gathers::<bool>(&rt, alloc, &row, &backwards(), &[(2, 2)], &[])?;
    let scalar = [tile(alloc, &[], &[7_u8])?];
    gathers(
        &rt,
        alloc,
        &scalar,
        &Chain::whole(&Shape::new(&[])),
        &[],
        &[7_u8],
    )?;
    let all_axes = [tile(
        alloc,
        &[(0, 2), (0, 1), (0, 2), (0, 2)],
        &[0_u8, 1, 2, 3, 4, 5, 6, 7],
    )?];
    let view = Chain::whole(&Shape::new(&[2, 1, 2, 2]));
    let rect = [(1, 2), (0, 1), (0, 2), (1, 2)];
    gathers(&rt, alloc, &all_axes, &view, &rect, &[5_u8, 7])
}

// A row that is repeated, and the middle of the rows of a column that is.
#[test]
fn repeated(rt: HostRuntime) -> Result<(), Fail> {
    let alloc = rt.alloc();
    let row = [tile(alloc, &[(0, 3)], &[4_i32, 5, 6])?];
    let rows = Chain::whole(&Shape::new(&[3])).apply(&Step::Promote { axis: 0, extent: 2 });
    gathers(
        &rt,
        alloc,
        &row,
        &rows,
        &[(0, 2), (0, 3)],
        &[4_i32, 5, 6, 4, 5, 6],
    )?;
    let columns = Chain::whole(&Shape::new(&[3])).apply(&Step::Promote { axis: 1, extent: 2 });
    gathers(
        &rt,
        alloc,
        &row,
        &columns,
        &[(1, 3), (0, 2)],
        &[5_i32, 5, 6, 6],
    )
}

// Three rows of two, of which the first is one part, as two rows of three; and six elements in
// three parts, as two rows of three, of which the second is gathered.
#[test]
fn several_parts(rt: HostRuntime) -> Result<(), Fail> {
    let alloc = rt.alloc();
    let rows = [
        tile(alloc, &[(0, 1), (0, 2)], &[0_i32, 1])?,
        tile(alloc, &[(1, 3), (0, 2)], &[2_i32, 3, 4, 5])?,
    ];
    let view = transposed(3, 2);
    gathers(
        &rt,
        alloc,
        &rows,
        &view,
        &[(0, 2), (0, 3)],
        &[0_i32, 2, 4, 1, 3, 5],
    )?;
    gathers(
        &rt,
        alloc,
        &rows,
        &view,
        &[(0, 2), (1, 3)],
        &[2_i32, 4, 3, 5],
    )?;
    let pieces = [
        tile(alloc, &[(0, 1)], &[false])?,
        tile(alloc, &[(1, 4)], &[false, true, true])?,
        tile(alloc, &[(4, 6)], &[false, true])?,
    ];
    let view = Chain::whole(&Shape::new(&[6])).apply(&Step::Delinearize {
        sizes: Shape::new(&[2, 3]),
    });
    gathers(
        &rt,
        alloc,
        &pieces,
        &view,
        &[(1, 2), (0, 3)],
        &[true, false, true],
    )?;
    gathers(
        &rt,
        alloc,
        &pieces,
        &view,
        &[(0, 2), (0, 3)],
        &[false, false, true, true, false, true],
    )
}

// Scatters a tile through a view into a tile of a root that has the same element everywhere.
fn scatters<T: TileElem + PartialEq + Debug>(
    rt: &impl Abort,
    alloc: Global,
    tile: &AnyTile,
    chain: &Chain,
    root: &[(u64, u64)],
    item: T,
    expected: &[T],
) -> Result<(), Fail>
    requires root { IsStorable root.now }
    requires dtype { dtype_of tile.now ≡ T.DTYPE }
    requires within { Covers (whole (shape_of chain.now)) (rect_of tile.now) }
{
    let root = AnyRect::new(root);
    let mut target = T::any(Tile::filled(alloc, &root, item)?);
    assert!(rt; leads_into(chain, tile.rect(), &root));
    assert!(rt; repeats_none(chain, tile.rect(), &root));
    scatter(tile, chain, &mut target);
    assert_eq!(rt; *target.rect(), root);
    assert_eq!(rt; T::tile_of(&target).items(), expected);
    Ok(())
}

#[test]
fn scattered(rt: HostRuntime) -> Result<(), Fail> {
    let alloc = rt.alloc();
    let table = tile(alloc, &[(0, 3), (0, 2)], &[0_i32, 1, 2, 3, 4, 5])?;
    let root = [(0, 2), (0, 3)];
    scatters(
        &rt,
        alloc,
        &table,
        &transposed(2, 3),
        &root,
        9_i32,
        &[0, 2, 4, 1, 3, 5],
    )?;
    let row = tile(alloc, &[(0, 3)], &[true, false, true])?;
    let all = [true, true, false, true, true];
    scatters(&rt, alloc, &row, &backwards(), &[(0, 5)], true, &all)?;
    let none = tile::<bool>(alloc, &[(1, 1)], &[])?;
    scatters(&rt, alloc, &none, &backwards(), &[(0, 5)], true, &[true; 5])?;
    let scalar = tile(alloc, &[], &[7_u8])?;
    let whole = Chain::whole(&Shape::new(&[]));
    scatters(&rt, alloc, &scalar, &whole, &[], 9_u8, &[7])?;
    // The last two of the third of four rows, of which two are at hand.
    let ends = tile(alloc, &[(1, 3)], &[7_u8, 8])?;
    let view = Chain::whole(&Shape::new(&[4, 3])).apply(&Step::Project { axis: 0, index: 2 });
    let root = [(2, 4), (0, 3)];
    scatters(&rt, alloc, &ends, &view, &root, 9_u8, &[9, 7, 8, 9, 9, 9])
}

// A table of 33 rows of 34, which is more than one block either way, read by columns.
#[test]
fn crosswise(rt: HostRuntime) -> Result<(), Fail> {
    let alloc = rt.alloc();
    let mut table = Tile::<u16>::filled(alloc, &AnyRect::new(&[(0, 33), (0, 34)]), 0)?;
    let mut next = 0_u16;
    for item in table.items_mut() {
        *item = next;
        next = next.wrapping_add(1);
    }
    let view = transposed(33, 34);
    let parts = [u16::any(table)];
    let rect = AnyRect::new(&[(0, 34), (0, 33)]);
    assert!(rt; are_held(&parts, &view, &rect));
    let columns = gather(alloc, &parts, &view, &rect)?;
    for (place, item) in u16::tile_of(&columns).items().iter().enumerate() {
        assert_eq!(rt; *item as usize, place % 33 * 34 + place / 33);
    }
    Ok(())
}
