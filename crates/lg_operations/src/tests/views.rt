//! Products of views that have more elements than are gathered at once, each compared with what its
//! indices say.
ghost use Rattle.std.specs.Prelude.{◌≡◌, [], ◌∷◌, IfOk};
ghost use Rattle.lg_shape.specs.Shapes.{whole};
ghost use Rattle.lg_shape.specs.declared.step.Step.TheVariants.{Slice};
ghost use Rattle.lg_tile.specs.Tiles.{rect_of};
ghost use Rattle.lg_xform.specs.Chains.{root_of};
ghost use Rattle.lg_operations.specs.Operations.{IsReady};

use crate::limits::is_within_limits;
use crate::rules::shape_in;
use crate::tests::pieces;
use crate::{Operand, binary};
use lg_elem::{Binary, Elem};
use lg_shape::{Shape, Step};
use lg_store::Right;
use lg_tile::{AnyTile, Room, Tile, TileElem};
use lg_xform::Chain;
use std::alloc::Global;
use std::process::Abort;
use std::test::Fail;

const ROWS: u64 = 400;

const COLUMNS: u64 = 600;

// The number at an index of a table.
fn cell(i: u64, j: u64) -> i128 {
    (i as i128 * 7 + j as i128 * 13) % 50
}

// The table of those numbers.
fn cells<T: TileElem>(rt: &impl Abort, alloc: Global) -> Result<AnyTile, Fail>
    ensures { IfOk result (λ tile. rect_of tile ≡ whole (400 ∷ 600 ∷ [])) }
{
    let mut items = Vec::new(alloc);
    for place in 0..ROWS * COLUMNS {
        items.push(T::wrap(cell(place / COLUMNS, place % COLUMNS)))?;
    }
    assert!(rt; items.len() == 240_000);
    Ok(T::any(Tile::new(Shape::new(&[ROWS, COLUMNS]).whole(), items)))
}

// Which elements of the table `a` a view has.
#[derive(Clone, Copy)]
enum Pick {
    /// `a[1:, 2:]`
    Later,

    /// `a[:-1, :-2]`
    Earlier,

    /// `a[::2, ::3]`
    Sparse,

    /// `a[3]`
    Row,

    /// `a[:, 5:6]`
    Column,
}

// A slice of an axis.
fn cut(axis: u8, start: u64, len: u64, step: i64) -> Step
    ensures { result ≡ Slice axis start len step }
{
    Step::Slice {
        axis,
        start,
        len,
        step,
    }
}

fn view_of(pick: Pick) -> Chain
    ensures { root_of result ≡ 400 ∷ 600 ∷ [] }
{
    let table = Chain::whole(&Shape::new(&[ROWS, COLUMNS]));
    match pick {
        Pick::Later => table.apply_all(&[cut(0, 1, 399, 1), cut(1, 2, 598, 1)]),
        Pick::Earlier => table.apply_all(&[cut(0, 0, 399, 1), cut(1, 0, 598, 1)]),
        Pick::Sparse => table.apply_all(&[cut(0, 0, 200, 2), cut(1, 0, 200, 3)]),
        Pick::Row => table.apply(&Step::Project { axis: 0, index: 3 }),
        Pick::Column => table.apply(&cut(1, 5, 1, 1)),
    }
}

// The number that the view has at an index of the result.
fn seen(pick: Pick, i: u64, j: u64) -> i128 {
    match pick {
        Pick::Later => cell(i.wrapping_add(1), j.wrapping_add(2)),
        Pick::Earlier => cell(i, j),
        Pick::Sparse => cell(i.wrapping_mul(2), j.wrapping_mul(3)),
        Pick::Row => cell(3, j),
        Pick::Column => cell(i, 5),
    }
}

fn view<'a>(rt: &impl Abort, tile: &'a AnyTile, chain: &'a Chain) -> Operand<'a>
    requires { rect_of tile.now ≡ whole (root_of chain.now) }
    ensures { IsReady result }
{
    assert!(rt; is_within_limits(&chain.shape()));
    Operand::View {
        tile,
        chain,
        right: Right::ReadOnly,
    }
}

// Compares the product of two views, element by element.
fn multiplies<T: TileElem>(
    rt: &impl Abort,
    alloc: Global,
    tile: &AnyTile,
    picks: (Pick, Pick),
    extents: [u64; 2],
)
    requires { rect_of tile.now ≡ whole (400 ∷ 600 ∷ []) }
{
    let (first, second) = (view_of(picks.0), view_of(picks.1));
    let (a, b) = (view(rt, tile, &first), view(rt, tile, &second));
    for k in 0..3 {
        let Ok(fresh) = binary(Room::new(alloc), pieces(k), Binary::Mul, &a, &b) else {
            panic!(rt; "a fault");
        };
        assert!(rt; fresh.tile.dtype() == T::DTYPE);
        assert!(rt; shape_in(&fresh.tile).extents() == extents.as_slice());
        let found = T::tile_of(&fresh.tile).items();
        for place in 0..found.len() {
            let (i, j) = (
                place as u64 / extents[1].max(1),
                place as u64 % extents[1].max(1),
            );
            let product = product_of::<T>(seen(picks.0, i, j), seen(picks.1, i, j));
            assert_eq!(rt; found[place].value(), product, "{place}");
        }
    }
}

// The product of two numbers, as one of the type.
fn product_of<T: Elem>(x: i128, y: i128) -> i128 {
    T::wrap(x.wrapping_mul(y)).value()
}

// Each view has more elements than are gathered at once.
#[test]
fn views_of_several_tiles(rt: HostRuntime) -> Result<(), Fail> {
    let alloc = rt.alloc();
    let (numbers, bytes) = (cells::<i32>(&rt, alloc)?, cells::<u8>(&rt, alloc)?);
    let table = [
        (Pick::Later, Pick::Earlier, [399, 598]),
        (Pick::Sparse, Pick::Sparse, [200, 200]),
        (Pick::Row, Pick::Column, [400, 600]),
    ];
    for (first, second, extents) in table {
        multiplies::<i32>(&rt, alloc, &numbers, (first, second), extents);
        multiplies::<u8>(&rt, alloc, &bytes, (first, second), extents);
    }
    Ok(())
}
