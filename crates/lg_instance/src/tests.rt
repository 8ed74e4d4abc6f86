// The expected elements are those that NumPy's rules give, worked out by hand.

ghost use Rattle.std.specs.Prelude.{◌≡◌, [], ◌∷◌, length, map, IfOk};
ghost use Rattle.lg_space.specs.Rectangle.{volume_of};
ghost use Rattle.lg_space.specs.Stored.{IsStorable};
ghost use Rattle.lg_shape.specs.Shapes.{whole};
ghost use Rattle.lg_tile.specs.Sections.{Covers};
ghost use Rattle.lg_tile.specs.Tiles.{dtype_of, numbers, rect_of};
ghost use Rattle.lg_xform.specs.Chains.{root_of, shape_of};
ghost use Rattle.lg_instance.specs.Contents.{IsHeld};
ghost use Rattle.lg_instance.specs.Kept.{contents};

mod checking;

use self::checking::repeats_none;
use crate::Instances;
use crate::laws::full_roots;
use lg_elem::DType;
use lg_outside::NoMemory;
use lg_shape::{Shape, Step};
use lg_space::AnyRect;
use lg_store::{Right, View};
use lg_tile::{AnyTile, Tile, TileElem};
use lg_xform::Chain;
use std::alloc::Global;
use std::fmt::Debug;
use std::process::Abort;
use std::test::Fail;

// A tile of these elements.
fn tile<T: TileElem>(alloc: Global, ranges: &[(u64, u64)], items: &[T]) -> Result<AnyTile, NoMemory>
    requires storable { IsStorable ranges.now }
    requires full { length items.now ≡ volume_of ranges.now }
    ensures dtype { IfOk result (λ tile. dtype_of tile ≡ T.DTYPE) }
    ensures rect { IfOk result (λ tile. rect_of tile ≡ ranges.now) }
{
    let items = Vec::from_slice(alloc, items)?;
    Ok(T::any(Tile::new(AnyRect::new(ranges), items)))
}

// A view of a root.
fn view(root: u64, dtype: DType, chain: Chain) -> View
    ensures root { result.root ≡ root }
    ensures dtype { result.dtype ≡ dtype }
    ensures chain { result.chain ≡ chain }
{
    View {
        root,
        dtype,
        chain,
        right: Right::Writable,
    }
}

// Five elements, of which every second is taken, from the last one on.
fn backwards() -> Chain
    ensures root { root_of result ≡ 5 ∷ [] }
    ensures shape { shape_of result ≡ 3 ∷ [] }
{
    Chain::whole(&Shape::new(&[5])).apply(&Step::Slice {
        axis: 0,
        start: 4,
        len: 3,
        step: -2,
    })
}

// Reads a rectangle of a view.
fn shows<T: TileElem + PartialEq + Debug>(
    rt: &impl Abort,
    alloc: Global,
    memory: &Instances,
    view: &View,
    rect: &[(u64, u64)],
    expected: &[T],
) -> Result<(), Fail>
    requires held { IsHeld (contents memory.now) view.now }
    requires dtype { view.now.dtype ≡ T.DTYPE }
    requires storable { IsStorable rect.now }
    requires within { Covers (whole (shape_of view.now.chain)) rect.now }
{
    let rect = AnyRect::new(rect);
    let out = memory.read(alloc, view, &rect)?;
    assert_eq!(rt; *out.rect(), rect);
    assert_eq!(rt; T::tile_of(&out).items(), expected);
    Ok(())
}

// Writes a tile through a view, and leaves all views as they are.
#[tactic(auto, using(crate::proofs::Holds::still_held))]
fn writes(rt: &impl Abort, memory: &mut Instances, view: &View, tile: &AnyTile)
    requires held { IsHeld (contents memory.old) view.now }
    requires dtype { dtype_of tile.now ≡ view.now.dtype }
    requires within { Covers (whole (shape_of view.now.chain)) (rect_of tile.now) }
    ensures { (other : View) → IsHeld (contents memory.old) other → IsHeld (contents memory.new) other }
{
    assert!(rt; repeats_none(&view.chain, tile.rect()));
    memory.store(view, tile);
}

#[tactic(auto, using(crate::proofs::Holds::held_by))]
#[test]
fn zeros_at_first(rt: HostRuntime) -> Result<(), Fail> {
    let alloc = rt.alloc();
    let mut memory = Instances::new(alloc);
    let shape = Shape::new(&[2, 3]);
    let root = memory.add(alloc, DType::Int16, &shape)?;
    let table = view(root, DType::Int16, Chain::whole(&shape));
    shows(&rt, alloc, &memory, &table, &[(0, 2), (0, 3)], &[0_i16; 6])?;
    shows(&rt, alloc, &memory, &table, &[(1, 2), (1, 3)], &[0_i16; 2])
}

// Writes a row of five elements, and two of them once more, through a view of every second one.
fn writes_twice(
    rt: &impl Abort,
    alloc: Global,
    memory: &mut Instances,
    row: &View,
    every_second: &View,
) -> Result<(), Fail>
    requires held { IsHeld (contents memory.old) row.now × IsHeld (contents memory.old) every_second.now }
    requires dtype { (row.now.dtype ≡ DType.Int32) × (every_second.now.dtype ≡ DType.Int32) }
    requires row { shape_of row.now.chain ≡ 5 ∷ [] }
    requires every_second { shape_of every_second.now.chain ≡ 3 ∷ [] }
{
    let all = tile(alloc, &[(0, 5)], &[10_i32, 20, 30, 40, 50])?;
    writes(rt, memory, row, &all);
    shows(
        rt,
        alloc,
        memory,
        every_second,
        &[(0, 3)],
        &[50_i32, 30, 10],
    )?;
    shows(rt, alloc, memory, every_second, &[(1, 2)], &[30_i32])?;
    let two = tile(alloc, &[(1, 3)], &[7_i32, 8])?;
    writes(rt, memory, every_second, &two);
    shows(rt, alloc, memory, row, &[(0, 5)], &[8_i32, 20, 7, 40, 50])?;
    shows(rt, alloc, memory, every_second, &[(0, 3)], &[50_i32, 7, 8])
}

#[tactic(auto, using(crate::proofs::Holds::held_by))]
#[test]
fn written_through_a_view(rt: HostRuntime) -> Result<(), Fail> {
    let alloc = rt.alloc();
    let mut memory = Instances::new(alloc);
    let shape = Shape::new(&[5]);
    let root = memory.add(alloc, DType::Int32, &shape)?;
    let row = view(root, DType::Int32, Chain::whole(&shape));
    let every_second = view(root, DType::Int32, backwards());
    writes_twice(&rt, alloc, &mut memory, &row, &every_second)
}

// The elements of a root of uint8 that is lent, if it is.
fn has(rt: &impl Abort, memory: &Instances, root: u64, expected: &[u8]) {
    let Some(AnyTile::UInt8(tile)) = memory.borrow(root) else {
        assert!(rt; false);
        return;
    };
    assert_eq!(rt; tile.items(), expected);
}

#[test]
fn some_are_forgotten(rt: HostRuntime) -> Result<(), Fail> {
    let alloc = rt.alloc();
    let mut memory = Instances::new(alloc);
    let first = memory.hold(tile(alloc, &[(0, 2)], &[1_u8, 2])?)?;
    let second = memory.hold(tile(alloc, &[(0, 1)], &[3_u8])?)?;
    let third = memory.hold(tile(alloc, &[(0, 1), (0, 2)], &[4_u8, 5])?)?;
    memory.keep(&[third, first]);
    has(&rt, &memory, first, &[1, 2]);
    assert!(rt; memory.borrow(second).is_none());
    has(&rt, &memory, third, &[4, 5]);
    memory.forget(third);
    assert!(rt; memory.borrow(third).is_none());
    has(&rt, &memory, first, &[1, 2]);
    let fourth = memory.hold(tile(alloc, &[], &[6_u8])?)?;
    assert!(rt; fourth != first && fourth != second && fourth != third);
    has(&rt, &memory, fourth, &[6]);
    full_roots();
    Ok(())
}

// What threads may hold.
fn crosses_threads<T: Send + Sync>() {}

#[test]
fn instances_cross_threads(_rt: HostRuntime) -> Result<(), Fail> {
    crosses_threads::<Instances>();
    Ok(())
}
