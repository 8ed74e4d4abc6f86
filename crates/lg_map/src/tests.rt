ghost use Rattle.std.specs.Prelude.{◌≡◌, ◌+◌, ◌≤◌, List, [], ◌∷◌, length, IfOk};
ghost use Rattle.lg_tile.specs.declared.any_tile.AnyTile.{AnyTile};
ghost use Rattle.lg_tile.specs.Tiles.{rect_of};
ghost use Rattle.lg_map.specs.declared.operation.Operand.TheVariants.{Input};
ghost use Rattle.lg_map.specs.Mapping.{IsMap, IsOperand};

use crate::examples::{flags_by_example, lists_by_example, values_by_example};
use crate::{MapOp, Operand, map_tile};
use lg_elem::{Binary, Compare, DType, Flag, Unary};
use lg_shape::Shape;
use lg_space::{AnyRect, Point};
use lg_tile::{AnyTile, Room, Tile, TileElem};
use sqlite_items::Items;
use std::alloc::Global;
use std::process::Abort;
use std::test::Fail;

// Compares a tile of one axis with the numbers that it is to have.
fn holds(rt: &impl Abort, tile: &AnyTile, t: DType, low: u64, expected: &[i128]) {
    assert_eq!(rt; tile.dtype(), t);
    for (i, x) in expected.iter().enumerate() {
        let p = Point::new(&[low.wrapping_add(i as u64)]);
        assert!(rt; tile.rect().contains(&p));
        assert_eq!(rt; tile.at(&p), *x, "{i}");
    }
    assert_eq!(rt; tile.rect().volume(), expected.len() as u64);
}

// Runs an operation on numbers alone over the indices 3, 4 and 5.
fn runs(
    rt: &impl Abort,
    alloc: Global,
    op: &MapOp,
    t: DType,
    expected: &[i128],
    flag: Flag,
) -> Result<(), Fail>
    requires { IsMap op.now [] ((3, 6) ∷ []) t }
{
    let (tile, found) = map_tile(Room::new(alloc), op, &[], &AnyRect::new(&[(3, 6)]), t)?;
    assert_eq!(rt; found, flag);
    holds(rt, &tile, t, 3, expected);
    Ok(())
}

#[test]
fn numbers_alone(rt: HostRuntime) -> Result<(), Fail> {
    let alloc = rt.alloc();
    let (seven, two) = (Operand::Constant(7), Operand::Constant(2));
    let minus = MapOp::Binary(Binary::Sub, seven, two);
    runs(&rt, alloc, &minus, DType::UInt8, &[5, 5, 5], Flag::Clear)?;
    let quotient = MapOp::Binary(Binary::FloorDiv, seven, Operand::Constant(0));
    runs(
        &rt,
        alloc,
        &quotient,
        DType::Int32,
        &[0, 0, 0],
        Flag::Divisor,
    )?;
    let power = MapOp::Binary(Binary::Pow, seven, Operand::Constant(-1));
    runs(&rt, alloc, &power, DType::Int16, &[0, 0, 0], Flag::Power)
}

#[test]
fn values_of_other_operations(rt: HostRuntime) -> Result<(), Fail> {
    let alloc = rt.alloc();
    let (seven, two) = (Operand::Constant(7), Operand::Constant(2));
    runs(
        &rt,
        alloc,
        &MapOp::Unary(Unary::Neg, seven),
        DType::Int8,
        &[-7, -7, -7],
        Flag::Clear,
    )?;
    let less = MapOp::Compare(Compare::Lt, two, seven);
    runs(&rt, alloc, &less, DType::Bool, &[1, 1, 1], Flag::Clear)?;
    let choice = MapOp::Select(Operand::Constant(0), seven, two);
    runs(&rt, alloc, &choice, DType::UInt16, &[2, 2, 2], Flag::Clear)?;
    runs(
        &rt,
        alloc,
        &MapOp::Cast(Operand::Constant(300)),
        DType::UInt8,
        &[44, 44, 44],
        Flag::Clear,
    )?;
    runs(
        &rt,
        alloc,
        &MapOp::Fill(-1),
        DType::UInt8,
        &[255, 255, 255],
        Flag::Clear,
    )?;
    runs(
        &rt,
        alloc,
        &MapOp::Count(-5),
        DType::Int64,
        &[-2, -1, 0],
        Flag::Clear,
    )
}

// A tile of one axis that begins at index 10.
fn row<T: TileElem>(alloc: Global, items: &[T]) -> Result<AnyTile, Fail>
    requires { length items.now ≤ 100 }
    ensures { IfOk result (λ tile. rect_of tile ≡ (10, 10 + length items.now) ∷ []) }
{
    let rect = AnyRect::new(&[(10, 10 + items.len() as u64)]);
    let mut tile = Tile::filled(alloc, &rect, T::wrap(0))?;
    tile.items_mut().copy_from_slice(items);
    Ok(T::any(tile))
}

// Runs an operation whose inputs are two rows, over the indices 11 and 12.
#[tactic(auto, using(crate::proofs::TestLemmas::middle_covered))]
fn over_rows<A: TileElem, B: TileElem>(
    rt: &impl Abort,
    alloc: Global,
    op: &MapOp,
    x: &[A],
    y: &[B],
    t: DType,
    expected: &[i128],
    flag: Flag,
) -> Result<(), Fail>
    requires left { length x.now ≡ 4 }
    requires right { length y.now ≡ 4 }
    requires op { (tiles : List AnyTile) → IsOperand tiles ((11, 13) ∷ []) (Input 0)
        → IsOperand tiles ((11, 13) ∷ []) (Input 1) → IsMap op.now tiles ((11, 13) ∷ []) t }
{
    let (x, y) = (row(alloc, x)?, row(alloc, y)?);
    let (tile, found) = map_tile(
        Room::new(alloc),
        op,
        &[&x, &y],
        &AnyRect::new(&[(11, 13)]),
        t,
    )?;
    assert_eq!(rt; found, flag);
    holds(rt, &tile, t, 11, expected);
    Ok(())
}

// Zeros outside of the rectangle are no fault, those inside are.
#[test]
fn parts_of_tiles(rt: HostRuntime) -> Result<(), Fail> {
    let alloc = rt.alloc();
    let (x, y) = (Operand::Input(0), Operand::Input(1));
    let quotient = MapOp::Binary(Binary::FloorDiv, x, y);
    let (large, small) = ([-7_i64, -7, 7, 7], [0_i8, 2, -2, 0]);
    over_rows(
        &rt,
        alloc,
        &quotient,
        &large,
        &small,
        DType::Int64,
        &[-4, -4],
        Flag::Clear,
    )?;
    let rest = MapOp::Binary(Binary::Rem, x, y);
    over_rows(
        &rt,
        alloc,
        &rest,
        &large,
        &small,
        DType::Int64,
        &[1, -1],
        Flag::Clear,
    )?;
    over_rows(
        &rt,
        alloc,
        &rest,
        &large,
        &[1_i8, 3, 0, 1],
        DType::Int64,
        &[2, 0],
        Flag::Divisor,
    )
}

// Quotients and remainders by a number, above and below 0.
#[test]
fn division_by_numbers(rt: HostRuntime) -> Result<(), Fail> {
    let alloc = rt.alloc();
    let (x, seven, minus) = (
        Operand::Input(0),
        Operand::Constant(7),
        Operand::Constant(-3),
    );
    let (bytes, other) = ([0_i8, -128, 127, 0], [1_i8, 1, 1, 1]);
    for (op, expected) in [
        (MapOp::Binary(Binary::FloorDiv, x, seven), [-19, 18]),
        (MapOp::Binary(Binary::Rem, x, seven), [5, 1]),
        (MapOp::Binary(Binary::FloorDiv, x, minus), [42, -43]),
        (MapOp::Binary(Binary::Rem, x, minus), [-2, -2]),
    ] {
        over_rows(
            &rt,
            alloc,
            &op,
            &bytes,
            &other,
            DType::Int8,
            &expected,
            Flag::Clear,
        )?;
    }
    Ok(())
}

#[test]
fn tiles_of_two_types(rt: HostRuntime) -> Result<(), Fail> {
    let alloc = rt.alloc();
    let (x, y) = (Operand::Input(0), Operand::Input(1));
    let (bytes, signed) = ([1_u8, 255, 200, 3], [0_i16, -1, 300, 9]);
    let sum = MapOp::Binary(Binary::Add, x, y);
    over_rows(
        &rt,
        alloc,
        &sum,
        &bytes,
        &signed,
        DType::Int16,
        &[254, 500],
        Flag::Clear,
    )?;
    over_rows(
        &rt,
        alloc,
        &sum,
        &bytes,
        &signed,
        DType::UInt8,
        &[254, 244],
        Flag::Clear,
    )?;
    let greater = MapOp::Compare(Compare::Gt, x, y);
    over_rows(
        &rt,
        alloc,
        &greater,
        &bytes,
        &signed,
        DType::Bool,
        &[1, 0],
        Flag::Clear,
    )?;
    let from_number = MapOp::Compare(Compare::Lt, Operand::Constant(254), x);
    over_rows(
        &rt,
        alloc,
        &from_number,
        &bytes,
        &signed,
        DType::Bool,
        &[1, 0],
        Flag::Clear,
    )?;
    let choice = MapOp::Select(y, x, Operand::Constant(5));
    over_rows(
        &rt,
        alloc,
        &choice,
        &bytes,
        &[1_i16, 256, 0, 1],
        DType::UInt8,
        &[255, 5],
        Flag::Clear,
    )?;
    over_rows(
        &rt,
        alloc,
        &MapOp::Cast(y),
        &bytes,
        &signed,
        DType::Int8,
        &[-1, 44],
        Flag::Clear,
    )
}

// The numbers of an array from the second on.
#[tactic(auto, using(lg_tile::proofs::SectionLemmas::part_covers))]
#[test]
fn list_in_row_major_order(rt: HostRuntime) -> Result<(), Fail> {
    let alloc = rt.alloc();
    let list = MapOp::List(Shape::new(&[3]), Items::from_slice(alloc, &[5, 300, -1])?);
    let (tile, flag) = map_tile(
        Room::new(alloc),
        &list,
        &[],
        &AnyRect::new(&[(1, 3)]),
        DType::UInt8,
    )?;
    assert_eq!(rt; flag, Flag::Clear);
    holds(&rt, &tile, DType::UInt8, 1, &[44, 255]);
    Ok(())
}

// The examples have no body; that they can be called is all that there is to try.
#[test]
fn examples(_rt: HostRuntime) -> Result<(), Fail> {
    values_by_example();
    lists_by_example();
    flags_by_example();
    Ok(())
}
