//! Values and faults by NumPy's rules, written down by hand. Each array operation is tried with one
//! piece, with three and with 64.
ghost use Rattle.std.specs.Prelude.{◌≡◌, ◌≤◌, ◌⊎◌, [], ◌∷◌, length, IfOk};
ghost use Rattle.lg_space.specs.declared.point.TheConstants.{MAX_AXES};
ghost use Rattle.lg_space.specs.Stored.{MAX_END};
ghost use Rattle.lg_meaning.specs.Weak.{integer};
ghost use Rattle.lg_operations.specs.Operations.{IsArray, IsRanged, IsReady, IsWhole, weak_of};

mod copies;
mod views;

use crate::rules::shape_in;
use crate::{
    EvaluateEnd, Fresh, Operand, Weak, binary, choose, compare, counted, full, listed, ones, unary,
    weak_arith, weak_compare, weak_negative, zeros,
};
use lg_elem::{Binary, Compare, DType, Elem, Unary};
use lg_meaning::FaultKind;
use lg_shape::Shape;
use lg_store::Right;
use lg_tile::{AnyTile, Room, Tile, TileElem};
use lg_tree::Arith;
use std::alloc::Global;
use std::process::Abort;
use std::test::Fail;

// ---- operands

// A tile over all indices of a shape with one axis.
#[tactic(auto, using(crate::proofs::Shapes::whole_tile))]
fn row<T: TileElem>(alloc: Global, items: &[T]) -> Result<AnyTile, Fail>
    requires { length items.now ≤ MAX_END }
    ensures { IfOk result IsWhole }
{
    let shape = Shape::new(&[items.len() as u64]);
    Ok(T::any(Tile::new(shape.whole(), Vec::from_slice(alloc, items)?)))
}

// A tile over all indices of a shape with two axes.
#[tactic(auto, using(crate::proofs::Shapes::whole_tile))]
fn table<T: TileElem>(alloc: Global, rows: u64, items: &[T]) -> Result<AnyTile, Fail>
    requires some { 1 ≤ rows }
    requires few { rows ≤ MAX_AXES }
    requires short { length items.now ≤ MAX_END }
    ensures { IfOk result IsWhole }
{
    let columns = items.len() as u64 / rows;
    let shape = Shape::new(&[rows, columns]);
    let count = (rows * columns) as usize;
    Ok(T::any(Tile::new(shape.whole(), Vec::from_slice(alloc, &items[..count])?)))
}

// A tile without axes.
#[tactic(auto, using(crate::proofs::Shapes::whole_tile))]
fn point<T: TileElem>(alloc: Global, item: T) -> Result<AnyTile, Fail>
    ensures { IfOk result IsWhole }
{
    Ok(T::any(Tile::filled(alloc, &Shape::new(&[]).whole(), item)?))
}

fn array(tile: &AnyTile) -> Operand<'_>
    requires { IsWhole tile.now }
    ensures ready { IsReady result }
    ensures array { IsArray result }
{
    faulty(tile, None)
}

fn faulty(tile: &AnyTile, fault: Option<FaultKind>) -> Operand<'_>
    requires { IsWhole tile.now }
    ensures ready { IsReady result }
    ensures array { IsArray result }
{
    Operand::Array {
        tile,
        right: Right::ReadOnly,
        fault,
    }
}

fn pieces(k: u32) -> u32
    ensures some { 1 ≤ result }
    ensures few { result ≤ 64 }
{
    match k {
        0 => 1,
        1 => 3,
        _ => 64,
    }
}

// ---- answers

// Compares a new array with what it is to be.
fn holds<T: TileElem>(
    rt: &impl Abort,
    made: Result<Fresh, EvaluateEnd>,
    extents: &[u64],
    right: Right,
    items: &[T],
    fault: Option<FaultKind>,
) {
    let Ok(fresh) = made else {
        panic!(rt; "a fault");
    };
    assert!(rt; fresh.tile.dtype() == T::DTYPE);
    assert!(rt; shape_in(&fresh.tile).extents() == extents);
    assert!(rt; fresh.right == right && fresh.fault == fault);
    let found = T::tile_of(&fresh.tile).items();
    assert_eq!(rt; found.len(), items.len());
    for i in 0..items.len() {
        assert_eq!(rt; found[i].value(), items[i].value(), "{i}");
    }
}

fn refuses(rt: &impl Abort, made: Result<Fresh, EvaluateEnd>, kind: FaultKind) {
    match made {
        Ok(_) => panic!(rt; "no fault"),
        Err(end) => assert_eq!(rt; end, EvaluateEnd::Fault(kind)),
    }
}

// ---- operations on two operands

fn gives<T: TileElem>(
    rt: &impl Abort,
    alloc: Global,
    op: Binary,
    a: &Operand<'_>,
    b: &Operand<'_>,
    items: &[T],
    fault: Option<FaultKind>,
)
    requires first { IsReady a.now }
    requires second { IsReady b.now }
{
    for k in 0..3 {
        let made = binary(Room::new(alloc), pieces(k), op, &*a, &*b);
        holds(
            rt,
            made,
            &[items.len() as u64],
            Right::Writable,
            items,
            fault,
        );
    }
}

#[test]
fn sums_and_differences(rt: HostRuntime) -> Result<(), Fail> {
    let alloc = rt.alloc();
    let (a, b) = (row(alloc, &[i64::MAX, 1, -5])?, row(alloc, &[1_i64, 2, 3])?);
    gives(
        &rt,
        alloc,
        Binary::Add,
        &array(&a),
        &array(&b),
        &[i64::MIN, 3, -2],
        None,
    );
    let (a, b) = (row(alloc, &[1_i8, 2])?, row(alloc, &[200_u8, 3])?);
    gives(
        &rt,
        alloc,
        Binary::Add,
        &array(&a),
        &array(&b),
        &[201_i16, 5],
        None,
    );
    let a = row(alloc, &[3_i8, -128])?;
    let ten = Operand::Weak(Weak::Integer(10));
    gives(
        &rt,
        alloc,
        Binary::Sub,
        &ten,
        &array(&a),
        &[7_i8, -118],
        None,
    );
    gives(
        &rt,
        alloc,
        Binary::Sub,
        &array(&a),
        &ten,
        &[-7_i8, 118],
        None,
    );
    Ok(())
}

#[test]
fn truth_values(rt: HostRuntime) -> Result<(), Fail> {
    let alloc = rt.alloc();
    let a = row(alloc, &[true, false, true])?;
    let b = row(alloc, &[true, false, false])?;
    gives(
        &rt,
        alloc,
        Binary::Add,
        &array(&a),
        &array(&b),
        &[true, false, true],
        None,
    );
    gives(
        &rt,
        alloc,
        Binary::Min,
        &array(&a),
        &array(&b),
        &[true, false, false],
        None,
    );
    let hundred = Operand::Weak(Weak::Integer(100));
    gives(
        &rt,
        alloc,
        Binary::Add,
        &array(&a),
        &hundred,
        &[101_i64, 100, 101],
        None,
    );
    let truth = Operand::Weak(Weak::Truth(true));
    gives(
        &rt,
        alloc,
        Binary::Mul,
        &array(&a),
        &truth,
        &[true, false, true],
        None,
    );
    Ok(())
}

#[test]
fn quotients_and_powers(rt: HostRuntime) -> Result<(), Fail> {
    let alloc = rt.alloc();
    let a = row(alloc, &[7_i64, -7, 7, -7, 5])?;
    let b = row(alloc, &[2_i64, 2, -2, -2, 0])?;
    let divisor = Some(FaultKind::Divisor);
    gives(
        &rt,
        alloc,
        Binary::FloorDiv,
        &array(&a),
        &array(&b),
        &[3_i64, -4, -4, 3, 0],
        divisor,
    );
    gives(
        &rt,
        alloc,
        Binary::Rem,
        &array(&a),
        &array(&b),
        &[1_i64, 1, -1, -1, 0],
        divisor,
    );
    // The flag is in the first of several tiles, and not in the last one.
    let c = row(alloc, &[0_i64, 1, 1, 1, 1])?;
    gives(
        &rt,
        alloc,
        Binary::FloorDiv,
        &array(&a),
        &array(&c),
        &[0_i64, -7, 7, -7, 5],
        divisor,
    );
    let power = Some(FaultKind::Power);
    gives(
        &rt,
        alloc,
        Binary::Pow,
        &array(&b),
        &array(&a),
        &[128_i64, 0, -128, 0, 0],
        power,
    );
    let least = row(alloc, &[i8::MIN])?;
    let minus = Operand::Weak(Weak::Integer(-1));
    gives(
        &rt,
        alloc,
        Binary::FloorDiv,
        &array(&least),
        &minus,
        &[i8::MIN],
        None,
    );
    Ok(())
}

#[test]
fn shapes_that_broadcast(rt: HostRuntime) -> Result<(), Fail> {
    let alloc = rt.alloc();
    let column = table(alloc, 2, &[1_i64, 2])?;
    let line = row(alloc, &[10_i64, 20, 30])?;
    let sums = [11_i64, 21, 31, 12, 22, 32];
    for k in 0..3 {
        let made = binary(
            Room::new(alloc),
            pieces(k),
            Binary::Add,
            &array(&column),
            &array(&line),
        );
        holds(&rt, made, &[2, 3], Right::Writable, &sums, None);
        let made = binary(
            Room::new(alloc),
            pieces(k),
            Binary::Add,
            &array(&line),
            &array(&column),
        );
        holds(&rt, made, &[2, 3], Right::Writable, &sums, None);
    }
    Ok(())
}

#[test]
fn scalars_and_empty_arrays(rt: HostRuntime) -> Result<(), Fail> {
    let alloc = rt.alloc();
    let (a, none) = (point(alloc, 3_i16)?, row::<i16>(alloc, &[])?);
    let zero = Operand::Weak(Weak::Integer(0));
    let made = binary(Room::new(alloc), 4, Binary::Add, &array(&a), &array(&a));
    holds(&rt, made, &[], Right::Scalar, &[6_i16], None);
    let made = binary(Room::new(alloc), 4, Binary::FloorDiv, &array(&a), &zero);
    holds(
        &rt,
        made,
        &[],
        Right::Scalar,
        &[0_i16],
        Some(FaultKind::Divisor),
    );
    let weak = Operand::Weak(Weak::Integer(3));
    let made = binary(
        Room::new(alloc),
        4,
        Binary::BitAnd,
        &weak,
        &Operand::Weak(Weak::Integer(6)),
    );
    holds(&rt, made, &[], Right::Scalar, &[2_i64], None);
    gives(
        &rt,
        alloc,
        Binary::FloorDiv,
        &array(&none),
        &array(&a),
        &[0_i16; 0],
        None,
    );
    gives(
        &rt,
        alloc,
        Binary::FloorDiv,
        &array(&none),
        &zero,
        &[0_i16; 0],
        None,
    );
    Ok(())
}

#[test]
fn faults_in_their_order(rt: HostRuntime) -> Result<(), Fail> {
    let alloc = rt.alloc();
    let (a, b) = (row(alloc, &[1_u64, 2])?, row(alloc, &[1_i8, 2, 3])?);
    refuses(
        &rt,
        binary(Room::new(alloc), 4, Binary::Add, &array(&a), &array(&b)),
        FaultKind::TypeKind,
    );
    let c = row(alloc, &[1_i64, 2])?;
    refuses(
        &rt,
        binary(Room::new(alloc), 4, Binary::Add, &array(&c), &array(&b)),
        FaultKind::Shape,
    );
    let high = Operand::Weak(Weak::Integer(128));
    refuses(
        &rt,
        binary(Room::new(alloc), 4, Binary::Add, &array(&b), &high),
        FaultKind::Range,
    );
    let truths = row(alloc, &[true, false])?;
    let power = Operand::Weak(Weak::Integer(9_223_372_036_854_775_808));
    refuses(
        &rt,
        binary(Room::new(alloc), 4, Binary::Add, &power, &array(&truths)),
        FaultKind::Range,
    );
    let made = binary(
        Room::new(alloc),
        4,
        Binary::Sub,
        &array(&truths),
        &array(&truths),
    );
    refuses(&rt, made, FaultKind::TypeKind);
    let made = choose(
        Room::new(alloc),
        4,
        &high,
        &Operand::Weak(Weak::Truth(true)),
        &power,
    );
    refuses(&rt, made, FaultKind::Range);
    Ok(())
}

#[test]
fn faults_of_operands_first(rt: HostRuntime) -> Result<(), Fail> {
    let alloc = rt.alloc();
    let (a, b) = (row(alloc, &[1_i64, 2])?, row(alloc, &[0_i64, 1])?);
    let (power, divisor) = (Some(FaultKind::Power), Some(FaultKind::Divisor));
    let quotients = [0_i64, 2];
    let op = Binary::FloorDiv;
    gives(
        &rt,
        alloc,
        op,
        &faulty(&a, power),
        &array(&b),
        &quotients,
        power,
    );
    gives(
        &rt,
        alloc,
        op,
        &array(&a),
        &faulty(&b, power),
        &quotients,
        power,
    );
    gives(
        &rt,
        alloc,
        op,
        &faulty(&a, divisor),
        &faulty(&b, power),
        &quotients,
        divisor,
    );
    gives(&rt, alloc, op, &array(&a), &array(&b), &quotients, divisor);
    Ok(())
}

// ---- other operations

#[test]
fn comparisons(rt: HostRuntime) -> Result<(), Fail> {
    let alloc = rt.alloc();
    let (a, b) = (row(alloc, &[u64::MAX, 0, 5])?, row(alloc, &[-1_i64, 1, 5])?);
    let high = Operand::Weak(Weak::Integer(18_446_744_073_709_551_615));
    for k in 0..3 {
        let made = compare(
            Room::new(alloc),
            pieces(k),
            Compare::Gt,
            &array(&a),
            &array(&b),
        );
        holds(
            &rt,
            made,
            &[3],
            Right::Writable,
            &[true, false, false],
            None,
        );
        let made = compare(
            Room::new(alloc),
            pieces(k),
            Compare::Le,
            &array(&b),
            &array(&a),
        );
        holds(&rt, made, &[3], Right::Writable, &[true, false, true], None);
        let made = compare(Room::new(alloc), pieces(k), Compare::Lt, &high, &array(&b));
        holds(
            &rt,
            made,
            &[3],
            Right::Writable,
            &[false, false, false],
            None,
        );
        let made = compare(Room::new(alloc), pieces(k), Compare::Eq, &array(&a), &high);
        holds(
            &rt,
            made,
            &[3],
            Right::Writable,
            &[true, false, false],
            None,
        );
    }
    let c = row(alloc, &[1_i64, 2])?;
    refuses(
        &rt,
        compare(Room::new(alloc), 4, Compare::Eq, &array(&a), &array(&c)),
        FaultKind::Shape,
    );
    Ok(())
}

#[test]
fn operations_on_one_operand(rt: HostRuntime) -> Result<(), Fail> {
    let alloc = rt.alloc();
    let (a, b) = (row(alloc, &[i8::MIN, 5])?, row(alloc, &[0_u8, 255])?);
    let truths = row(alloc, &[true, false])?;
    for k in 0..3 {
        let made = unary(Room::new(alloc), pieces(k), Unary::Abs, &array(&a));
        holds(&rt, made, &[2], Right::Writable, &[i8::MIN, 5], None);
        let made = unary(
            Room::new(alloc),
            pieces(k),
            Unary::Invert,
            &faulty(&b, Some(FaultKind::Power)),
        );
        holds(
            &rt,
            made,
            &[2],
            Right::Writable,
            &[255_u8, 0],
            Some(FaultKind::Power),
        );
        let made = unary(Room::new(alloc), pieces(k), Unary::Invert, &array(&truths));
        holds(&rt, made, &[2], Right::Writable, &[false, true], None);
    }
    refuses(
        &rt,
        unary(Room::new(alloc), 4, Unary::Neg, &array(&truths)),
        FaultKind::TypeKind,
    );
    let weak = Operand::Weak(Weak::Integer(9_223_372_036_854_775_808));
    refuses(
        &rt,
        unary(Room::new(alloc), 4, Unary::Abs, &weak),
        FaultKind::Range,
    );
    let made = unary(
        Room::new(alloc),
        4,
        Unary::Invert,
        &Operand::Weak(Weak::Integer(5)),
    );
    holds(&rt, made, &[], Right::Scalar, &[-6_i64], None);
    Ok(())
}

#[test]
fn one_of_two(rt: HostRuntime) -> Result<(), Fail> {
    let alloc = rt.alloc();
    let (c, a) = (row(alloc, &[1_i8, 0, 2])?, row(alloc, &[1_i8, 2, 3])?);
    let hundred = Operand::Weak(Weak::Integer(100));
    let (truths, b) = (
        row(alloc, &[true, false, true])?,
        row(alloc, &[7_u8, 8, 9])?,
    );
    for k in 0..3 {
        let made = choose(
            Room::new(alloc),
            pieces(k),
            &array(&c),
            &array(&a),
            &hundred,
        );
        holds(&rt, made, &[3], Right::Writable, &[1_i8, 100, 3], None);
        let made = choose(
            Room::new(alloc),
            pieces(k),
            &array(&truths),
            &array(&a),
            &array(&b),
        );
        holds(&rt, made, &[3], Right::Writable, &[1_i16, 8, 3], None);
        let made = choose(
            Room::new(alloc),
            pieces(k),
            &hundred,
            &array(&a),
            &array(&b),
        );
        holds(&rt, made, &[3], Right::Writable, &[1_i16, 2, 3], None);
    }
    let made = choose(
        Room::new(alloc),
        4,
        &hundred,
        &Operand::Weak(Weak::Truth(true)),
        &hundred,
    );
    holds(&rt, made, &[], Right::Scalar, &[1_i64], None);
    Ok(())
}

// ---- arrays that are made

#[test]
fn filled_arrays(rt: HostRuntime) -> Result<(), Fail> {
    let alloc = rt.alloc();
    let (five, nine) = (Weak::Integer(5), Weak::Integer(9));
    for k in 0..3 {
        let made = full(Room::new(alloc), pieces(k), &[2], nine, None);
        holds(&rt, made, &[2], Right::Writable, &[9_i64, 9], None);
        let made = full(Room::new(alloc), pieces(k), &[3], five, Some(DType::Bool));
        holds(&rt, made, &[3], Right::Writable, &[true, true, true], None);
        let made = zeros(Room::new(alloc), pieces(k), &[2, 2], Some(DType::Int8));
        holds(&rt, made, &[2, 2], Right::Writable, &[0_i8, 0, 0, 0], None);
        let made = ones(Room::new(alloc), pieces(k), &[], None);
        holds(&rt, made, &[], Right::Writable, &[1_i64], None);
    }
    let made = full(Room::new(alloc), 4, &[2], Weak::Truth(false), None);
    holds(&rt, made, &[2], Right::Writable, &[false, false], None);
    Ok(())
}

#[test]
fn faults_of_filled_arrays(rt: HostRuntime) -> Result<(), Fail> {
    let alloc = rt.alloc();
    let high = Weak::Integer(300);
    refuses(
        &rt,
        full(Room::new(alloc), 4, &[-1], high, Some(DType::Int8)),
        FaultKind::Range,
    );
    refuses(
        &rt,
        full(Room::new(alloc), 4, &[-1], high, None),
        FaultKind::Shape,
    );
    refuses(
        &rt,
        zeros(Room::new(alloc), 4, &[16_777_217], None),
        FaultKind::Limit,
    );
    refuses(
        &rt,
        zeros(Room::new(alloc), 4, &[16_777_217, 0], None),
        FaultKind::Limit,
    );
    refuses(
        &rt,
        ones(Room::new(alloc), 4, &[4_097, 4_096], None),
        FaultKind::Limit,
    );
    let made = ones(
        Room::new(alloc),
        4,
        &[16_777_216, 16_777_216, 16_777_216, 0],
        Some(DType::Bool),
    );
    holds::<bool>(
        &rt,
        made,
        &[16_777_216, 16_777_216, 16_777_216, 0],
        Right::Writable,
        &[],
        None,
    );
    Ok(())
}

#[test]
fn counted_arrays(rt: HostRuntime) -> Result<(), Fail> {
    let alloc = rt.alloc();
    for k in 0..3 {
        let made = counted(Room::new(alloc), pieces(k), -2, 2, DType::Int8);
        holds(&rt, made, &[4], Right::Writable, &[-2_i8, -1, 0, 1], None);
        let made = counted(Room::new(alloc), pieces(k), 300, 5, DType::Int8);
        holds::<i8>(&rt, made, &[0], Right::Writable, &[], None);
    }
    let last = 18_446_744_073_709_551_615;
    let made = counted(Room::new(alloc), 4, last - 1, last, DType::UInt64);
    holds(&rt, made, &[1], Right::Writable, &[u64::MAX - 1], None);
    refuses(
        &rt,
        counted(Room::new(alloc), 4, 0, 129, DType::Int8),
        FaultKind::Range,
    );
    refuses(
        &rt,
        counted(Room::new(alloc), 4, -1, 2, DType::UInt8),
        FaultKind::Range,
    );
    refuses(
        &rt,
        counted(Room::new(alloc), 4, 0, 1, DType::Bool),
        FaultKind::TypeKind,
    );
    refuses(
        &rt,
        counted(Room::new(alloc), 4, 0, 16_777_217, DType::Int64),
        FaultKind::Limit,
    );
    Ok(())
}

#[test]
fn listed_arrays(rt: HostRuntime) -> Result<(), Fail> {
    let alloc = rt.alloc();
    let numbers = [
        Weak::Integer(1),
        Weak::Truth(true),
        Weak::Integer(200),
        Weak::Integer(0),
    ];
    let truths = [Weak::Truth(true), Weak::Truth(false)];
    for k in 0..3 {
        let made = listed(Room::new(alloc), pieces(k), &numbers, Some(&[4]), None);
        holds(&rt, made, &[4], Right::Writable, &[1_i64, 1, 200, 0], None);
        let made = listed(
            Room::new(alloc),
            pieces(k),
            &numbers,
            Some(&[2, 2]),
            Some(DType::UInt8),
        );
        holds(
            &rt,
            made,
            &[2, 2],
            Right::Writable,
            &[1_u8, 1, 200, 0],
            None,
        );
        let made = listed(Room::new(alloc), pieces(k), &truths, Some(&[2]), None);
        holds(&rt, made, &[2], Right::Writable, &[true, false], None);
    }
    holds::<i64>(
        &rt,
        listed(Room::new(alloc), 4, &[], Some(&[0]), None),
        &[0],
        Right::Writable,
        &[],
        None,
    );
    refuses(
        &rt,
        listed(Room::new(alloc), 4, &numbers, None, Some(DType::Int8)),
        FaultKind::Range,
    );
    refuses(
        &rt,
        listed(Room::new(alloc), 4, &numbers, None, None),
        FaultKind::Shape,
    );
    let deep = [1, 1, 1, 1, 4];
    refuses(
        &rt,
        listed(Room::new(alloc), 4, &numbers, Some(&deep), None),
        FaultKind::Shape,
    );
    Ok(())
}

// ---- weak numbers

fn weak(op: Arith, x: i128, y: i128) -> Option<Result<Weak, FaultKind>>
    requires first { IsRanged (integer x) }
    requires second { IsRanged (integer y) }
{
    weak_arith(op, Weak::Integer(x), Weak::Integer(y))
}

#[test]
fn weak_numbers(rt: HostRuntime) -> Result<(), Fail> {
    let (least, most) = (-9_223_372_036_854_775_808, 18_446_744_073_709_551_615);
    assert_eq!(rt; weak(Arith::Sub, 3, 10), Some(Ok(Weak::Integer(-7))));
    assert_eq!(rt; weak(Arith::FloorDiv, -7, 2), Some(Ok(Weak::Integer(-4))));
    assert_eq!(rt; weak(Arith::FloorDiv, 7, -2), Some(Ok(Weak::Integer(-4))));
    assert_eq!(rt; weak(Arith::Rem, 7, -2), Some(Ok(Weak::Integer(-1))));
    assert_eq!(rt; weak(Arith::Rem, -7, 2), Some(Ok(Weak::Integer(1))));
    assert_eq!(rt; weak(Arith::Rem, 1, 0), Some(Err(FaultKind::Divisor)));
    assert_eq!(rt; weak(Arith::Add, most, 1), Some(Err(FaultKind::Range)));
    assert_eq!(rt; weak(Arith::Mul, most, most), Some(Err(FaultKind::Range)));
    assert_eq!(rt;
        weak(Arith::FloorDiv, least, -1),
        Some(Ok(Weak::Integer(-least)))
    );
    assert_eq!(rt; weak(Arith::BitAnd, 1, 3), None);
    let truth = Weak::Truth(true);
    assert_eq!(rt;
        weak_arith(Arith::Add, truth, truth),
        Some(Ok(Weak::Integer(2)))
    );
    assert_eq!(rt;
        weak_negative(Weak::Integer(least)),
        Ok(Weak::Integer(-least))
    );
    assert_eq!(rt;
        weak_negative(Weak::Integer(-least + 1)),
        Err(FaultKind::Range)
    );
    assert_eq!(rt; weak_compare(Compare::Lt, Weak::Integer(-1), truth), truth);
    Ok(())
}
