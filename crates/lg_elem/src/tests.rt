use crate::laws::{floors, one_number, rewrapped, wrapped_fits};
use crate::{
    Binary, Compare, DType, Elem, Flag, Unary, allowed_binary, allowed_unary, binary, compare,
    int_pow, unary,
};
use std::process::Abort;
use std::test::Fail;

// The type, what each number is wrapped to, and what each two add up to, by NumPy's rules for
// `astype` and `add`.
fn gives<T: Elem>(
    rt: &impl Abort,
    dtype: DType,
    wrapped: &[(i128, i128)],
    sums: &[(i128, i128, i128)],
) {
    assert_eq!(rt; T::DTYPE, dtype);
    for &(x, number) in wrapped {
        assert_eq!(rt; T::wrap(x).value(), number, "{x} at {dtype:?}");
        assert_eq!(rt; rewrapped(T::wrap(x)).value(), number, "{x} at {dtype:?}");
    }
    for &(x, y, sum) in sums {
        let (total, flag) = binary(Binary::Add, T::wrap(x), T::wrap(y));
        assert_eq!(rt; total.value(), sum, "{x} and {y} at {dtype:?}");
        assert_eq!(rt; flag, Flag::Clear);
    }
}

#[test]
fn signed_types(rt: HostRuntime) -> Result<(), Fail> {
    let min = i128::from(i64::MIN);
    let max = i128::from(i64::MAX);
    gives::<i8>(
        &rt,
        DType::Int8,
        &[(-128, -128), (200, -56), (-129, 127), (256, 0)],
        &[
            (100, 100, -56),
            (127, 1, -128),
            (-128, -1, 127),
            (-7, 3, -4),
        ],
    );
    gives::<i16>(
        &rt,
        DType::Int16,
        &[(40_000, -25_536), (-32_769, 32_767)],
        &[(32_767, 1, -32_768), (-300, 44, -256)],
    );
    gives::<i32>(
        &rt,
        DType::Int32,
        &[(3_000_000_000, -1_294_967_296), (1 << 32, 0)],
        &[(2_147_483_647, 1, -2_147_483_648), (-5, 4, -1)],
    );
    gives::<i64>(
        &rt,
        DType::Int64,
        &[
            (1 << 63, min),
            (1 << 64, 0),
            (min - 1, max),
            (i128::MAX, -1),
        ],
        &[
            (100, 100, 200),
            (max, 1, min),
            (min, -1, max),
            (min, min, 0),
        ],
    );
    Ok(())
}

#[test]
fn unsigned_types_and_bool(rt: HostRuntime) -> Result<(), Fail> {
    let max = i128::from(u64::MAX);
    gives::<u8>(
        &rt,
        DType::UInt8,
        &[(-1, 255), (300, 44)],
        &[(200, 100, 44), (2, 3, 5)],
    );
    gives::<u16>(
        &rt,
        DType::UInt16,
        &[(-1, 65_535), (65_536, 0)],
        &[(65_535, 2, 1), (300, 1, 301)],
    );
    gives::<u32>(
        &rt,
        DType::UInt32,
        &[(1 << 32, 0), (-2, 4_294_967_294)],
        &[(4_294_967_295, 1, 0)],
    );
    gives::<u64>(
        &rt,
        DType::UInt64,
        &[(-1, max), (1 << 63, 1 << 63)],
        &[(max, 1, 0), (1 << 63, 5, (1 << 63) + 5)],
    );
    gives::<bool>(
        &rt,
        DType::Bool,
        &[(0, 0), (1, 1), (2, 1), (-4, 1)],
        &[(0, 0, 0), (0, 1, 1), (1, 0, 1), (1, 1, 1)],
    );
    Ok(())
}

// What each operation gives on two elements, by NumPy's rules. The operations are in the order of
// `Binary`; a row is the operands and a number for each operation.
fn rows<T: Elem>(rt: &impl Abort, rows: &[(i128, i128, [i128; 13])]) {
    let ops = [
        Binary::Add,
        Binary::Sub,
        Binary::Mul,
        Binary::FloorDiv,
        Binary::Rem,
        Binary::Pow,
        Binary::BitAnd,
        Binary::BitOr,
        Binary::BitXor,
        Binary::Shl,
        Binary::Shr,
        Binary::Min,
        Binary::Max,
    ];
    for row in rows {
        let (x, y, numbers) = *row;
        for i in 0..13 {
            let (number, flag) = binary(ops[i], T::wrap(x), T::wrap(y));
            assert_eq!(rt; number.value(), numbers[i], "{x} {i} {y}");
            assert_eq!(rt; flag, flag_wanted(ops[i], y), "{x} {i} {y}");
        }
    }
}

// The flag of an operation by its second operand.
fn flag_wanted(op: Binary, y: i128) -> Flag {
    let divides = op == Binary::FloorDiv || op == Binary::Rem;
    if divides && y == 0 {
        Flag::Divisor
    } else if op == Binary::Pow && y < 0 {
        Flag::Power
    } else {
        Flag::Clear
    }
}

#[test]
fn operations_on_narrow_types(rt: HostRuntime) -> Result<(), Fail> {
    rows::<i8>(
        &rt,
        &[
            (
                -128,
                -1,
                [127, -127, -128, -128, 0, 0, -128, -1, 127, 0, -1, -128, -1],
            ),
            (-7, 3, [-4, -10, -21, -3, 2, -87, 1, -5, -6, -56, -1, -7, 3]),
            (7, -3, [4, 10, -21, -3, -2, 0, 5, -1, -6, 0, 0, -3, 7]),
            (
                100,
                0,
                [100, 100, 0, 0, 0, 1, 0, 100, 100, 100, 100, 0, 100],
            ),
            (127, 8, [-121, 119, -8, 15, 7, 1, 8, 127, 119, 0, 0, 8, 127]),
        ],
    );
    rows::<u8>(
        &rt,
        &[
            (200, 7, [207, 193, 120, 28, 4, 0, 0, 207, 207, 0, 1, 7, 200]),
            (3, 255, [2, 4, 253, 0, 3, 171, 3, 255, 252, 0, 0, 3, 255]),
        ],
    );
    rows::<i16>(
        &rt,
        &[(
            -300,
            7,
            [
                -293, -307, -2_100, -43, 1, 16_384, 4, -297, -301, 27_136, -3, -300, 7,
            ],
        )],
    );
    rows::<u16>(
        &rt,
        &[(
            65_535,
            15,
            [
                14, 65_520, 65_521, 4_369, 0, 65_535, 15, 65_535, 65_520, 32_768, 1, 15, 65_535,
            ],
        )],
    );
    rows::<bool>(
        &rt,
        &[
            (1, 1, [1, 0, 1, 1, 0, 1, 1, 1, 0, 0, 0, 1, 1]),
            (1, 0, [1, 1, 0, 0, 0, 1, 0, 1, 1, 1, 1, 0, 1]),
            (0, 1, [1, 1, 0, 0, 0, 0, 0, 1, 1, 0, 0, 0, 1]),
        ],
    );
    Ok(())
}

#[test]
fn operations_on_wide_types(rt: HostRuntime) -> Result<(), Fail> {
    let min = i128::from(i64::MIN);
    let max = i128::from(u64::MAX);
    rows::<i32>(
        &rt,
        &[(
            -2_147_483_648,
            -1,
            [
                2_147_483_647,
                -2_147_483_647,
                -2_147_483_648,
                -2_147_483_648,
                0,
                0,
                -2_147_483_648,
                -1,
                2_147_483_647,
                0,
                -1,
                -2_147_483_648,
                -1,
            ],
        )],
    );
    rows::<u32>(
        &rt,
        &[(
            4_294_967_295,
            2,
            [
                1,
                4_294_967_293,
                4_294_967_294,
                2_147_483_647,
                1,
                1,
                2,
                4_294_967_295,
                4_294_967_293,
                4_294_967_292,
                1_073_741_823,
                2,
                4_294_967_295,
            ],
        )],
    );
    rows::<i64>(
        &rt,
        &[
            (
                min,
                -1,
                [
                    i128::from(i64::MAX),
                    min + 1,
                    min,
                    min,
                    0,
                    0,
                    min,
                    -1,
                    i128::from(i64::MAX),
                    0,
                    -1,
                    min,
                    -1,
                ],
            ),
            (
                -5,
                64,
                [
                    59,
                    -69,
                    -320,
                    -1,
                    59,
                    7_942_358_959_831_785_217,
                    64,
                    -5,
                    -69,
                    0,
                    -1,
                    -5,
                    64,
                ],
            ),
        ],
    );
    rows::<u64>(
        &rt,
        &[
            (
                max,
                max,
                [max - 1, 0, 1, 1, 0, max, max, max, 0, 0, 0, max, max],
            ),
            (
                max,
                63,
                [
                    62,
                    max - 63,
                    max - 62,
                    292_805_461_487_453_200,
                    15,
                    max,
                    63,
                    max,
                    max - 63,
                    1 << 63,
                    1,
                    63,
                    max,
                ],
            ),
        ],
    );
    Ok(())
}

#[test]
fn operations_on_one_element(rt: HostRuntime) -> Result<(), Fail> {
    let gives: [(Unary, i128, i128, i128); 4] = [
        (Unary::Neg, -128, -128, 128),
        (Unary::Invert, 5, -6, 250),
        (Unary::Abs, -128, -128, 128),
        (Unary::Abs, -7, 7, 249),
    ];
    for &(op, x, signed, unsigned) in &gives {
        assert_eq!(rt; unary(op, i8::wrap(x)).value(), signed, "{op:?} {x}");
        assert_eq!(rt; unary(op, u8::wrap(x)).value(), unsigned, "{op:?} {x}");
    }
    assert!(rt; !unary(Unary::Invert, true) && unary(Unary::Invert, false));
    assert!(rt; unary(Unary::Abs, true) && unary(Unary::Neg, true));
    Ok(())
}

// `==`, `!=`, `<`, `<=`, `>` and `>=` of two elements.
fn compares<A: Elem, B: Elem>(x: A, y: B) -> [bool; 6] {
    [
        compare(Compare::Eq, x, y),
        compare(Compare::Ne, x, y),
        compare(Compare::Lt, x, y),
        compare(Compare::Le, x, y),
        compare(Compare::Gt, x, y),
        compare(Compare::Ge, x, y),
    ]
}

#[test]
fn comparisons_by_whole_numbers(rt: HostRuntime) -> Result<(), Fail> {
    let less = [false, true, true, true, false, false];
    let equal = [true, false, false, true, false, true];
    let greater = [false, true, false, false, true, true];
    assert_eq!(rt; compares(u64::MAX, -1i64), greater);
    assert_eq!(rt; compares(i64::MIN, 0u64), less);
    assert_eq!(rt; compares(1u8, true), equal);
    assert_eq!(rt; compares(false, -1i8), greater);
    assert_eq!(rt; compares(-200i16, 56u8), less);
    assert_eq!(rt; compares(7i32, 7u32), equal);
    Ok(())
}

#[test]
fn powers_of_numbers(rt: HostRuntime) -> Result<(), Fail> {
    let powers = [
        (DType::Bool, 0, 0, 1),
        (DType::Bool, 1, 5, 1),
        (DType::Int8, -3, 5, 13),
        (DType::Int16, 2, 15, -32_768),
        (DType::Int32, -2, 31, -2_147_483_648),
        (DType::Int64, 3, 40, -6_289_078_614_652_622_815),
        (DType::UInt8, 3, 6, 217),
        (DType::UInt16, 2, 16, 0),
        (DType::UInt32, 65_537, 2, 131_073),
        (
            DType::UInt64,
            18_446_744_073_709_551_615,
            18_446_744_073_709_551_615,
            18_446_744_073_709_551_615,
        ),
    ];
    for &(t, base, exponent, power) in &powers {
        assert_eq!(rt;
            int_pow(base, exponent, t),
            power,
            "{base} to {exponent} at {t:?}"
        );
    }
    Ok(())
}

#[test]
fn operations_of_bool(rt: HostRuntime) -> Result<(), Fail> {
    assert!(rt; !allowed_unary(Unary::Neg, DType::Bool));
    assert!(rt; allowed_unary(Unary::Invert, DType::Bool));
    assert!(rt; allowed_unary(Unary::Neg, DType::UInt8));
    assert!(rt; !allowed_binary(Binary::Sub, DType::Bool));
    assert!(rt; allowed_binary(Binary::Max, DType::Bool));
    assert!(rt; allowed_binary(Binary::Shr, DType::UInt64));
    Ok(())
}

// What threads may hold.
fn crosses_threads<T: Send + Sync>() {}

#[test]
fn types_and_operations_cross_threads(_rt: HostRuntime) -> Result<(), Fail> {
    crosses_threads::<DType>();
    crosses_threads::<Unary>();
    crosses_threads::<Binary>();
    crosses_threads::<Compare>();
    crosses_threads::<Flag>();
    Ok(())
}

// The laws have no body; that they can be called is all that there is to try.
#[test]
fn laws(_rt: HostRuntime) -> Result<(), Fail> {
    wrapped_fits();
    one_number();
    floors();
    Ok(())
}
