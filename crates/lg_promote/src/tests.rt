use crate::laws::{common_is_least, kinds_are_ordered, order_is_free};
use crate::{DoesNotFit, NoCommonType, literal, promote, same_kind};
use lg_elem::DType;
use std::process::Abort;
use std::test::Fail;

// The types in the order of the rows and columns below.
const TYPES: [DType; 9] = [
    DType::Bool,
    DType::Int8,
    DType::Int16,
    DType::Int32,
    DType::Int64,
    DType::UInt8,
    DType::UInt16,
    DType::UInt32,
    DType::UInt64,
];

// What `numpy.promote_types` gives, as places in that list; 9 where it gives float64.
const COMMON: [[usize; 9]; 9] = [
    [0, 1, 2, 3, 4, 5, 6, 7, 8],
    [1, 1, 2, 3, 4, 2, 3, 4, 9],
    [2, 2, 2, 3, 4, 2, 3, 4, 9],
    [3, 3, 3, 3, 4, 3, 3, 4, 9],
    [4, 4, 4, 4, 4, 4, 4, 4, 9],
    [5, 2, 2, 3, 4, 5, 6, 7, 8],
    [6, 3, 3, 3, 4, 6, 6, 7, 8],
    [7, 4, 4, 4, 4, 7, 7, 7, 8],
    [8, 9, 9, 9, 9, 8, 8, 8, 8],
];

#[test]
fn common_types(rt: HostRuntime) -> Result<(), Fail> {
    for a in 0..9 {
        for b in 0..9 {
            let place = COMMON[a][b];
            let common = if place < 9 {
                Ok(TYPES[place])
            } else {
                Err(NoCommonType)
            };
            assert_eq!(rt; promote(TYPES[a], TYPES[b]), common, "{a} and {b}");
        }
    }
    Ok(())
}

#[test]
fn literals(rt: HostRuntime) -> Result<(), Fail> {
    let fits = [
        (DType::Bool, 0, 0),
        (DType::Bool, 2, 1),
        (DType::Bool, -1, 1),
        (DType::Int8, -128, -128),
        (DType::Int16, 32_767, 32_767),
        (DType::Int32, -2_147_483_648, -2_147_483_648),
        (
            DType::Int64,
            9_223_372_036_854_775_807,
            9_223_372_036_854_775_807,
        ),
        (DType::UInt8, 255, 255),
        (DType::UInt16, 0, 0),
        (DType::UInt32, 4_294_967_295, 4_294_967_295),
        (
            DType::UInt64,
            18_446_744_073_709_551_615,
            18_446_744_073_709_551_615,
        ),
    ];
    for &(t, x, number) in &fits {
        assert_eq!(rt; literal(x, t), Ok(number), "{x} at {t:?}");
    }
    let refused = [
        (DType::Int8, 128),
        (DType::Int16, -32_769),
        (DType::Int32, 2_147_483_648),
        (DType::Int64, -9_223_372_036_854_775_809),
        (DType::UInt8, 256),
        (DType::UInt16, -1),
        (DType::UInt32, 4_294_967_296),
        (DType::UInt64, 18_446_744_073_709_551_616),
    ];
    for &(t, x) in &refused {
        assert_eq!(rt; literal(x, t), Err(DoesNotFit), "{x} at {t:?}");
    }
    Ok(())
}

// The place of each type in the order bool, unsigned, signed, which may not fall.
#[test]
fn kinds(rt: HostRuntime) -> Result<(), Fail> {
    let places = [0, 2, 2, 2, 2, 1, 1, 1, 1];
    for from in 0..9 {
        for to in 0..9 {
            let same = places[from] <= places[to];
            assert_eq!(rt; same_kind(TYPES[from], TYPES[to]), same, "{from} to {to}");
        }
    }
    Ok(())
}

// The laws have no body; that they can be called is all that there is to try.
#[test]
fn laws(_rt: HostRuntime) -> Result<(), Fail> {
    order_is_free();
    common_is_least();
    kinds_are_ordered();
    Ok(())
}
