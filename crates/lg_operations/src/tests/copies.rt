//! Elements as ones of another type, by NumPy's rules, written down by hand.

use crate::tests::{array, faulty, holds, pieces, refuses, row};
use crate::{Operand, Weak, as_type};
use lg_elem::DType;
use lg_meaning::FaultKind;
use lg_store::Right;
use lg_tile::Room;
use std::test::Fail;

#[test]
fn other_types(rt: HostRuntime) -> Result<(), Fail> {
    let alloc = rt.alloc();
    let a = row(alloc, &[-129_i64, 0, 300])?;
    let truths = row(alloc, &[true, false])?;
    let fault = Some(FaultKind::Divisor);
    for k in 0..3 {
        let made = as_type(Room::new(alloc), pieces(k), &array(&a), DType::Int8);
        holds(&rt, made, &[3], Right::Writable, &[127_i8, 0, 44], None);
        let made = as_type(Room::new(alloc), pieces(k), &faulty(&a, fault), DType::Bool);
        holds(
            &rt,
            made,
            &[3],
            Right::Writable,
            &[true, false, true],
            fault,
        );
        let made = as_type(Room::new(alloc), pieces(k), &array(&truths), DType::UInt64);
        holds(&rt, made, &[2], Right::Writable, &[1_u64, 0], None);
    }
    let low = Operand::Weak(Weak::Integer(-1));
    let made = as_type(Room::new(alloc), 4, &low, DType::UInt16);
    holds(&rt, made, &[], Right::Writable, &[65_535_u16], None);
    let high = Operand::Weak(Weak::Integer(9_223_372_036_854_775_808));
    refuses(
        &rt,
        as_type(Room::new(alloc), 4, &high, DType::UInt64),
        FaultKind::Range,
    );
    Ok(())
}
