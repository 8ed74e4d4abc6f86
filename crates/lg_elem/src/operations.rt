ghost use Rattle.std.specs.Prelude.{◌≡◌, pos};
ghost use Rattle.lg_elem.specs.Types.{wrap};
ghost use Rattle.lg_elem.specs.Operations.{unary_of, binary_of, compare_of, power_of, divisor_flag_of, power_flag_of, is_allowed_unary, is_allowed_binary};

use crate::kernels::{
    Abs, Add, BitAnd, BitOr, BitXor, CompareKernel, Eq, FloorDiv, Ge, Gt, Invert, Kernel, Le, Lt,
    Max, Min, Mul, Ne, Neg, Pow, Rem, Shl, Shr, Sub, UnaryKernel,
};
use crate::power::power_of_number;
use crate::{Binary, Compare, DType, Elem, Flag, Unary};

/// The operation on an element: its number, wrapped to the type. Where the type has no such
/// operation (`allowed_unary`) it is that of the numbers all the same.
#[inline]
pub fn unary<T: Elem>(op: Unary, x: T) -> T
    ensures { T.number result ≡ unary_of op T.DTYPE (T.number x) }
{
    match op {
        Unary::Neg => Neg::apply(x),
        Unary::Invert => Invert::apply(x),
        Unary::Abs => Abs::apply(x),
    }
}

/// The operation on two elements of one type: its number, wrapped to the type, and the flag. An
/// element at which the flag is not `Clear` is 0. Where the type has no such operation
/// (`allowed_binary`) both are those of the numbers all the same.
#[inline]
pub fn binary<T: Elem>(op: Binary, x: T, y: T) -> (T, Flag)
    ensures { (T.number result.0, result.1) ≡ binary_of op T.DTYPE (T.number x) (T.number y) }
{
    match op {
        Binary::Add => (Add::apply(x, y), Flag::Clear),
        Binary::Sub => (Sub::apply(x, y), Flag::Clear),
        Binary::Mul => (Mul::apply(x, y), Flag::Clear),
        Binary::FloorDiv => (FloorDiv::apply(x, y), divisor_flag(y)),
        Binary::Rem => (Rem::apply(x, y), divisor_flag(y)),
        Binary::Pow => (Pow::apply(x, y), power_flag(y)),
        Binary::BitAnd => (BitAnd::apply(x, y), Flag::Clear),
        Binary::BitOr => (BitOr::apply(x, y), Flag::Clear),
        Binary::BitXor => (BitXor::apply(x, y), Flag::Clear),
        Binary::Shl => (Shl::apply(x, y), Flag::Clear),
        Binary::Shr => (Shr::apply(x, y), Flag::Clear),
        Binary::Min => (Min::apply(x, y), Flag::Clear),
        Binary::Max => (Max::apply(x, y), Flag::Clear),
    }
}

// The flag of a division.
#[inline]
fn divisor_flag<T: Elem>(y: T) -> Flag
    ensures { result ≡ divisor_flag_of (T.number y) }
{
    if y.value() == 0 {
        Flag::Divisor
    } else {
        Flag::Clear
    }
}

// The flag of a power.
#[inline]
fn power_flag<T: Elem>(y: T) -> Flag
    ensures { result ≡ power_flag_of (T.number y) }
{
    if y.value() < 0 {
        Flag::Power
    } else {
        Flag::Clear
    }
}

/// Whether two elements compare so, by their whole numbers, of whatever types they are.
#[inline]
pub fn compare<A: Elem, B: Elem>(op: Compare, x: A, y: B) -> bool
    ensures { result ≡ compare_of op (A.number x) (B.number y) }
{
    match op {
        Compare::Eq => Eq::apply(x, y),
        Compare::Ne => Ne::apply(x, y),
        Compare::Lt => Lt::apply(x, y),
        Compare::Le => Le::apply(x, y),
        Compare::Gt => Gt::apply(x, y),
        Compare::Ge => Ge::apply(x, y),
    }
}

/// Whether the type has the operation: bool has no negative.
pub fn allowed_unary(op: Unary, t: DType) -> bool
    ensures { result ≡ is_allowed_unary op t }
{
    match op {
        Unary::Neg => t != DType::Bool,
        Unary::Invert | Unary::Abs => true,
    }
}

/// Whether the type has the operation: bool has no difference, quotient, remainder, power or shift.
pub fn allowed_binary(op: Binary, t: DType) -> bool
    ensures { result ≡ is_allowed_binary op t }
{
    match op {
        Binary::Sub | Binary::FloorDiv | Binary::Rem | Binary::Pow | Binary::Shl | Binary::Shr => t
            != DType::Bool,
        Binary::Add
        | Binary::Mul
        | Binary::BitAnd
        | Binary::BitOr
        | Binary::BitXor
        | Binary::Min
        | Binary::Max => true,
    }
}

/// The power of a number, wrapped to the type, by squaring; to the 0 it is 1.
pub fn int_pow(base: i128, exponent: u64, t: DType) -> i128
    ensures { result ≡ wrap t (power_of base exponent) }
{
    match t {
        DType::Bool => power_of_number::<bool>(base, exponent),
        DType::Int8 => power_of_number::<i8>(base, exponent),
        DType::Int16 => power_of_number::<i16>(base, exponent),
        DType::Int32 => power_of_number::<i32>(base, exponent),
        DType::Int64 => power_of_number::<i64>(base, exponent),
        DType::UInt8 => power_of_number::<u8>(base, exponent),
        DType::UInt16 => power_of_number::<u16>(base, exponent),
        DType::UInt32 => power_of_number::<u32>(base, exponent),
        DType::UInt64 => power_of_number::<u64>(base, exponent),
    }
}
