//! How operators, types and calls are written.
ghost use Rattle.std.specs.Prelude.{◌≡◌};
ghost use Rattle.lg_text.specs.Words as spec;

use lg_elem::{Compare, DType};
use lg_tree::{Arith, Red, ScanCall};

pub(crate) fn truth_text(truth: bool) -> &'static [u8]
    ensures { result.now ≡ spec.truth_text truth }
{
    if truth { b"True" } else { b"False" }
}

pub(crate) fn arith_text(op: Arith) -> &'static [u8]
    ensures { result.now ≡ spec.arith_text op }
{
    match op {
        Arith::Add => b"+",
        Arith::Sub => b"-",
        Arith::Mul => b"*",
        Arith::FloorDiv => b"//",
        Arith::Rem => b"%",
        Arith::Pow => b"**",
        Arith::BitAnd => b"&",
        Arith::BitOr => b"|",
        Arith::BitXor => b"^",
        Arith::Shl => b"<<",
        Arith::Shr => b">>",
    }
}

pub(crate) fn compare_text(op: Compare) -> &'static [u8]
    ensures { result.now ≡ spec.compare_text op }
{
    match op {
        Compare::Eq => b"==",
        Compare::Ne => b"!=",
        Compare::Lt => b"<",
        Compare::Le => b"<=",
        Compare::Gt => b">",
        Compare::Ge => b">=",
    }
}

pub(crate) fn dtype_text(dtype: DType) -> &'static [u8]
    ensures { result.now ≡ spec.dtype_text dtype }
{
    match dtype {
        DType::Bool => b"bool",
        DType::Int8 => b"int8",
        DType::Int16 => b"int16",
        DType::Int32 => b"int32",
        DType::Int64 => b"int64",
        DType::UInt8 => b"uint8",
        DType::UInt16 => b"uint16",
        DType::UInt32 => b"uint32",
        DType::UInt64 => b"uint64",
    }
}

pub(crate) fn red_text(call: Red) -> &'static [u8]
    ensures { result.now ≡ spec.red_text call }
{
    match call {
        Red::Sum => b"sum",
        Red::Prod => b"prod",
        Red::Min => b"min",
        Red::Max => b"max",
        Red::Any => b"any",
        Red::All => b"all",
    }
}

pub(crate) fn scan_text(call: ScanCall) -> &'static [u8]
    ensures { result.now ≡ spec.scan_text call }
{
    match call {
        ScanCall::CumSum => b"cumsum",
        ScanCall::CumProd => b"cumprod",
        ScanCall::ArgMin => b"argmin",
        ScanCall::ArgMax => b"argmax",
    }
}
