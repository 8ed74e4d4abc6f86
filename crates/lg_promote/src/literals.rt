ghost use Rattle.std.specs.Prelude.{◌≡◌};
ghost use Rattle.std.specs.Result.{result_ok};
ghost use Rattle.lg_elem.specs.Types.{least, greatest};
ghost use Rattle.lg_promote.specs.Literals.{literal_of};

use lg_elem::DType;
use thiserror::Error;

/// The type lacks the number.
#[derive(Clone, Copy, Debug, PartialEq, Eq, Error)]
#[error("the number does not fit the type")]
pub struct DoesNotFit;

/// The number that a literal stands for at a type: at an integer type the literal itself, which
/// the type has to have; at bool 0 or 1, by whether it is 0 (NumPy's reference, "Data type
/// promotion in NumPy", on Python's integers).
pub fn literal(x: i128, t: DType) -> Result<i128, DoesNotFit>
    ensures { result_ok result ≡ literal_of x t }
{
    if t == DType::Bool {
        return Ok(i128::from(x != 0));
    }
    let (least, greatest) = limits(t);
    if least <= x && x <= greatest {
        Ok(x)
    } else {
        Err(DoesNotFit)
    }
}

// The least and the greatest number of a type.
fn limits(t: DType) -> (i128, i128)
    ensures least { result.0 ≡ least t }
    ensures greatest { result.1 ≡ greatest t }
{
    match t {
        DType::Bool => (0, 1),
        DType::Int8 => (i128::from(i8::MIN), i128::from(i8::MAX)),
        DType::Int16 => (i128::from(i16::MIN), i128::from(i16::MAX)),
        DType::Int32 => (i128::from(i32::MIN), i128::from(i32::MAX)),
        DType::Int64 => (i128::from(i64::MIN), i128::from(i64::MAX)),
        DType::UInt8 => (0, i128::from(u8::MAX)),
        DType::UInt16 => (0, i128::from(u16::MAX)),
        DType::UInt32 => (0, i128::from(u32::MAX)),
        DType::UInt64 => (0, i128::from(u64::MAX)),
    }
}
