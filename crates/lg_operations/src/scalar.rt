//! A weak number where an array is asked for.
ghost use Rattle.std.specs.Prelude.{◌≡◌, [], ◌∷◌, Ok, IfOk};
ghost use Rattle.lg_elem.specs.Types.{IsNumber};
ghost use Rattle.lg_meaning.specs.Faults.{from_part};
ghost use Rattle.lg_meaning.specs.Static.{as_array, array_result, scalar_of, weak_value};
ghost use Rattle.lg_meaning.specs.Value.{plain};
ghost use Rattle.lg_meaning.specs.Weak.{number_of};
ghost use Rattle.lg_operations.specs.Operations.{weak_of, IsMade};

use crate::end::EvaluateEnd;
use crate::rules::has_number;
use crate::values::{Fresh, Weak};
use crate::weak::number;
use lg_elem::DType;
use lg_meaning::FaultKind;
use lg_shape::Shape;
use lg_store::Right;
use lg_tile::AnyTile;
use std::alloc::Global;

/// A weak number as a scalar: an integer is one of int64, and a truth value one of bool.
///
/// # Errors
///
/// `Range` where an integer does not fit int64, and `NoMemory`.
pub fn scalar_array(alloc: Global, w: Weak) -> Result<Fresh, EvaluateEnd>
    ensures { IsMade (array_result (as_array (weak_value (weak_of w))))
        (λ kind. plain [] (number_of (weak_of w) ∷ [])) result }
{
    let dtype = scalar_type(w)?;
    let all = Shape::new(&[]).whole();
    Ok(Fresh {
        tile: AnyTile::filled(alloc, dtype, &all, number(w))?,
        right: Right::Scalar,
        fault: None,
    })
}

// The type that a weak number has as an array.
#[tactic(auto, using(crate::proofs::Statics::has_number_is))]
fn scalar_type(w: Weak) -> Result<DType, FaultKind>
    ensures kind { from_part result (λ t. Ok (scalar_of t)) ≡ as_array (weak_value (weak_of w)) }
    ensures number { IfOk result (λ t. IsNumber t (number_of (weak_of w))) }
{
    match w {
        Weak::Integer(x) => {
            if has_number(DType::Int64, x) {
                Ok(DType::Int64)
            } else {
                Err(FaultKind::Range)
            }
        }
        Weak::Truth(_) => Ok(DType::Bool),
    }
}
