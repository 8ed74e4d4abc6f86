ghost use Rattle.std.specs.Prelude.{◌≡◌, ◌≤◌, ◌↔◌, IsErr};
ghost use Rattle.std.specs.Result.{result_ok};
ghost use Rattle.lg_promote.specs.Kinds.{bits_of};
ghost use Rattle.lg_promote.specs.Promotion.{common_type, type_of, joined, IsApart};

use crate::kind::Kind;
use lg_elem::DType;
use thiserror::Error;

/// Two types have no type in common.
#[derive(Clone, Copy, Debug, PartialEq, Eq, Error)]
#[error("no common type")]
pub struct NoCommonType;

/// The type that two types have in common (NumPy's reference, "Data type promotion in NumPy"): bool
/// with a type gives the type; two types with the same sign the wider; N bits with a sign and M
/// without one give N bits with a sign where N is above M, else twice M. There is none exactly for
/// uint64 with a signed type.
pub fn promote(a: DType, b: DType) -> Result<DType, NoCommonType>
    ensures common { result_ok result ≡ common_type a b }
    ensures fault { IsErr result ↔ IsApart a b }
{
    typed(together(Kind::of(a), Kind::of(b)))
}

// The kind of what two kinds have in common.
fn together(a: Kind, b: Kind) -> Kind
    requires few_a { bits_of a ≤ 64 }
    requires few_b { bits_of b ≤ 64 }
    ensures { result ≡ joined a b }
{
    match (a, b) {
        (Kind::Truth, other) | (other, Kind::Truth) => other,
        (Kind::Signed(n), Kind::Signed(m)) => Kind::Signed(n.max(m)),
        (Kind::Unsigned(n), Kind::Unsigned(m)) => Kind::Unsigned(n.max(m)),
        (Kind::Signed(n), Kind::Unsigned(m)) | (Kind::Unsigned(m), Kind::Signed(n)) => {
            Kind::Signed(if m < n { n } else { 2 * m })
        }
    }
}

// The type of a kind, where there is one.
fn typed(kind: Kind) -> Result<DType, NoCommonType>
    ensures { result_ok result ≡ type_of kind }
{
    match kind {
        Kind::Truth => Ok(DType::Bool),
        Kind::Signed(8) => Ok(DType::Int8),
        Kind::Signed(16) => Ok(DType::Int16),
        Kind::Signed(32) => Ok(DType::Int32),
        Kind::Signed(64) => Ok(DType::Int64),
        Kind::Unsigned(8) => Ok(DType::UInt8),
        Kind::Unsigned(16) => Ok(DType::UInt16),
        Kind::Unsigned(32) => Ok(DType::UInt32),
        Kind::Unsigned(64) => Ok(DType::UInt64),
        Kind::Signed(_) | Kind::Unsigned(_) => Err(NoCommonType),
    }
}
