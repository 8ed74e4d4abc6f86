ghost use Rattle.std.specs.Prelude.{◌≡◌};
ghost use Rattle.lg_promote.specs.Kinds.{place_of, is_same_kind};

use crate::kind::Kind;
use lg_elem::DType;

/// Whether going from a type to another is same kind: the place in the order bool, unsigned, signed
/// does not fall (NumPy's reference, "numpy.can_cast").
pub fn same_kind(from: DType, to: DType) -> bool
    ensures { result ≡ is_same_kind from to }
{
    place(Kind::of(from)) <= place(Kind::of(to))
}

// The place of a kind in that order.
fn place(kind: Kind) -> u8
    ensures { result ≡ place_of kind }
{
    match kind {
        Kind::Truth => 0,
        Kind::Unsigned(_) => 1,
        Kind::Signed(_) => 2,
    }
}
