ghost use Rattle.std.specs.Prelude.{◌≡◌, ℤ, pos};
ghost use Rattle.lg_elem.specs.Laws.{WrapsIntoRange, KeepsNumbers, WrapsByModulus, HasNoOther, RestsAbove, RestsBelow};
ghost use Rattle.lg_elem.specs.Types.{wrap};
ghost use Rattle.lg_elem.specs.declared.dtype.DType.TheVariants.{Bool as Truth};

use crate::Elem;

/// To wrap an element's number gives the element back.
#[inline]
#[tactic(auto, using(crate::proofs::WrapLemmas::wrap_same))]
pub fn rewrapped<T: Elem>(x: T) -> T
    ensures { result ≡ x }
{
    T::wrap(x.value())
}

/// Each type has the number to which `wrap` brings a whole number.
#[tactic(auto, using(crate::proofs::WrapLemmas::wrap_fits))]
pub fn wrapped_fits()
    ensures { WrapsIntoRange }
{}

/// What `wrap` brings a whole number to is, for an integer type, the type's one number that equals
/// it modulo 2 to the number of bits (NumPy's reference, "Overflow errors"); for bool 0 where it is
/// 0, else 1. A number of the type stays.
pub fn one_number()
    ensures modulus { WrapsByModulus }
    ensures one { HasNoOther }
    ensures zero { wrap Truth (pos 0) ≡ pos 0 }
    ensures other { (x : ℤ) → ¬ (x ≡ pos 0) → wrap Truth x ≡ pos 1 }
    ensures same { KeepsNumbers }
{}

/// What the quotient rounded down leaves is 0, or has the divisor's sign and is nearer to 0 than
/// the divisor (NumPy's reference, "numpy.floor_divide" and "numpy.remainder").
pub fn floors()
    ensures above { RestsAbove }
    ensures below { RestsBelow }
{}
