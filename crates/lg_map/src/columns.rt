//! What the loops read, place by place. The loops are compiled for each kind of column, so that
//! each reads a slice by its index, or one element that stays.
ghost use Rattle.std.specs.Prelude.{◌≡◌, ℕ, ◌<◌, length, ℤ};
ghost use Rattle.lg_elem.specs.Types.{wrap};
ghost use Rattle.lg_map.specs.Columns.{item_at};

use lg_elem::Elem;
use lg_tile::Section;

/// The elements of an operand over a rectangle.
#[derive(Drop)]
pub enum Values<'a, T> {
    /// An element for each place.
    Items(Section<'a, T>),

    /// The same element at each place.
    Constant(T),
}

/// An element at each place, as a loop reads it.
pub trait Column<T: Elem>: Copy {
    /// There is an element at a place.
    ghost reaches: { Self → ℕ → Type 0 };

    /// The number at a place.
    ghost number_of: { Self → ℕ → ℤ };

    /// The element at a place.
    fn at(self, place: usize) -> T
        requires { reaches self place }
        ensures value { T.number result ≡ number_of self place }
        ensures wrapped { T.number result ≡ wrap T.DTYPE (number_of self place) };
}

impl<T: Elem> Column<T> for &[T] {
    ghost reaches = { λ items place. place < length items.now };

    ghost number_of = { λ items place. item_at T.number items.now place };

    #[inline]
    fn at(self, place: usize) -> T {
        let item = self[place];
        // That an element's number is one of its type is known of an element that was asked for it.
        let _number = item.value();
        item
    }
}

/// The same element at each place.
#[derive(Clone, Copy)]
pub struct Constant<T>(pub T);

impl<T: Elem> Column<T> for Constant<T> {
    ghost reaches = { λ x place. Unit {0} };

    ghost number_of = { λ x place. T.number x.0 };

    #[inline]
    #[tactic(auto, using(crate::proofs::ColumnLemmas::wrapped_same))]
    fn at(self, _place: usize) -> T {
        let _number = self.0.value();
        self.0
    }
}
