ghost use Rattle.std.specs.Prelude.{◌≡◌};
ghost use Rattle.lg_operations.specs.Operations.{operand_value};

use lg_meaning::FaultKind;
use lg_store::Right;
use lg_tile::AnyTile;
use lg_xform::Chain;

/// A number or truth value that a script writes, or that follows from such alone. It takes the type
/// of an array that it meets (NumPy's "NEP 50"). An integer is from -2 ^ 63 to 2 ^ 64 - 1.
#[derive(Clone, Copy, Debug, PartialEq, Eq)]
pub enum Weak {
    Integer(i128),
    Truth(bool),
}

/// What an operation is applied to.
#[derive(Clone, Copy)]
pub enum Operand<'a> {
    Weak(Weak),

    /// An array: its elements lie over all indices of its shape.
    Array {
        tile: &'a AnyTile,
        right: Right,

        /// The first fault of its elements, each of which is then 0.
        fault: Option<FaultKind>,
    },

    /// A view of a root whose elements are a tile. They have no fault.
    View {
        tile: &'a AnyTile,
        chain: &'a Chain,
        right: Right,
    },
}

impl Operand<'_> {
    /// The first fault of its elements.
    pub fn fault(&self) -> Option<FaultKind>
        ensures { result ≡ (operand_value self.now).fault }
    {
        match self {
            Operand::Weak(_) | Operand::View { .. } => None,
            Operand::Array { fault, .. } => *fault,
        }
    }
}

/// A new array.
#[derive(Drop)]
pub struct Fresh {
    /// Its elements, over all indices of its shape.
    pub tile: AnyTile,

    /// What a script may do with it.
    pub right: Right,

    /// The first fault of its elements, each of which is then 0.
    pub fault: Option<FaultKind>,
}
