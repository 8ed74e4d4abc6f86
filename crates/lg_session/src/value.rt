use lg_operations::{Fresh, Weak};
use lg_store::View;
use lg_tile::Room;

/// What an expression stands for.
#[derive(Drop)]
pub(crate) enum Value {
    /// A weak number.
    Weak(Weak),

    /// A view of a root that a name reaches.
    Shown(View),

    /// An array that no root holds yet.
    Fresh(Fresh),
}

impl Value {
    /// Gives the memory of a new array back that was read.
    pub(crate) fn release(self, room: Room<'_>) {
        if let Value::Fresh(fresh) = self {
            room.keep(fresh.tile);
        }
    }
}
