ghost use Rattle.std.specs.Prelude.{◌≡◌};

use std::alloc::AllocError;

/// Why tokens give no tree.
#[derive(Clone, Copy, Debug)]
pub enum ParseEnd {
    /// They spell none, or a tree that is too high.
    Syntax,
    /// There is no memory for it.
    NoMemory,
}

impl From<AllocError> for ParseEnd {
    ghost use Rattle.lg_parse.specs.declared.ends.ParseEnd.TheVariants.{NoMemory};

    ghost from_gives = { λ _ e. e ≡ NoMemory };

    fn from(_error: AllocError) -> Self {
        ParseEnd::NoMemory
    }
}
