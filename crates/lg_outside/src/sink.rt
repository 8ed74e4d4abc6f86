ghost use Rattle.std.specs.Prelude.{List, Option, ℕ};
ghost use Rattle.std.specs.Io.KnownBytes.{WriteAppends};
ghost use Rattle.lg_outside.specs.Outside.{HasCause, TakesSome};

use crate::Failed;

/// Where bytes go, as a file, a terminal or a list in memory.
pub trait Sink {
    /// The bytes written so far, where the sink tells them.
    ghost written: { Self → Option (List ℕ) };

    /// A count of faults that never falls.
    ghost faults: { Self → ℕ };

    /// Appends the front of `piece`, and says how many bytes that are: at least one, unless `piece`
    /// is empty. At `Err` nothing was appended, and the count of faults rose.
    fn put(&mut self, piece: &[u8]) -> Result<usize, Failed>
        ensures bound { TakesSome result piece.now }
        ensures bytes { WriteAppends (written self.old) (written self.new) result piece.now }
        ensures cause { HasCause (faults self.old) (faults self.new) result };
}
