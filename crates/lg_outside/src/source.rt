ghost use Rattle.std.specs.Prelude.{List, Option, ℕ};
ghost use Rattle.std.specs.Io.{ReadsAtMost};
ghost use Rattle.std.specs.Io.KnownBytes.{ReadConsumes};
ghost use Rattle.lg_outside.specs.Outside.{HasCause};

use crate::Failed;

/// Where bytes come from, as a file, a terminal or a list in memory.
pub trait Source {
    /// The bytes left, where the source tells them.
    ghost left: { Self → Option (List ℕ) };

    /// A count of faults that never falls.
    ghost faults: { Self → ℕ };

    /// Reads some bytes into the front of `buf`, and says how many, in bytes. `Ok(0)` for a buffer
    /// that is not empty means that nothing is left. At `Err` nothing was taken, and the count of
    /// faults rose.
    fn next(&mut self, buf: &mut [u8]) -> Result<usize, Failed>
        ensures bound { ReadsAtMost result buf.new }
        ensures bytes { ReadConsumes (left self.old) (left self.new) result buf.new }
        ensures cause { HasCause (faults self.old) (faults self.new) result };
}
