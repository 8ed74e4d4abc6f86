ghost use Rattle.std.specs.Prelude.{◌≡◌};
ghost use Rattle.lg_operations.specs.declared.end.EvaluateEnd.TheVariants.{Fault as FaultOf, NoMemory as NoRoom};

use lg_meaning::FaultKind;
use lg_outside::NoMemory as OutOfMemory;
use std::alloc::{AllocError, AllocFailed};

/// Why an expression has no value, or a statement was not performed.
#[derive(Clone, Copy, Debug, PartialEq, Eq)]
pub enum EvaluateEnd {
    /// The first fault.
    Fault(FaultKind),

    /// There was not enough memory.
    NoMemory,
}

impl From<FaultKind> for EvaluateEnd {
    ghost from_gives = { λ kind end. end ≡ FaultOf kind };

    fn from(kind: FaultKind) -> EvaluateEnd {
        EvaluateEnd::Fault(kind)
    }
}

impl From<AllocError> for EvaluateEnd {
    ghost from_gives = { λ _ end. end ≡ NoRoom };

    fn from(_: AllocError) -> EvaluateEnd {
        EvaluateEnd::NoMemory
    }
}

impl<T: Drop> From<AllocFailed<T>> for EvaluateEnd {
    ghost from_gives = { λ _ end. end ≡ NoRoom };

    fn from(_: AllocFailed<T>) -> EvaluateEnd {
        EvaluateEnd::NoMemory
    }
}

impl From<OutOfMemory> for EvaluateEnd {
    ghost from_gives = { λ _ end. end ≡ NoRoom };

    fn from(_: OutOfMemory) -> EvaluateEnd {
        EvaluateEnd::NoMemory
    }
}
