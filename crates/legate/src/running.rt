ghost use Rattle.std.specs.Prelude.{◌≡◌, ◌≤◌, None, OnOk, IfErr, IsErrOf};
ghost use Rattle.lg_outside.specs.Outside.{Rose};
ghost use Rattle.lg_tree.specs.View.{script_of};
ghost use Rattle.lg_meaning.specs.Run.{done};
ghost use Rattle.lg_session.specs.Built.{first_unbuilt};
ghost use Rattle.legate.specs.Running.{Ends, IsStopped, stop_of};

use crate::walk::run_lines;
use lg_meaning::FaultKind;
use lg_outside::Sink;
use lg_session::{Room, Session, Spares, StopEnd};
use lg_tree::Script;
use std::alloc::Global;

/// Into how many tiles an operation is cut at most. It never changes what a script prints; on one
/// thread one tile takes the least time, since nothing has to be joined.
const PIECES: u32 = 1;

/// Why a run stopped before its end.
#[derive(Clone, Copy, Debug)]
pub enum RunStop {
    /// The statement of this line has this fault.
    Fault {
        /// The line, from 1.
        line: u64,

        /// The fault.
        kind: FaultKind,
    },

    /// The output failed.
    WriteFault,

    /// There was not enough memory.
    NoMemory,
}

impl From<StopEnd> for RunStop {
    ghost from_gives = { λ end stop. stop ≡ stop_of end };

    fn from(end: StopEnd) -> RunStop {
        match end {
            StopEnd::Fault { line, kind } => RunStop::Fault { line, kind },
            StopEnd::NoMemory => RunStop::NoMemory,
        }
    }
}

/// Runs the statements in order, and writes what each prints.
pub fn run_script<K: Sink>(alloc: Global, script: &Script, out: &mut K) -> Result<(), RunStop>
    requires { first_unbuilt (script_of script.now) ≡ None }
    ensures done { OnOk result (Ends (script_of script.now) done (K.written out.old)
        (K.written out.new)) }
    ensures stopped { IfErr result (λ stop.
        IsStopped stop (script_of script.now) (K.written out.old) (K.written out.new)) }
    ensures fault { IsErrOf result RunStop.WriteFault → Rose (K.faults out.old) (K.faults out.new) }
    ensures later { K.faults out.old ≤ K.faults out.new }
{
    let Ok(mut session) = Session::new(alloc, PIECES) else {
        return Err(RunStop::NoMemory);
    };
    let spares = Spares::new();
    let mut count = 0;
    run_lines(
        Room::beside(alloc, &spares),
        script.lines.as_slice(),
        &mut session,
        &mut count,
        out,
    )
}
