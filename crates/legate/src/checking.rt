ghost use Rattle.std.specs.Prelude.{◌≡◌, ◌≤◌, OnOk, IsErrOf};
ghost use Rattle.std.specs.Io.KnownBytes.{Appends};
ghost use Rattle.lg_outside.specs.Outside.{AppendsPart, Rose};
ghost use Rattle.lg_text.specs.Text.{script_text};
ghost use Rattle.lg_tree.specs.View.{script_of};

use lg_outside::{Sink, write_all};
use lg_text::text_of;
use lg_tree::Script;
use std::alloc::Global;

/// Why a check stopped before its end.
#[derive(Clone, Copy, Debug)]
pub enum CheckStop {
    /// The output failed.
    WriteFault,

    /// There was not enough memory.
    NoMemory,
}

/// Writes the canonical text of a script, which is made whole before its first byte is written.
pub fn check_script<K: Sink>(alloc: Global, script: &Script, out: &mut K) -> Result<(), CheckStop>
    ensures done { OnOk result (Appends (K.written out.old) (K.written out.new)
        (script_text (script_of script.now))) }
    ensures part { IsErrOf result CheckStop.WriteFault
        → AppendsPart (K.written out.old) (K.written out.new) (script_text (script_of script.now)) }
    ensures fault { IsErrOf result CheckStop.WriteFault
        → Rose (K.faults out.old) (K.faults out.new) }
    ensures unwritten { IsErrOf result CheckStop.NoMemory → out.new ≡ out.old }
    ensures later { K.faults out.old ≤ K.faults out.new }
{
    let Ok(text) = text_of(alloc, script) else {
        return Err(CheckStop::NoMemory);
    };
    let Ok(()) = write_all(out, &text) else {
        return Err(CheckStop::WriteFault);
    };
    Ok(())
}
