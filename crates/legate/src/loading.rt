ghost use Rattle.std.specs.Prelude.{◌≡◌, ◌≤◌, ◌<◌, ◌↔◌, ℕ, List, [], Some, None, IfOk, IfSome, IsErrOf};
ghost use Rattle.lg_outside.specs.Outside.{Rose, taken_count};
ghost use Rattle.lg_tree.specs.Tree.{LineTree};
ghost use Rattle.lg_grammar.specs.Script.{Spells};
ghost use Rattle.lg_tree.specs.View.{script_of};
ghost use Rattle.lg_session.specs.Built.{first_unbuilt as first_unbuilt_of};
ghost use Rattle.legate.specs.Top.{IsRefusedAt};

use lg_grammar::{ScriptEnd, read_script};
use lg_outside::{ReadEnd, Source, read_all};
use lg_session::first_unbuilt;
use lg_tree::Script;
use std::alloc::Global;

/// The most bytes that a script may have.
pub const MAX_SCRIPT_BYTES: usize = 1_048_576;

/// Why no script was loaded.
#[derive(Clone, Copy, Debug)]
pub enum LoadStop {
    ReadFault,
    TooLong,
    Syntax { line: u64 },
    NoMemory,
}

/// Reads a source to its end, and the script that its bytes spell. A script with a statement that
/// a session does not evaluate yet is refused at the line of the first one.
pub fn load<S: Source>(alloc: Global, source: &mut S) -> Result<Script, LoadStop>
    ensures script { IfOk result (λ script. IfSome (S.left source.old) (λ bytes.
        Spells bytes (script_of script))) }
    ensures built { IfOk result (λ script. first_unbuilt_of (script_of script) ≡ None) }
    ensures only { IfOk result (λ script. IfSome (S.left source.old) (λ bytes.
        (other : List LineTree) → Spells bytes other → other ≡ script_of script)) }
    ensures all_read { IfOk result (λ script. IfSome (S.left source.old) (λ bytes.
        S.left source.new ≡ Some [])) }
    ensures syntax { (line : ℕ) → IsErrOf result (LoadStop.Syntax line)
        → IfSome (S.left source.old) (λ bytes. IsRefusedAt bytes line) }
    ensures too_long { IfSome (S.left source.old) (λ bytes.
        IsErrOf result LoadStop.TooLong
        ↔ (MAX_SCRIPT_BYTES < taken_count bytes (S.left source.new))) }
    ensures read_fault { IsErrOf result LoadStop.ReadFault
        → Rose (S.faults source.old) (S.faults source.new) }
    ensures later { S.faults source.old ≤ S.faults source.new }
{
    let bytes = match read_all(alloc, source, MAX_SCRIPT_BYTES) {
        Ok(bytes) => bytes,
        Err(ReadEnd::ReadFault) => return Err(LoadStop::ReadFault),
        Err(ReadEnd::TooLong) => return Err(LoadStop::TooLong),
        Err(ReadEnd::NoMemory) => return Err(LoadStop::NoMemory),
    };
    match read_script(alloc, &bytes) {
        Ok(script) => match first_unbuilt(&script) {
            None => Ok(script),
            Some(line) => Err(LoadStop::Syntax { line }),
        },
        Err(ScriptEnd::Syntax { line }) => Err(LoadStop::Syntax { line }),
        Err(ScriptEnd::NoMemory) => Err(LoadStop::NoMemory),
    }
}
