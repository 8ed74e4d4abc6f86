ghost use Rattle.std.specs.Prelude.{◌≡◌, ◌≢◌, ◌≤◌, ◌<◌, ◌↔◌, ◌⊎◌, List, [], ◌∷◌, length, Some, None, IfSome, IsSome, IsTrue, Contains};
ghost use Rattle.lg_outside.specs.Outside.{Rose, taken_count};
ghost use Rattle.lg_tree.specs.Tree.{LineTree};
ghost use Rattle.lg_grammar.specs.Script.{Spells};
ghost use Rattle.lg_session.specs.Built.{first_unbuilt};
ghost use Rattle.lg_meaning.specs.Run.{done, fault_at, run};
ghost use Rattle.lg_meaning.specs.declared.fault.FaultKind.{FaultKind};
ghost use Rattle.legate.specs.Statuses as statuses;
ghost use Rattle.legate.specs.Messages.{Logs, message_of};
ghost use Rattle.legate.specs.Commands.{IsCommand};
ghost use Rattle.legate.specs.declared.command.Command.TheVariants.{Run, Check};
ghost use Rattle.legate.specs.Top.{IsRefusedAt, IsRefused, Finishes, Checks, StopsWithin, ChecksPart, StopsBetween, HasFault, EndsAs};

use crate::checking::{CheckStop, check_script};
use crate::command::{Command, command_of};
use crate::exit::{DONE, Exit, NO_MEMORY, READ_FAULT, TOO_LONG, USAGE, WRITE_FAULT};
use crate::loading::{LoadStop, MAX_SCRIPT_BYTES, load};
use crate::messages::told;
use crate::running::{RunStop, run_script};
use lg_outside::{Sink, Source};
use std::alloc::Global;

/// Does with the script that the source holds what the words after the program's name say: it runs
/// the script, and prints go to `out`; or it writes the script's canonical text to `out`, and runs
/// nothing. A message line goes to `log` for each status but `DONE`. The words are read first, then
/// the whole script; then the statements are run in order, or the text is written. A failing log
/// changes nothing. Which statuses there are, and when each comes, is this project's own.
pub fn legate<S: Source, K: Sink, L: Sink>(
    alloc: Global,
    words: &[String],
    source: &mut S,
    out: &mut K,
    log: &mut L,
) -> Exit
    ensures statuses { IsTrue (statuses.is_status result.status) }

    // Done: the whole script was read; it was run, and all that it prints was written, or its
    // canonical text was written.
    ensures done { IsCommand Run words.now → result.status ≡ statuses.DONE
        → IfSome (S.left source.old) (λ bytes.
        Finishes bytes done (S.left source.new) (K.written out.old) (K.written out.new)) }
    ensures checked { IsCommand Check words.now → result.status ≡ statuses.DONE
        → IfSome (S.left source.old) (λ bytes.
        Checks bytes (S.left source.new) (K.written out.old) (K.written out.new)) }

    // Fault, which comes of a run alone: the whole script was read, it ends with this fault at this
    // line, and all that it prints before was written.
    ensures fault { result.status ≡ statuses.FAULT → IfSome (S.left source.old) (λ bytes.
        (kind : FaultKind) × ((result.kind ≡ Some kind) × Finishes bytes (fault_at result.line kind)
        (S.left source.new) (K.written out.old) (K.written out.new))) }
    ensures fault_of_run { result.status ≡ statuses.FAULT → IsCommand Run words.now }

    // Usage, and only it, comes where the words are no command. Nothing is read then.
    ensures usage { (result.status ≡ statuses.USAGE)
        ↔ ((¬ IsCommand Run words.now) × (¬ IsCommand Check words.now)) }
    ensures untouched { result.status ≡ statuses.USAGE → source.new ≡ source.old }

    // Too long: more bytes were taken than a script may have.
    ensures too_long { IfSome (S.left source.old) (λ bytes. (result.status ≡ statuses.TOO_LONG)
        ↔ (MAX_SCRIPT_BYTES < taken_count bytes (S.left source.new))) }

    // Faults of the source and of the output come only where its count rose in this call.
    ensures read_fault { result.status ≡ statuses.READ_FAULT
        → Rose (S.faults source.old) (S.faults source.new) }
    ensures write_fault { result.status ≡ statuses.WRITE_FAULT
        → Rose (K.faults out.old) (K.faults out.new) }

    // Syntax: the bytes spell no script, and the line is the first bad one; or they spell one, and
    // the line is its first one with a statement that is not built yet.
    ensures syntax { result.status ≡ statuses.SYNTAX → IfSome (S.left source.old) (λ bytes.
        IsRefusedAt bytes result.line) }

    // Wherever memory was found, syntax is the answer exactly where none of the three before it is
    // and the bytes spell no script that is built, and a fault is the answer exactly where the
    // script is to be run, none before it is the answer, the script ends with one and the output
    // did not fail.
    ensures syntax_exactly { IfSome (S.left source.old) (λ bytes. result.status ≢ statuses.NO_MEMORY
        → ((result.status ≡ statuses.SYNTAX) ↔ ((result.status ≢ statuses.USAGE)
        × (result.status ≢ statuses.READ_FAULT) × (result.status ≢ statuses.TOO_LONG)
        × IsRefused bytes))) }
    ensures fault_exactly { IfSome (S.left source.old) (λ bytes. result.status ≢ statuses.NO_MEMORY
        → ((result.status ≡ statuses.FAULT) ↔ (IsCommand Run words.now
        × (result.status ≢ statuses.READ_FAULT) × (result.status ≢ statuses.TOO_LONG)
        × (result.status ≢ statuses.SYNTAX) × (result.status ≢ statuses.WRITE_FAULT)
        × HasFault bytes))) }

    // A script of the right length that is built is run to its end, or to its first fault, unless a
    // stream fails or memory lacks; and so its canonical text is written.
    ensures completes { IfSome (S.left source.old) (λ bytes. (script : List LineTree)
        → Spells bytes script → first_unbuilt script ≡ None → IsCommand Run words.now
        → length bytes ≤ MAX_SCRIPT_BYTES
        → (¬ Rose (S.faults source.old) (S.faults source.new))
        → (¬ Rose (K.faults out.old) (K.faults out.new))
        → result.status ≢ statuses.NO_MEMORY → EndsAs result (run script).end) }
    ensures completes_check { IfSome (S.left source.old) (λ bytes. (script : List LineTree)
        → Spells bytes script → first_unbuilt script ≡ None → IsCommand Check words.now
        → length bytes ≤ MAX_SCRIPT_BYTES
        → (¬ Rose (S.faults source.old) (S.faults source.new))
        → (¬ Rose (K.faults out.old) (K.faults out.new))
        → result.status ≢ statuses.NO_MEMORY → result.status ≡ statuses.DONE) }

    // What the output holds where the work did not come to its end.
    ensures part { IsCommand Run words.now → result.status ≡ statuses.WRITE_FAULT
        → IfSome (S.left source.old) (λ bytes.
        StopsWithin bytes (S.left source.new) (K.written out.old) (K.written out.new)) }
    ensures part_of_check { IsCommand Check words.now → result.status ≡ statuses.WRITE_FAULT
        → IfSome (S.left source.old) (λ bytes.
        ChecksPart bytes (S.left source.new) (K.written out.old) (K.written out.new)) }
    ensures whole_prints { result.status ≡ statuses.NO_MEMORY → (out.new ≡ out.old)
        ⊎ IfSome (S.left source.old) (λ bytes. StopsBetween bytes (K.written out.old)
        (K.written out.new)) }
    ensures unwritten { IsCommand Check words.now → result.status ≡ statuses.NO_MEMORY
        → out.new ≡ out.old }
    ensures quiet { Contains (statuses.USAGE ∷ statuses.SYNTAX ∷ statuses.TOO_LONG
        ∷ statuses.READ_FAULT ∷ []) result.status → out.new ≡ out.old }

    // The line and the kind are given with the statuses that name them alone.
    ensures line { result.status ≢ statuses.SYNTAX → result.status ≢ statuses.FAULT
        → result.line ≡ 0 }
    ensures kind { IsSome result.kind ↔ (result.status ≡ statuses.FAULT) }

    // The log gains the message line, or a part of it where its count of faults rose.
    ensures message { Logs (L.faults log.old) (L.faults log.new)
        (L.written log.old) (L.written log.new) (message_of result) }

    // The counts never fall.
    ensures source_later { S.faults source.old ≤ S.faults source.new }
    ensures out_later { K.faults out.old ≤ K.faults out.new }
    ensures log_later { L.faults log.old ≤ L.faults log.new }
{
    let Some(command) = command_of(words) else {
        return told(log, Exit::with(USAGE));
    };
    let script = match load(alloc, source) {
        Ok(script) => script,
        Err(LoadStop::ReadFault) => return told(log, Exit::with(READ_FAULT)),
        Err(LoadStop::TooLong) => return told(log, Exit::with(TOO_LONG)),
        Err(LoadStop::Syntax { line }) => return told(log, Exit::syntax(line)),
        Err(LoadStop::NoMemory) => return told(log, Exit::with(NO_MEMORY)),
    };
    match command {
        Command::Run => match run_script(alloc, &script, out) {
            Ok(()) => Exit::with(DONE),
            Err(RunStop::Fault { line, kind }) => told(log, Exit::fault(line, kind)),
            Err(RunStop::WriteFault) => told(log, Exit::with(WRITE_FAULT)),
            Err(RunStop::NoMemory) => told(log, Exit::with(NO_MEMORY)),
        },
        Command::Check => match check_script(alloc, &script, out) {
            Ok(()) => Exit::with(DONE),
            Err(CheckStop::WriteFault) => told(log, Exit::with(WRITE_FAULT)),
            Err(CheckStop::NoMemory) => told(log, Exit::with(NO_MEMORY)),
        },
    }
}
