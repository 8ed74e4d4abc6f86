ghost use Rattle.std.specs.Prelude.{◌≡◌, ◌≤◌, OnOk, OnErr};
ghost use Rattle.std.specs.Io.KnownBytes.{Appends};
ghost use Rattle.lg_outside.specs.Outside.{AppendsPart, Rose};
ghost use Rattle.legate.specs.Messages.{Logs, text_of, text_of_kind, text_of_status, as_line, at_line, message_of};

use crate::exit::{DONE, Exit, FAULT, READ_FAULT, SYNTAX, TOO_LONG, USAGE, WRITE_FAULT};
use itoa::Buffer;
use lg_meaning::FaultKind;
use lg_outside::{Sink, WriteFault, write_all};

// What the message of a status says that names no line. This project's own.
fn status_text(status: u8) -> &'static [u8]
    ensures { result.now ≡ text_of_status status }
{
    match status {
        USAGE => b"usage: legate run, check or demo",
        TOO_LONG => b"script too long",
        READ_FAULT => b"read fault",
        WRITE_FAULT => b"write fault",
        _ => b"no memory",
    }
}

// What a message says of a kind of fault. This project's own.
fn fault_text(kind: FaultKind) -> &'static [u8]
    ensures { result.now ≡ text_of kind }
{
    match kind {
        FaultKind::Name => b"name",
        FaultKind::TypeKind => b"type",
        FaultKind::Range => b"range",
        FaultKind::Shape => b"shape",
        FaultKind::Index => b"index",
        FaultKind::Step => b"step",
        FaultKind::Divisor => b"zero divisor",
        FaultKind::Power => b"power",
        FaultKind::ReadOnly => b"read-only",
        FaultKind::Limit => b"limit",
    }
}

/// Ends with this answer, and writes its message line: none where the whole work was done. It takes
/// no memory. A log that fails keeps the front of the line that it took: there is nowhere else to
/// say so.
pub fn told<L: Sink>(log: &mut L, exit: Exit) -> Exit
    ensures exit { result ≡ exit }
    ensures logged { Logs (L.faults log.old) (L.faults log.new)
        (L.written log.old) (L.written log.new) (message_of exit) }
    ensures later { L.faults log.old ≤ L.faults log.new }
{
    let _ = match exit.status {
        DONE => Ok(()),
        SYNTAX => write_at_line(log, exit.line, b"syntax"),
        FAULT => write_at_line(log, exit.line, kind_text(exit.kind)),
        status => write_line(log, status_text(status)),
    };
    exit
}

// What a message says of a kind of fault, if there is one.
fn kind_text(kind: Option<FaultKind>) -> &'static [u8]
    ensures { result.now ≡ text_of_kind kind }
{
    match kind {
        Some(kind) => fault_text(kind),
        None => b"",
    }
}

// Writes a text as a line of its own.
fn write_line<L: Sink>(log: &mut L, text: &[u8]) -> Result<(), WriteFault>
    ensures whole { OnOk result (Appends (L.written log.old) (L.written log.new)
        (as_line text.now)) }
    ensures part { OnErr result (AppendsPart (L.written log.old) (L.written log.new)
        (as_line text.now)) }
    ensures fault { OnErr result (Rose (L.faults log.old) (L.faults log.new)) }
    ensures later { L.faults log.old ≤ L.faults log.new }
{
    let Ok(()) = write_all(log, text) else {
        return Err(WriteFault);
    };
    let Ok(()) = write_all(log, b"\n") else {
        return Err(WriteFault);
    };
    Ok(())
}

// Writes a text about a line of the script as a line of its own.
fn write_at_line<L: Sink>(log: &mut L, line: u64, text: &[u8]) -> Result<(), WriteFault>
    ensures whole { OnOk result (Appends (L.written log.old) (L.written log.new)
        (at_line line text.now)) }
    ensures part { OnErr result (AppendsPart (L.written log.old) (L.written log.new)
        (at_line line text.now)) }
    ensures fault { OnErr result (Rose (L.faults log.old) (L.faults log.new)) }
    ensures later { L.faults log.old ≤ L.faults log.new }
{
    let mut digits = Buffer::new();
    let Ok(()) = write_all(log, b"line ") else {
        return Err(WriteFault);
    };
    let Ok(()) = write_all(log, digits.format(line).as_bytes()) else {
        return Err(WriteFault);
    };
    let Ok(()) = write_all(log, b": ") else {
        return Err(WriteFault);
    };
    let Ok(()) = write_line(log, text) else {
        return Err(WriteFault);
    };
    Ok(())
}
