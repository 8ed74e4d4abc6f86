//! Whole calls over streams in memory, with what each must answer, print and log.
mod loops;
mod scripts;
mod statements;

use crate::messages::told;
use crate::{Exit, legate};
use lg_meaning::FaultKind;
use lg_outside::{MemorySink, MemorySource};
use std::alloc::{AllocError, Global};
use std::process::Abort;
use std::str;
use std::test::Fail;

// What a call is given and must answer. The status numbers are written out. The source gives at
// most `piece` bytes in a call; `reads` and `writes` are the numbers of the calls that fail.
#[derive(Clone, Copy)]
struct Row {
    words: &'static [&'static str],
    script: &'static str,
    piece: usize,
    reads: &'static [u64],
    room: usize,
    writes: &'static [u64],
    status: u8,
    line: u64,
    kind: Option<FaultKind>,
    out: &'static str,
    log: &'static str,
}

// A row of `run` with streams that don't fail.
fn plain(script: &'static str, status: u8, line: u64, out: &'static str, log: &'static str) -> Row {
    Row {
        words: &["run"],
        script,
        piece: 4096,
        reads: &[],
        room: 4096,
        writes: &[],
        status,
        line,
        kind: None,
        out,
        log,
    }
}

// A row of `check` with streams that don't fail.
fn checked(
    script: &'static str,
    status: u8,
    line: u64,
    out: &'static str,
    log: &'static str,
) -> Row {
    Row {
        words: &["check"],
        ..plain(script, status, line, out, log)
    }
}

// A row of `run` that ends with a fault.
fn faulty(
    script: &'static str,
    line: u64,
    kind: FaultKind,
    out: &'static str,
    log: &'static str,
) -> Row {
    Row {
        kind: Some(kind),
        ..plain(script, 4, line, out, log)
    }
}

fn try_row(rt: &impl Abort, alloc: Global, row: &Row) -> Result<(), Fail> {
    let mut words = Vec::new(alloc);
    for word in row.words {
        words.push(String::from_str(alloc, word)?)?;
    }
    assert!(rt; row.piece > 0);
    let script = row.script;
    let bytes = script.as_bytes().to_vec(alloc)?;
    let mut source = MemorySource::new(bytes, row.piece, row.reads.to_vec(alloc)?);
    let mut out = MemorySink::new(alloc, row.room, row.writes.to_vec(alloc)?)?;
    let mut log = MemorySink::new(alloc, 4096, Vec::new(alloc))?;
    let exit = legate(alloc, &words, &mut source, &mut out, &mut log);
    assert_eq!(rt; exit.status, row.status, "{script}");
    assert_eq!(rt; exit.line, row.line, "{script}");
    assert_eq!(rt; exit.kind, row.kind, "{script}");
    assert_eq!(rt; str::from_utf8(out.bytes()), Ok(row.out), "{script}");
    assert_eq!(rt; str::from_utf8(log.bytes()), Ok(row.log), "{script}");
    Ok(())
}

// Runs a script with streams that don't fail, and compares status, prints and log.
fn ends_with(
    rt: &impl Abort,
    alloc: Global,
    script: &str,
    status: u8,
    printed: &str,
    logged: &str,
) -> Result<(), Fail> {
    let words = vec![in alloc; String::from_str(alloc, "run")?]?;
    let mut source = MemorySource::new(script.as_bytes().to_vec(alloc)?, 4096, Vec::new(alloc));
    let mut out = MemorySink::new(alloc, 4096, Vec::new(alloc))?;
    let mut log = MemorySink::new(alloc, 64, Vec::new(alloc))?;
    let exit = legate(alloc, &words, &mut source, &mut out, &mut log);
    assert_eq!(rt; exit.status, status, "{script}");
    assert_eq!(rt; str::from_utf8(out.bytes()), Ok(printed), "{script}");
    assert_eq!(rt; str::from_utf8(log.bytes()), Ok(logged), "{script}");
    Ok(())
}

#[test]
fn scripts_print(rt: HostRuntime) -> Result<(), Fail> {
    let rows = [
        plain("", 0, 0, "", ""),
        plain("a = full(3, 7)\nprint(a + a)", 0, 0, "[14, 14, 14]\n", ""),
        plain(
            "print(full(0, 7))\n\n \t\nprint( full(1 ,\t0) )\n",
            0,
            0,
            "[]\n[0]\n",
            "",
        ),
        plain(
            "print(full(1, 5) + full(3, 1))\nprint(full(2, 1) + full(1, 4) + full(2, 2))\nprint(full(0, 1) + full(1, 1))",
            0,
            0,
            "[6, 6, 6]\n[7, 7]\n[]\n",
            "",
        ),
        plain(
            "a = full(2, 1)\nb = a\na = full(1, 9)\nprint(b)\nprint(a + b)\nb = b + b\nprint(b)",
            0,
            0,
            "[1, 1]\n[10, 10]\n[2, 2]\n",
            "",
        ),
    ];
    for row in &rows {
        try_row(&rt, rt.alloc(), row)?;
    }
    Ok(())
}

#[test]
fn scripts_have_faults(rt: HostRuntime) -> Result<(), Fail> {
    let rows = [
        plain("print(sum(a))", 3, 1, "", "line 1: syntax\n"),
        faulty("print(a + 1)", 1, FaultKind::Name, "", "line 1: name\n"),
        plain(
            "print(full(1, 1))\nprint(full(1, 01))\n",
            3,
            2,
            "",
            "line 2: syntax\n",
        ),
        faulty("print(b)", 1, FaultKind::Name, "", "line 1: name\n"),
        faulty(
            "a = full(2, 1) + full(3, 1)",
            1,
            FaultKind::Shape,
            "",
            "line 1: shape\n",
        ),
        faulty(
            "print(full(1, 1))\n\nprint(full(2, 1) + full(3, 1) + c)\nprint(full(1, 2))",
            3,
            FaultKind::Shape,
            "[1]\n",
            "line 3: shape\n",
        ),
        faulty(
            "a = a\nprint(full(1, 2))",
            1,
            FaultKind::Name,
            "",
            "line 1: name\n",
        ),
    ];
    for row in &rows {
        try_row(&rt, rt.alloc(), row)?;
    }
    Ok(())
}

// The script that doubles 1 so often and prints it.
fn doublings(alloc: Global, count: u32) -> Result<Vec<u8>, AllocError> {
    let mut script = Vec::from_slice(alloc, b"a = full(1, 1)\n")?;
    for _ in 0..count {
        script.extend_from_slice(b"a = a + a\n")?;
    }
    script.extend_from_slice(b"print(a)\n")?;
    Ok(script)
}

#[test]
fn sums_wrap_at_64_bits(rt: HostRuntime) -> Result<(), Fail> {
    let alloc = rt.alloc();
    for (count, text) in [
        (62, b"[4611686018427387904]\n".as_slice()),
        (63, b"[-9223372036854775808]\n"),
        (64, b"[0]\n"),
    ] {
        let words = vec![in alloc; String::from_str(alloc, "run")?]?;
        let mut source = MemorySource::new(doublings(alloc, count)?, 4096, Vec::new(alloc));
        let mut out = MemorySink::new(alloc, 64, Vec::new(alloc))?;
        let mut log = MemorySink::new(alloc, 64, Vec::new(alloc))?;
        let exit = legate(alloc, &words, &mut source, &mut out, &mut log);
        assert_eq!(rt; exit.status, 0);
        assert_eq!(rt; out.bytes(), text);
    }
    Ok(())
}

#[test]
fn streams_and_words_fail(rt: HostRuntime) -> Result<(), Fail> {
    let script = "a = full(3, 7)\nprint(a + a)\nprint(full(1, 5))";
    let base = plain(script, 0, 0, "[14, 14, 14]\n[5]\n", "");
    let rows = [
        Row {
            piece: 4,
            reads: &[2],
            status: 6,
            out: "",
            log: "read fault\n",
            ..base
        },
        Row {
            room: 3,
            status: 7,
            out: "[14",
            log: "write fault\n",
            ..base
        },
        Row {
            writes: &[2],
            status: 7,
            out: "[14, 14, 14]\n",
            log: "write fault\n",
            ..base
        },
        Row {
            script: "print(1)\nprint(2)",
            writes: &[2],
            status: 7,
            out: "1\n",
            log: "write fault\n",
            ..base
        },
        Row {
            script: "for i in range(3):\n    print(i)",
            writes: &[3],
            status: 7,
            out: "0\n1\n",
            log: "write fault\n",
            ..base
        },
        Row {
            words: &[],
            status: 2,
            out: "",
            log: "usage: legate run, check or demo\n",
            ..base
        },
        Row {
            words: &["run", "run"],
            status: 2,
            out: "",
            log: "usage: legate run, check or demo\n",
            ..base
        },
    ];
    for row in &rows {
        try_row(&rt, rt.alloc(), row)?;
    }
    Ok(())
}

// A script is written in its canonical form and not run: its names need no values.
#[test]
fn scripts_are_checked(rt: HostRuntime) -> Result<(), Fail> {
    let good = checked(
        "a=full(3,7)\n\nprint( (a+a)*b )\n",
        0,
        0,
        "a = full(3, 7)\nprint((a + a) * b)\n",
        "",
    );
    let rows = [
        good,
        checked("x=1+2*a # c", 0, 0, "x = 1 + (2 * a)\n", ""),
        checked("", 0, 0, "", ""),
        checked("print(1)\nb = = a", 3, 2, "", "line 2: syntax\n"),
        checked("print(1)\n\nprint(sum(a))", 3, 3, "", "line 3: syntax\n"),
        Row {
            room: 20,
            status: 7,
            out: "a = full(3, 7)\nprint",
            log: "write fault\n",
            ..good
        },
        Row {
            piece: 4,
            reads: &[2],
            status: 6,
            out: "",
            log: "read fault\n",
            ..good
        },
        Row {
            words: &["check", "x"],
            status: 2,
            out: "",
            log: "usage: legate run, check or demo\n",
            ..good
        },
        Row {
            words: &["Check"],
            status: 2,
            out: "",
            log: "usage: legate run, check or demo\n",
            ..good
        },
    ];
    for row in &rows {
        try_row(&rt, rt.alloc(), row)?;
    }
    Ok(())
}

// The source fails at each call in turn: it ends with a read fault before any print.
#[test]
fn each_read_fails_in_turn(rt: HostRuntime) -> Result<(), Fail> {
    let alloc = rt.alloc();
    let script = b"a = full(3, 7)\nprint(a + a)\nprint(full(1, 5))";
    // Eight bytes in a call make six calls, and one more finds the end.
    for failing in 1..8u64 {
        let words = vec![in alloc; String::from_str(alloc, "run")?]?;
        let failing = vec![in alloc; failing]?;
        let mut source = MemorySource::new(script.to_vec(alloc)?, 8, failing);
        let mut out = MemorySink::new(alloc, 64, Vec::new(alloc))?;
        let mut log = MemorySink::new(alloc, 64, Vec::new(alloc))?;
        let exit = legate(alloc, &words, &mut source, &mut out, &mut log);
        assert_eq!(rt; exit.status, 6);
        assert_eq!(rt; out.bytes(), b"".as_slice());
        assert_eq!(rt; log.bytes(), b"read fault\n".as_slice());
    }
    Ok(())
}

// The output has room for each number of bytes in turn: it keeps just that front of the text.
#[test]
fn each_room_is_filled(rt: HostRuntime) -> Result<(), Fail> {
    let alloc = rt.alloc();
    let script =
        b"a = full(3, 7)\nprint(a + a)\nfor i in range(2):\n    print(i)\n    print(full(1, 5))\nprint(zz)";
    let text = b"[14, 14, 14]\n0\n[5]\n1\n[5]\n".as_slice();
    for room in 0..text.len() {
        let words = vec![in alloc; String::from_str(alloc, "run")?]?;
        let mut source = MemorySource::new(script.to_vec(alloc)?, 8, Vec::new(alloc));
        let mut out = MemorySink::new(alloc, room, Vec::new(alloc))?;
        // A log that fails changes nothing.
        let mut log = MemorySink::new(alloc, 5, Vec::new(alloc))?;
        let exit = legate(alloc, &words, &mut source, &mut out, &mut log);
        assert_eq!(rt; exit.status, 7);
        assert_eq!(rt; out.bytes(), &text[..room]);
        assert_eq!(rt; log.bytes(), b"write".as_slice());
    }
    Ok(())
}

#[test]
fn a_script_of_the_greatest_length_is_read(rt: HostRuntime) -> Result<(), Fail> {
    let alloc = rt.alloc();
    for (length, status, message) in [
        (1_048_576usize, 0, b"".as_slice()),
        (1_048_577, 5, b"script too long\n".as_slice()),
    ] {
        let words = vec![in alloc; String::from_str(alloc, "run")?]?;
        let script = vec![in alloc; b' '; length]?;
        let mut source = MemorySource::new(script, 4096, Vec::new(alloc));
        let mut out = MemorySink::new(alloc, 16, Vec::new(alloc))?;
        let mut log = MemorySink::new(alloc, 64, Vec::new(alloc))?;
        let exit = legate(alloc, &words, &mut source, &mut out, &mut log);
        assert_eq!(rt; exit.status, status);
        assert_eq!(rt; log.bytes(), message);
    }
    Ok(())
}

// Each message line, with the number of its status or the kind of its fault.
#[test]
fn messages_are_written(rt: HostRuntime) -> Result<(), Fail> {
    let rows = [
        (0u8, 0u64, None, b"".as_slice()),
        (2, 0, None, b"usage: legate run, check or demo\n"),
        (3, 12, None, b"line 12: syntax\n"),
        (4, 1, Some(FaultKind::Name), b"line 1: name\n"),
        (4, 2, Some(FaultKind::TypeKind), b"line 2: type\n"),
        (4, 3, Some(FaultKind::Range), b"line 3: range\n"),
        (4, 4, Some(FaultKind::Shape), b"line 4: shape\n"),
        (4, 5, Some(FaultKind::Index), b"line 5: index\n"),
        (4, 6, Some(FaultKind::Step), b"line 6: step\n"),
        (4, 7, Some(FaultKind::Divisor), b"line 7: zero divisor\n"),
        (4, 8, Some(FaultKind::Power), b"line 8: power\n"),
        (4, 9, Some(FaultKind::ReadOnly), b"line 9: read-only\n"),
        (4, 100_000, Some(FaultKind::Limit), b"line 100000: limit\n"),
        (5, 0, None, b"script too long\n"),
        (6, 0, None, b"read fault\n"),
        (7, 0, None, b"write fault\n"),
        (9, 0, None, b"no memory\n"),
    ];
    for (status, line, kind, text) in rows {
        let mut log = MemorySink::new(rt.alloc(), 64, Vec::new(rt.alloc()))?;
        let exit = told(&mut log, Exit { status, line, kind });
        assert_eq!(rt; exit.status, status);
        assert_eq!(rt; log.bytes(), text);
    }
    Ok(())
}

// Runs a script into an output with this room, and compares what it prints.
fn prints(rt: &impl Abort, alloc: Global, script: Vec<u8>, text: &[u8]) -> Result<(), Fail> {
    let words = vec![in alloc; String::from_str(alloc, "run")?]?;
    let mut source = MemorySource::new(script, 65_536, Vec::new(alloc));
    let mut out = MemorySink::new(alloc, text.len(), Vec::new(alloc))?;
    let mut log = MemorySink::new(alloc, 64, Vec::new(alloc))?;
    let exit = legate(alloc, &words, &mut source, &mut out, &mut log);
    assert_eq!(rt; exit.status, 0);
    assert!(rt; out.bytes() == text);
    Ok(())
}

// Many statements, written out or in a loop, and more elements than fit in a few pages: a run that
// gives up early is seen.
#[test]
fn long_scripts_and_large_arrays_run(rt: HostRuntime) -> Result<(), Fail> {
    let alloc = rt.alloc();
    let mut script = Vec::new(alloc);
    let mut text = Vec::new(alloc);
    for _ in 0..1_000 {
        script.extend_from_slice(b"print(full(1, 8))\n")?;
        text.extend_from_slice(b"[8]\n")?;
    }
    prints(&rt, alloc, script, &text)?;
    let script = Vec::from_slice(alloc, b"for i in range(1000):\n    print(full(1, 8))\n")?;
    prints(&rt, alloc, script, &text)?;
    let mut text = Vec::from_slice(alloc, b"[5")?;
    for _ in 1..2_000_000 {
        text.extend_from_slice(b", 5")?;
    }
    text.extend_from_slice(b"]\n")?;
    let script = Vec::from_slice(alloc, b"a = full(2000000, 2)\nprint(a + full(1, 3))\n")?;
    prints(&rt, alloc, script, &text)
}
