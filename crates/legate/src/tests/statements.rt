//! Scripts through sessions that cut operations into one piece, three and 64: no answer depends on
//! the number.
use lg_grammar::read_script;
use lg_meaning::FaultKind;
use lg_session::{Room, Session, StopEnd, is_built};
use lg_tree::Script;
use std::alloc::Global;
use std::process::Abort;
use std::str;
use std::test::Fail;

// What the lines of a script print, and what stops them.
fn performed(
    rt: &impl Abort,
    alloc: Global,
    pieces: u32,
    script: &Script,
) -> Result<(Vec<u8>, Option<StopEnd>), Fail> {
    assert!(rt; 1 <= pieces && pieces <= 64);
    let mut session = Session::new(alloc, pieces)?;
    let mut text = Vec::new(alloc);
    for line in script.lines.as_slice() {
        assert!(rt; !session.spent());
        assert!(rt; is_built(&line.statement));
        match session.step(Room::new(alloc), line) {
            Ok(printed) => text.extend_from_slice(&printed)?,
            Err(stop) => {
                assert!(rt; session.spent() && stop.log.is_empty());
                return Ok((text, Some(stop.end)));
            }
        }
    }
    Ok((text, None))
}

// Reads a script, and compares what it prints and its fault, whatever the number of pieces.
fn expect(
    rt: &impl Abort,
    alloc: Global,
    script: &str,
    printed: &str,
    end: Option<StopEnd>,
) -> Result<(), Fail> {
    assert!(rt; script.len() < 1_000);
    let lines = read_script(alloc, script.as_bytes())?;
    for pieces in [1, 3, 64] {
        let (text, stop) = performed(rt, alloc, pieces, &lines)?;
        assert_eq!(rt; str::from_utf8(&text), Ok(printed), "{script}");
        assert_eq!(rt; stop, end, "{script}");
    }
    Ok(())
}

// Each form, on arrays that are cut.
#[test]
fn forms(rt: HostRuntime) -> Result<(), Fail> {
    let rows = [
        ("print(arange(5) * 2 - 1)", "[-1, 1, 3, 5, 7]\n"),
        ("print(-arange(4) // 2)", "[0, -1, -1, -2]\n"),
        ("print(~arange(4, uint8))", "[255, 254, 253, 252]\n"),
        ("print(abs(arange(-3, 2)))", "[3, 2, 1, 0, 1]\n"),
        ("print(arange(4) < 2)", "[True, True, False, False]\n"),
        ("print(minimum(arange(4), 2))", "[0, 1, 2, 2]\n"),
        ("print(maximum(arange(4), ones(4)))", "[1, 1, 2, 3]\n"),
        (
            "print(where(arange(4) % 2, 7, arange(4)))",
            "[0, 7, 2, 7]\n",
        ),
        ("print(ones(4) + arange(1, 2))", "[2, 2, 2, 2]\n"),
        ("print(array([1, 2, 3, 40]))", "[1, 2, 3, 40]\n"),
        ("print(zeros(0) + 1)\nprint(3 - 5)", "[]\n-2\n"),
    ];
    for (script, printed) in rows {
        expect(&rt, rt.alloc(), script, printed, None)?;
    }
    Ok(())
}

// The first fault is the one of the first index that has one, in whichever piece it lies.
#[test]
fn faults(rt: HostRuntime) -> Result<(), Fail> {
    let rows = [
        ("print(4 // arange(-2, 3))", FaultKind::Divisor),
        ("print(2 ** (3 - arange(5)))", FaultKind::Power),
        ("print(ones(4) + zeros(3))", FaultKind::Shape),
        ("print(arange(4, int8) + 128)", FaultKind::Range),
        ("print(full(16777217, 1))", FaultKind::Limit),
    ];
    for (script, kind) in rows {
        let end = Some(StopEnd::Fault { line: 1, kind });
        expect(&rt, rt.alloc(), script, "", end)?;
    }
    Ok(())
}

// A name that is bound to another shares its array, and keeps it when the other goes on.
#[test]
fn names_share_arrays(rt: HostRuntime) -> Result<(), Fail> {
    let script =
        "a = full(3, 7)\nb = a\na = a\na = a + a\nprint(a)\na = 5\nprint(b)\nprint(a)\nprint(c)";
    let end = Some(StopEnd::Fault {
        line: 9,
        kind: FaultKind::Name,
    });
    expect(&rt, rt.alloc(), script, "[14, 14, 14]\n[7, 7, 7]\n5\n", end)
}

// Writes are seen through every view that shares the place, and an element that is read is a copy.
#[test]
fn writes(rt: HostRuntime) -> Result<(), Fail> {
    let rows = [
        (
            "a = arange(5)\na[1:] = a[:-1]\nprint(a)",
            "[0, 0, 1, 2, 3]\n",
        ),
        (
            "a = arange(4)\ns = a[2]\nv = a[2, ...]\na[2] = 9\nprint(s)\nprint(v)",
            "2\n9\n",
        ),
        ("a = arange(4)\na[1:] += a[:-1]\nprint(a)", "[0, 1, 3, 5]\n"),
        (
            "a = arange(6).reshape((2, 3))\nt = a.T\nt[0, 1] = 9\nprint(a)",
            "[[0, 1, 2], [9, 4, 5]]\n",
        ),
        (
            "a = arange(6).reshape((2, 3))\na[:, 0] = array([[7, 8]])\nprint(a)",
            "[[7, 1, 2], [8, 4, 5]]\n",
        ),
        (
            "a = zeros((2, 2), bool)\na[0] = array([0, 256])\nprint(a)",
            "[[False, True], [False, False]]\n",
        ),
        ("x = 2\nx **= 3\nprint(x)", "8\n"),
    ];
    for (script, printed) in rows {
        expect(&rt, rt.alloc(), script, printed, None)?;
    }
    Ok(())
}

// An update wraps to the target's type where that is of no lower kind.
#[test]
fn updates_across_types(rt: HostRuntime) -> Result<(), Fail> {
    let script =
        "a = arange(3)\na[0] += 300\nb = a.astype(int8)\nprint(b)\nb += a\nprint(b)\nc = a.astype(uint8)\nc += b";
    let end = Some(StopEnd::Fault {
        line: 8,
        kind: FaultKind::TypeKind,
    });
    expect(&rt, rt.alloc(), script, "[44, 1, 2]\n[88, 2, 4]\n", end)
}

// A target that cannot be written, and what it does not take.
#[test]
fn faults_of_writes(rt: HostRuntime) -> Result<(), Fail> {
    let rows = [
        (
            "b = broadcast_to(full(1, 2), (3,))\nb[0] = 1",
            FaultKind::ReadOnly,
        ),
        (
            "b = broadcast_to(full(1, 2), (3,))\nb += 1",
            FaultKind::ReadOnly,
        ),
        ("b = zeros(3, int8)\nb[0] = 128", FaultKind::Range),
        (
            "b = zeros(3, uint8)\nb += zeros(3, int8)",
            FaultKind::TypeKind,
        ),
        ("b = zeros(3)\nb[:] = zeros((2, 3))", FaultKind::Shape),
        ("b = zeros(3)\nb[3] = 1", FaultKind::Index),
        ("b = 3\nb[0] = 1", FaultKind::TypeKind),
        ("b = zeros(3)\nb //= 0 * b", FaultKind::Divisor),
    ];
    for (script, kind) in rows {
        let end = Some(StopEnd::Fault { line: 2, kind });
        expect(&rt, rt.alloc(), script, "", end)?;
    }
    Ok(())
}

// What threads may hold.
fn crosses_threads<T: Send + Sync>() {}

#[test]
fn sessions_cross_threads(_rt: HostRuntime) -> Result<(), Fail> {
    crosses_threads::<FaultKind>();
    crosses_threads::<Session>();
    Ok(())
}
