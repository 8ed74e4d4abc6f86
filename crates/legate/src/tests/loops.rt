//! Scripts with loops: what their turns print, the faults of their bounds and of their blocks, and
//! where the limit of statements ends them.
use crate::tests::{checked, ends_with, plain, try_row};
use crate::walk::run_lines;
use lg_grammar::read_script;
use lg_outside::MemorySink;
use lg_session::{Room, Session, first_unbuilt};
use std::process::Abort;
use std::str;
use std::test::Fail;

// Each turn binds the variable, and then runs the block.
#[test]
fn turns(rt: HostRuntime) -> Result<(), Fail> {
    let rows = [
        ("for i in range(2):\n    print(i)", "0\n1\n"),
        ("x = 0\nfor i in range(5):\n    x += i\nprint(x)", "10\n"),
        (
            "a = zeros((4, 4))\na[0] = 100\nc = a[1:3, 1:3]\nn = a[0:2, 1:3]\ns = a[2:4, 1:3]\nw = a[1:3, 0:2]\ne = a[1:3, 2:4]\nfor t in range(2):\n    c[:] = (c + n + s + w + e) // 5\nprint(a)",
            "[[100, 100, 100, 100], [0, 28, 28, 0], [0, 4, 4, 0], [0, 0, 0, 0]]\n",
        ),
        ("for i in range(-2, 1):\n    print(i)", "-2\n-1\n0\n"),
        (
            "for i in range(2):\n    print(i)\n    i = 7\n    print(i)\nprint(i)",
            "0\n7\n1\n7\n7\n",
        ),
        (
            "a = arange(3)\nfor i in range(3):\n    b = a\n    a = a + a * i\nprint(b)\nprint(a)",
            "[0, 2, 4]\n[0, 6, 12]\n",
        ),
        // The bounds are those where the line is reached.
        ("n = 2\nfor i in range(n):\n    n = 5\nprint(n + i)", "6\n"),
        // Loops in loops, and lines behind them.
        (
            "for i in range(2):\n    for j in range(i, 3):\n        print(i * 10 + j)\n    print(j)\nprint(i)",
            "0\n1\n2\n2\n11\n12\n2\n1\n",
        ),
        (
            "for i in range(2):\n    for i in range(10, 12):\n        print(i)\n    print(i)",
            "10\n11\n11\n10\n11\n11\n",
        ),
        // No turn leaves the variable as it was.
        (
            "i = 5\nfor i in range(3, 3):\n    print(zz)\nprint(i)",
            "5\n",
        ),
        (
            "i = ones(2)\nfor i in range(-1):\n    print(zz)\nprint(i)",
            "[1, 1]\n",
        ),
        // Both ends of the weak numbers.
        (
            "for i in range(-9223372036854775808, -9223372036854775806):\n    print(i)",
            "-9223372036854775808\n-9223372036854775807\n",
        ),
        (
            "for i in range(18446744073709551614, 18446744073709551615):\n    print(i)",
            "18446744073709551614\n",
        ),
    ];
    for (script, printed) in rows {
        ends_with(&rt, rt.alloc(), script, 0, printed, "")?;
    }
    Ok(())
}

// A fault of the bounds has the number of the loop's line, and one of a statement in the block the
// number of that statement's.
#[test]
fn faults(rt: HostRuntime) -> Result<(), Fail> {
    let rows = [
        (
            "for i in range(full(1, 3)):\n    x = i",
            "",
            "line 1: type\n",
        ),
        ("for i in range(True):\n    x = i", "", "line 1: type\n"),
        ("for i in range(True, zz):\n    x = i", "", "line 1: name\n"),
        (
            "for i in range(18446744073709551615 + 1):\n    x = i",
            "",
            "line 1: range\n",
        ),
        (
            "print(1)\n\nfor i in range(2, 1 // 0):\n    print(i)",
            "1\n",
            "line 3: zero divisor\n",
        ),
        (
            "for i in range(2):\n    for j in range(6 // (1 - i)):\n        x = j\n    print(x)",
            "5\n",
            "line 2: zero divisor\n",
        ),
        (
            "for i in range(-2, 2):\n\n    print(6)\n    print(6 // i)",
            "6\n-3\n6\n-6\n6\n",
            "line 4: zero divisor\n",
        ),
        (
            "for i in range(3):\n    for j in range(2):\n        print(full(1, 6) // (1 - i))",
            "[6]\n[6]\n",
            "line 3: zero divisor\n",
        ),
        (
            "for i in range(254, 257):\n    print(full(1, 1, uint8) + i)",
            "[255]\n[0]\n",
            "line 2: range\n",
        ),
        (
            "for i in range(0):\n    print(1)\nprint(i)",
            "",
            "line 3: name\n",
        ),
        (
            "for i in range(2):\n    for j in range(i, 0):\n        print(1)\nprint(i)\nprint(j)",
            "1\n",
            "line 5: name\n",
        ),
    ];
    for (script, printed, logged) in rows {
        ends_with(&rt, rt.alloc(), script, 4, printed, logged)?;
    }
    Ok(())
}

// The line of a loop counts as a statement each time it is reached, and so does each line of its
// block. The first one behind 100,000 is at fault, wherever it stands.
#[test]
fn limits(rt: HostRuntime) -> Result<(), Fail> {
    let rows = [
        (
            "x = 0\nfor i in range(99997):\n    x += 1\nprint(x)",
            0,
            "99997\n",
            "",
        ),
        (
            "x = 0\nfor i in range(99998):\n    x += 1\nprint(x)",
            4,
            "",
            "line 4: limit\n",
        ),
        (
            "for i in range(100000):\n    x = i",
            4,
            "",
            "line 2: limit\n",
        ),
        // The bounds of a loop that is one too many are not looked at.
        (
            "for i in range(99999):\n    x = i\nfor j in range(zz):\n    x = j",
            4,
            "",
            "line 3: limit\n",
        ),
        // 2 to the power of 63 turns, and more.
        (
            "for i in range(-9223372036854775808, 0):\n    x = i",
            4,
            "",
            "line 2: limit\n",
        ),
        (
            "for i in range(-9223372036854775808, 18446744073709551615):\n    for j in range(0):\n        x = i",
            4,
            "",
            "line 2: limit\n",
        ),
        // It ends amid a block, and what was printed before stays.
        (
            "for i in range(9223372036854775808):\n    for j in range(i - 99990):\n        print(i + j)",
            4,
            "99991\n99992\n99993\n99993\n99994\n",
            "line 3: limit\n",
        ),
    ];
    for (script, status, printed, logged) in rows {
        ends_with(&rt, rt.alloc(), script, status, printed, logged)?;
    }
    Ok(())
}

// Nothing is run where a block has no line, or a form that is not evaluated yet: of several such
// lines the first is named.
#[test]
fn refused(rt: HostRuntime) -> Result<(), Fail> {
    let rows = [
        plain("for i in range(3):", 3, 1, "", "line 1: syntax\n"),
        plain(
            "print(1)\nfor i in range(2):\n    print(i)\n    print(sum(i))\n    print(max(i))",
            3,
            4,
            "",
            "line 4: syntax\n",
        ),
        plain(
            "for i in range(sum(2)):\n    print(sum(i))",
            3,
            1,
            "",
            "line 1: syntax\n",
        ),
        plain(
            "for i in range(2):\n    print(i)\nprint(sum(2))",
            3,
            3,
            "",
            "line 3: syntax\n",
        ),
        checked(
            "for i in range(2):\n    print(1)\n    print(sum(i))\nprint(max(1))",
            3,
            3,
            "",
            "line 3: syntax\n",
        ),
    ];
    for row in &rows {
        try_row(&rt, rt.alloc(), row)?;
    }
    Ok(())
}

// A loop is written in its canonical form, each block four spaces deeper, and not run.
#[test]
fn canonical_texts(rt: HostRuntime) -> Result<(), Fail> {
    let rows = [
        checked(
            "x=1+2*a # c\n\nfor i in range( 2 ):\n    x=-i",
            0,
            0,
            "x = 1 + (2 * a)\nfor i in range(2):\n    x = -i\n",
            "",
        ),
        checked(
            "for i in range(1,n):  # c\n\n    for j in range(i):\n        print( j )\n    print(i)\nprint(zz)",
            0,
            0,
            "for i in range(1, n):\n    for j in range(i):\n        print(j)\n    print(i)\nprint(zz)\n",
            "",
        ),
    ];
    for row in &rows {
        try_row(&rt, rt.alloc(), row)?;
    }
    Ok(())
}

// The walk prints the same and counts the same, whatever the number of pieces.
#[test]
fn pieces(rt: HostRuntime) -> Result<(), Fail> {
    let alloc = rt.alloc();
    let script =
        "a = arange(5)\nfor i in range(3):\n    a = a + i\n    for j in range(i):\n        print(a * j)\nprint(a)";
    let printed = "[0, 0, 0, 0, 0]\n[0, 0, 0, 0, 0]\n[3, 4, 5, 6, 7]\n[3, 4, 5, 6, 7]\n";
    let script = read_script(alloc, script.as_bytes())?;
    assert!(rt; first_unbuilt(&script).is_none());
    for pieces in [1, 3, 64] {
        let mut session = Session::new(alloc, pieces)?;
        let mut count = 0;
        let mut out = MemorySink::new(alloc, 128, Vec::new(alloc))?;
        let ended = run_lines(
            Room::new(alloc),
            script.lines.as_slice(),
            &mut session,
            &mut count,
            &mut out,
        );
        assert!(rt; ended.is_ok());
        assert_eq!(rt; count, 12);
        assert_eq!(rt; str::from_utf8(out.bytes()), Ok(printed));
    }
    Ok(())
}
