use crate::{ScriptEnd, read_script};
use lg_tree::{Line, Statement};
use std::alloc::Global;
use std::process::Abort;
use std::test::Fail;

// Whether these lines have these numbers.
fn have_numbers(lines: &[Line], numbers: &[u64]) -> bool {
    lines.len() == numbers.len()
        && lines
            .iter()
            .zip(numbers)
            .all(|(line, number)| line.number == *number)
}

// Reads a script, and compares the numbers of its lines of depth 0.
fn expect_lines(rt: &impl Abort, alloc: Global, text: &[u8], numbers: &[u64]) -> Result<(), Fail> {
    assert!(rt; text.len() < 1_000);
    let script = read_script(alloc, text)?;
    assert!(rt; have_numbers(script.lines.as_slice(), numbers));
    Ok(())
}

// Reads bytes that spell no script, and compares the number of the line that is named.
fn expect_bad(rt: &impl Abort, alloc: Global, text: &[u8], line: u64) {
    assert!(rt; text.len() < 2_000);
    match read_script(alloc, text) {
        Ok(_) => assert!(rt; false),
        Err(end) => assert_eq!(rt; end, ScriptEnd::Syntax { line }),
    }
}

// The lines of a loop's block, or none.
fn block(lines: &[Line], at: usize) -> &[Line] {
    match lines.get(at) {
        Some(
            Line {
                statement: Statement::For { body, .. },
                ..
            },
        ) => body.as_slice(),
        _ => &[],
    }
}

#[test]
fn skipped_lines(rt: HostRuntime) -> Result<(), Fail> {
    let alloc = rt.alloc();
    expect_lines(&rt, alloc, b"", &[])?;
    expect_lines(&rt, alloc, b"\n\t \n  # a = \xff?\n", &[])?;
    expect_lines(&rt, alloc, b"a = 7\r\n\r\n \t# b\r\nprint(a) # c", &[1, 4])?;
    expect_lines(&rt, alloc, b"\na = 7\n\n     # b\nprint(a)\n\n", &[2, 5])
}

#[test]
fn blocks(rt: HostRuntime) -> Result<(), Fail> {
    let alloc = rt.alloc();
    let text =
        b"for i in range(3):\n    a = i\n\n    for j in range(1, 2):\n# b\n        a += j\nprint(a)\n";
    let script = read_script(alloc, text)?;
    let lines = script.lines.as_slice();
    assert!(rt; have_numbers(lines, &[1, 7]));
    let outer = block(lines, 0);
    assert!(rt; have_numbers(outer, &[2, 4]));
    assert!(rt; have_numbers(block(outer, 1), &[6]));
    Ok(())
}

#[test]
fn bad_lines(rt: HostRuntime) {
    let alloc = rt.alloc();
    expect_bad(&rt, alloc, b"a = 7\n\n    b = 7\n", 3);
    expect_bad(&rt, alloc, b"    a = 7\n?\n", 1);
    expect_bad(&rt, alloc, b"a = 7\nb = \n?\n", 2);
    expect_bad(&rt, alloc, b"a = 7\rb = 7\n", 1);
    expect_bad(&rt, alloc, b"a = 7\r\r\n", 1);
    expect_bad(&rt, alloc, b"for i in range(3):\na = i\n", 2);
    expect_bad(&rt, alloc, b"for i in range(3):\n        a = i\n", 2);
    expect_bad(&rt, alloc, b"for i in range(3):\n     a = i\n", 2);
    expect_bad(&rt, alloc, b"for i in range(3):\n\ta = i\n", 2);
    expect_bad(&rt, alloc, b"for i in range(3):\n    a = i\n  b = i\n", 3);
}

#[test]
fn open_loops(rt: HostRuntime) {
    let alloc = rt.alloc();
    expect_bad(&rt, alloc, b"for i in range(3):", 1);
    expect_bad(&rt, alloc, b"a = 7\nfor i in range(3):\n    # b\n\n", 2);
    expect_bad(
        &rt,
        alloc,
        b"for i in range(3):\n    for j in range(3):\n",
        2,
    );
}

// Loops in each other, so many, with a statement in the innermost one.
fn nested(alloc: Global, depth: usize) -> Result<Vec<u8>, Fail> {
    let mut text = Vec::new(alloc);
    for before in 0..depth {
        for _ in 0..before {
            text.extend_from_slice(b"    ")?;
        }
        text.extend_from_slice(b"for i in range(3):\n")?;
    }
    for _ in 0..depth {
        text.extend_from_slice(b"    ")?;
    }
    text.extend_from_slice(b"a = 7\n")?;
    Ok(text)
}

#[test]
fn deepest_lines(rt: HostRuntime) -> Result<(), Fail> {
    let alloc = rt.alloc();
    let text = nested(alloc, 16)?;
    assert!(rt; text.len() < 2_000);
    assert!(rt; read_script(alloc, &text).is_ok());
    let text = nested(alloc, 17)?;
    expect_bad(&rt, alloc, &text, 18);
    Ok(())
}

#[test]
fn texts(rt: HostRuntime) -> Result<(), Fail> {
    let alloc = rt.alloc();
    let bad = ScriptEnd::Syntax { line: 7 };
    assert_eq!(rt; format!(in alloc; "{bad}")?.as_str(), "line 7: syntax");
    assert_eq!(rt;
        format!(in alloc; "{}", ScriptEnd::NoMemory)?.as_str(),
        "no memory"
    );
    Ok(())
}
