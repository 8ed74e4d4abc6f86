use super::*;
use std::alloc::Global;
use std::process::Abort;
use std::test::Fail;

/// Reads a line, and compares its tokens.
fn expect_tokens(
    rt: &impl Abort,
    alloc: Global,
    line: &[u8],
    tokens: &[(TokenKind, u32, u32)],
) -> Result<(), Fail> {
    assert!(rt; line.len() < 100);
    let Ok(read) = lex_line(alloc, line) else {
        rt.abort();
    };
    assert_eq!(rt; read.len(), tokens.len());
    for (token, (kind, start, end)) in read.iter().zip(tokens) {
        assert!(rt; token.kind == *kind);
        assert_eq!(rt; token.start, *start);
        assert_eq!(rt; token.end, *end);
    }
    Ok(())
}

/// Reads a line that has no tokens, and compares the place of its fault.
fn expect_fault(rt: &impl Abort, alloc: Global, line: &[u8], place: u32) {
    assert!(rt; line.len() < 100);
    assert!(rt; matches!(lex_line(alloc, line), Err(LexEnd::Fault { place: p }) if p == place));
}

#[test]
fn good_lines(rt: HostRuntime) -> Result<(), Fail> {
    let alloc = rt.alloc();
    expect_tokens(&rt, alloc, b"", &[])?;
    expect_tokens(&rt, alloc, b" \t ", &[])?;
    expect_tokens(
        &rt,
        alloc,
        b"\tx_1 **=a",
        &[
            (TokenKind::Word, 1, 4),
            (TokenKind::DoubleStarEqual, 5, 8),
            (TokenKind::Word, 8, 9),
        ],
    )
}

#[test]
fn comments(rt: HostRuntime) -> Result<(), Fail> {
    let alloc = rt.alloc();
    expect_tokens(&rt, alloc, b"# a comment", &[])?;
    expect_tokens(&rt, alloc, b"\t # 00 $", &[])?;
    expect_tokens(&rt, alloc, b"a # b # c", &[(TokenKind::Word, 0, 1)])?;
    expect_tokens(&rt, alloc, b"7#\xc3\x00\r", &[(TokenKind::Number, 0, 1)])
}

#[test]
fn returns(rt: HostRuntime) {
    assert!(rt; without_return(b"x = 1\r") == b"x = 1".as_slice());
    assert!(rt; without_return(b"\r") == b"".as_slice());
    assert!(rt; without_return(b"x\r\r") == b"x\r".as_slice());
    assert!(rt; without_return(b"x\ry") == b"x\ry".as_slice());
    assert!(rt; without_return(b"# c\r") == b"# c".as_slice());
    assert!(rt; without_return(b"") == b"".as_slice());
}

#[test]
fn bad_lines(rt: HostRuntime) {
    let alloc = rt.alloc();
    expect_fault(&rt, alloc, b"a + $", 4);
    expect_fault(&rt, alloc, b"x\r", 1);
    expect_fault(&rt, alloc, b"x\r = 1", 1);
    expect_fault(&rt, alloc, b"00", 0);
    expect_fault(&rt, alloc, b"1 18446744073709551616", 2);
    expect_fault(&rt, alloc, b"2x", 0);
}

#[test]
fn numbers(rt: HostRuntime) {
    assert!(rt; number_of(b"0") == Some(0));
    assert!(rt; number_of(b"18446744073709551615") == Some(u64::MAX));
    assert!(rt; number_of(b"18446744073709551616").is_none());
    assert!(rt; number_of(b"18446744073709551620").is_none());
    assert!(rt; number_of(b"01").is_none());
    assert!(rt; number_of(b"1_").is_none());
}
