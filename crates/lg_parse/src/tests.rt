use crate::{ParseEnd, as_terminals, read_head};
use lg_lex::lex_line;
use lg_tree::{Arith, Expr, Head, Item, Simple, Statement};
use std::alloc::Global;
use std::process::Abort;
use std::test::Fail;

/// Reads a line of fewer than a hundred bytes from its bytes.
fn head_of(rt: &impl Abort, alloc: Global, line: &[u8]) -> Result<Head, ParseEnd> {
    assert!(rt; line.len() < 100);
    let Ok(tokens) = lex_line(alloc, line) else {
        rt.abort();
    };
    let terminals = as_terminals(alloc, line, tokens.as_slice())?;
    read_head(alloc, terminals.as_slice())
}

#[test]
fn a_whole_statement(rt: HostRuntime) -> Result<(), Fail> {
    let alloc = rt.alloc();
    let Ok(Head::Whole(Simple { statement })) = head_of(&rt, alloc, b"a[7, ...] += b.T  # twice")
    else {
        rt.abort();
    };
    let Statement::UpdateAt {
        name,
        index,
        op,
        value,
    } = statement
    else {
        rt.abort();
    };
    assert_eq!(rt; name.as_slice(), b"a".as_slice());
    assert!(rt;
        matches!(
            index.as_slice(),
            [Item::At(Expr::Number(7)), Item::Ellipsis]
        )
    );
    assert!(rt; matches!(op, Arith::Add));
    assert!(rt; matches!(value, Expr::Transpose(_, None)));
    Ok(())
}

#[test]
fn a_loop(rt: HostRuntime) -> Result<(), Fail> {
    let alloc = rt.alloc();
    let Ok(Head::For { name, from, to }) = head_of(&rt, alloc, b"for sum_2 in range(-1, n):") else {
        rt.abort();
    };
    assert_eq!(rt; name.as_slice(), b"sum_2".as_slice());
    assert!(rt; matches!(from, Some(Expr::Neg(_))));
    assert!(rt; matches!(to, Expr::Name(_)));
    Ok(())
}

#[test]
fn no_statement(rt: HostRuntime) {
    let alloc = rt.alloc();
    let lines: [&[u8]; 5] = [b"", b"sum = 1", b"a = b < c < d", b"print(a[])", b"a = b c"];
    for line in lines {
        assert!(rt; matches!(head_of(&rt, alloc, line), Err(ParseEnd::Syntax)));
    }
}
