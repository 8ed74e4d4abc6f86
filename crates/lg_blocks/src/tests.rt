use crate::{FinishEnd, PushEnd, Reader};
use lg_tree::{Expr, Head, Line, Simple, Statement};
use sqlite_items::Items;
use std::alloc::{AllocError, Global};
use std::test::Fail;

// `print(n)`
fn print(n: u64) -> Head {
    Head::Whole(Simple {
        statement: Statement::Print {
            value: Expr::Number(n),
        },
    })
}

// `for i in range(n):`
fn over(alloc: Global, n: u64) -> Result<Head, AllocError> {
    Ok(Head::For {
        name: Items::from_slice(alloc, b"i")?,
        from: None,
        to: Expr::Number(n),
    })
}

// Whether these lines have these numbers.
fn have_numbers(lines: &[Line], numbers: &[u64]) -> bool {
    lines.len() == numbers.len()
        && lines
            .iter()
            .zip(numbers)
            .all(|(line, number)| line.number == *number)
}

// The lines of a loop's block, or none.
fn block(lines: &[Line], at: usize) -> &[Line] {
    match lines.get(at) {
        Some(
            Line {
                statement: Statement::For { body, .. },
                ..
            },
        ) => body.as_slice(),
        _ => &[],
    }
}

#[test]
fn nested_blocks(rt: HostRuntime) -> Result<(), Fail> {
    let alloc = rt.alloc();
    let mut reader = Reader::new(alloc);
    assert_eq!(rt; reader.push(1, 0, print(7)), Ok(()));
    assert_eq!(rt; reader.push(3, 0, over(alloc, 3)?), Ok(()));
    assert_eq!(rt; reader.push(4, 1, over(alloc, 2)?), Ok(()));
    assert_eq!(rt; reader.push(6, 2, print(8)), Ok(()));
    assert_eq!(rt; reader.push(7, 2, over(alloc, 4)?), Ok(()));
    assert_eq!(rt; reader.push(8, 3, print(9)), Ok(()));
    assert_eq!(rt; reader.push(9, 1, print(10)), Ok(()));
    assert_eq!(rt; reader.push(11, 0, print(11)), Ok(()));
    let lines = match reader.finish() {
        Ok(lines) => lines,
        Err(_) => Items::new(alloc),
    };
    let lines = lines.as_slice();
    assert!(rt; have_numbers(lines, &[1, 3, 11]));
    let outer = block(lines, 1);
    assert!(rt; have_numbers(outer, &[4, 9]));
    let inner = block(outer, 0);
    assert!(rt; have_numbers(inner, &[6, 7]));
    assert!(rt; have_numbers(block(inner, 1), &[8]));
    Ok(())
}

#[test]
fn places(rt: HostRuntime) -> Result<(), Fail> {
    let alloc = rt.alloc();
    let mut reader = Reader::new(alloc);
    assert_eq!(rt; reader.push(1, 1, print(7)), Err(PushEnd::Place));
    assert_eq!(rt; reader.push(1, 0, over(alloc, 3)?), Ok(()));
    assert_eq!(rt; reader.push(2, 0, print(7)), Err(PushEnd::Place));
    assert_eq!(rt; reader.push(2, 2, print(7)), Err(PushEnd::Place));
    assert_eq!(rt; reader.push(2, 1, print(7)), Ok(()));
    assert_eq!(rt; reader.push(3, 2, print(7)), Err(PushEnd::Place));
    assert_eq!(rt; reader.push(3, 1, print(7)), Ok(()));
    assert!(rt; reader.finish().is_ok());
    Ok(())
}

#[test]
fn open_loops(rt: HostRuntime) -> Result<(), Fail> {
    let alloc = rt.alloc();
    let mut reader = Reader::new(alloc);
    assert_eq!(rt; reader.push(2, 0, over(alloc, 3)?), Ok(()));
    assert_eq!(rt; reader.push(5, 1, over(alloc, 3)?), Ok(()));
    match reader.finish() {
        Err(end) => assert_eq!(rt; end, FinishEnd::Open { line: 5 }),
        Ok(_) => assert!(rt; false),
    }
    assert!(rt; Reader::new(alloc).finish().is_ok());
    Ok(())
}
