use super::*;
use lg_elem::DType;
use lg_tree::{Arith, Expr, Item, Line, Script, ShapeExpr, Statement};
use sqlite_items::{Boxed, Items};
use std::alloc::Global;
use std::test::Fail;

fn named(alloc: Global, name: &[u8]) -> Result<Expr, Fail> {
    Ok(Expr::Name(Items::from_slice(alloc, name)?))
}

// `x = full((3,), -7, int8)`
fn bound(alloc: Global) -> Result<Statement, Fail> {
    let mut extents = Items::new(alloc);
    extents.push(Expr::Number(3))?;
    let number = Expr::Neg(Boxed::new(alloc, Expr::Number(7))?);
    Ok(Statement::Bind {
        name: Items::from_slice(alloc, b"x")?,
        value: Expr::Full(
            ShapeExpr::Tuple(extents),
            Boxed::new(alloc, number)?,
            Some(DType::Int8),
        ),
    })
}

// `y = load(k)`
fn loaded(alloc: Global) -> Result<Statement, Fail> {
    Ok(Statement::Load {
        name: Items::from_slice(alloc, b"y")?,
        file: Items::from_slice(alloc, b"k")?,
    })
}

// `x[i, ::2] //= 5`
fn updated_place(alloc: Global) -> Result<Statement, Fail> {
    let mut index = Items::new(alloc);
    index.push(Item::At(named(alloc, b"i")?))?;
    index.push(Item::Slice {
        start: None,
        stop: None,
        step: Some(Expr::Number(2)),
    })?;
    Ok(Statement::UpdateAt {
        name: Items::from_slice(alloc, b"x")?,
        index,
        op: Arith::FloorDiv,
        value: Expr::Number(5),
    })
}

// `x[...] = y`
fn put(alloc: Global) -> Result<Statement, Fail> {
    let mut index = Items::new(alloc);
    index.push(Item::Ellipsis)?;
    Ok(Statement::Put {
        name: Items::from_slice(alloc, b"x")?,
        index,
        value: named(alloc, b"y")?,
    })
}

// `for j in range(1, 3):` and `x[...] = y`
fn inner(alloc: Global) -> Result<Statement, Fail> {
    let mut body = Items::new(alloc);
    body.push(Line {
        number: 5,
        statement: put(alloc)?,
    })?;
    Ok(Statement::For {
        name: Items::from_slice(alloc, b"j")?,
        from: Some(Expr::Number(1)),
        to: Expr::Number(3),
        body,
    })
}

// `y += 1`
fn updated(alloc: Global) -> Result<Statement, Fail> {
    Ok(Statement::Update {
        name: Items::from_slice(alloc, b"y")?,
        op: Arith::Add,
        value: Expr::Number(1),
    })
}

// `for i in range(2):` with the inner loop between two statements
fn outer(alloc: Global) -> Result<Statement, Fail> {
    let mut body = Items::new(alloc);
    body.push(Line {
        number: 4,
        statement: updated_place(alloc)?,
    })?;
    body.push(Line {
        number: 5,
        statement: inner(alloc)?,
    })?;
    body.push(Line {
        number: 9,
        statement: updated(alloc)?,
    })?;
    Ok(Statement::For {
        name: Items::from_slice(alloc, b"i")?,
        from: None,
        to: Expr::Number(2),
        body,
    })
}

// `save(k, y)`
fn saved(alloc: Global) -> Result<Statement, Fail> {
    Ok(Statement::Save {
        file: Items::from_slice(alloc, b"k")?,
        value: named(alloc, b"y")?,
    })
}

// `print((-x).copy())`
fn printed(alloc: Global) -> Result<Statement, Fail> {
    let base = Expr::Neg(Boxed::new(alloc, named(alloc, b"x")?)?);
    Ok(Statement::Print {
        value: Expr::Copy(Boxed::new(alloc, base)?),
    })
}

// One statement of each form.
fn script(alloc: Global) -> Result<Script, Fail> {
    let mut lines = Items::new(alloc);
    lines.push(Line {
        number: 1,
        statement: bound(alloc)?,
    })?;
    lines.push(Line {
        number: 2,
        statement: loaded(alloc)?,
    })?;
    lines.push(Line {
        number: 3,
        statement: outer(alloc)?,
    })?;
    lines.push(Line {
        number: 10,
        statement: saved(alloc)?,
    })?;
    lines.push(Line {
        number: 12,
        statement: printed(alloc)?,
    })?;
    Ok(Script { lines })
}

#[test]
fn text(rt: HostRuntime) -> Result<(), Fail> {
    let alloc = rt.alloc();
    let text = text_of(alloc, &script(alloc)?)?;
    let wanted =
        b"x = full((3,), -7, int8)\ny = load(k)\nfor i in range(2):\n    x[i, ::2] //= 5\n    for j in range(1, 3):\n        x[...] = y\n    y += 1\nsave(k, y)\nprint((-x).copy())\n";
    assert!(rt; text.as_slice() == wanted.as_slice());
    Ok(())
}

#[test]
fn empty(rt: HostRuntime) -> Result<(), Fail> {
    let alloc = rt.alloc();
    let text = text_of(
        alloc,
        &Script {
            lines: Items::new(alloc),
        },
    )?;
    assert!(rt; text.is_empty());
    Ok(())
}
