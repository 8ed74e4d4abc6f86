//! Trees of operators, from operands that are parsed.

ghost use Rattle.std.specs.Prelude.{◌≡◌};
ghost use Rattle.lg_tree.specs.Measures.{height};
ghost use Rattle.lg_tree.specs.Tree.{arith, matmul, compare, neg, invert};
ghost use Rattle.lg_parse.specs.Operators.{operated};
ghost use Rattle.lg_parse.specs.Parsing as spec;
ghost use Rattle.lg_parse.specs.Parts.{parsed_tree};
ghost use Rattle.lg_parse.specs.Reading.{Gives};

use crate::ends::ParseEnd;
use crate::nodes::node;
use crate::operators::Operator;
use crate::parsed::Parsed;
use lg_elem::Compare;
use lg_tree::{Arith, Expr};
use std::alloc::Global;

/// The operation on each pair of elements of two operands.
pub fn arithmetic(alloc: Global, op: Arith, a: Parsed, b: Parsed) -> Result<Parsed, ParseEnd>
    ensures { Gives parsed_tree (spec.low height (arith op (parsed_tree a) (parsed_tree b)))
        result }
{
    let highest = a.height.max(b.height);
    let Parsed { tree: a, .. } = a;
    let Parsed { tree: b, .. } = b;
    Ok(node(alloc, Expr::Arith(op, a, b), highest)?)
}

fn product(alloc: Global, a: Parsed, b: Parsed) -> Result<Parsed, ParseEnd>
    ensures { Gives parsed_tree (spec.low height (matmul (parsed_tree a) (parsed_tree b)))
        result }
{
    let highest = a.height.max(b.height);
    let Parsed { tree: a, .. } = a;
    let Parsed { tree: b, .. } = b;
    Ok(node(alloc, Expr::MatMul(a, b), highest)?)
}

/// What an operator does with two operands.
pub fn joined(alloc: Global, op: Operator, a: Parsed, b: Parsed) -> Result<Parsed, ParseEnd>
    ensures { Gives parsed_tree (spec.low height (operated op (parsed_tree a) (parsed_tree b)))
        result }
{
    match op {
        Operator::Each(op) => Ok(arithmetic(alloc, op, a, b)?),
        Operator::Matrix => Ok(product(alloc, a, b)?),
    }
}

/// The comparison of two operands.
pub fn compared(alloc: Global, op: Compare, a: Parsed, b: Parsed) -> Result<Parsed, ParseEnd>
    ensures { Gives parsed_tree (spec.low height (compare op (parsed_tree a) (parsed_tree b)))
        result }
{
    let highest = a.height.max(b.height);
    let Parsed { tree: a, .. } = a;
    let Parsed { tree: b, .. } = b;
    Ok(node(alloc, Expr::Compare(op, a, b), highest)?)
}

/// `-a`
pub fn negative(alloc: Global, a: Parsed) -> Result<Parsed, ParseEnd>
    ensures { Gives parsed_tree (spec.low height (neg (parsed_tree a))) result }
{
    let Parsed { tree, height } = a;
    Ok(node(alloc, Expr::Neg(tree), height)?)
}

/// `~a`
pub fn inverted(alloc: Global, a: Parsed) -> Result<Parsed, ParseEnd>
    ensures { Gives parsed_tree (spec.low height (invert (parsed_tree a))) result }
{
    let Parsed { tree, height } = a;
    Ok(node(alloc, Expr::Invert(tree), height)?)
}
