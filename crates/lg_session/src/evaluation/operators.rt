//! The operations on elements, of an expression's parts.
ghost use Rattle.std.specs.Prelude.{◌≡◌, true, IfOk};
ghost use Rattle.lg_tree.specs.View.{tree_of};
ghost use Rattle.lg_meaning.specs.Memory.{State};
ghost use Rattle.lg_session.specs.Roots.{contents};
ghost use Rattle.lg_session.specs.Standing.{StandsFor};
ghost use Rattle.lg_session.specs.Values.{IsUsable, IsOutcome};
ghost use Rattle.lg_session.specs.Built.{is_built_tree};
ghost use Rattle.lg_session.specs.Forms.{is_operator, is_operation};

use crate::evaluation::evaluate;
use crate::forms::{arithmetic, choice, comparison, negative, one_operand, two_operands};
use crate::session::Session;
use crate::value::Value;
use lg_elem::{Binary, Unary};
use lg_operations::EvaluateEnd;
use lg_tile::Room;
use lg_tree::Expr;

/// `a + b`, `a < b`, and so for each operator of two operands.
#[cycle(walk)]
#[inline(never)]
pub(super) fn evaluate_operator(
    room: Room<'_>,
    session: &Session,
    value: &Expr,
) -> Result<Value, EvaluateEnd>
    requires operator { is_operator (tree_of value.now) ≡ true }
    requires built { is_built_tree (tree_of value.now) ≡ true }
    ensures usable { IfOk result (IsUsable (contents session.now.roots)) }
    ensures outcome { (state : State) → StandsFor session.now state
        → IsOutcome (tree_of value.now) state session.now result }
{
    match value {
        Expr::Arith(op, a, b) => {
            let a = evaluate(room, session, a.get())?;
            let b = evaluate(room, session, b.get())?;
            let result = arithmetic(room, session, *op, &a, &b);
            a.release(room);
            b.release(room);
            result
        }
        Expr::Compare(op, a, b) => {
            let a = evaluate(room, session, a.get())?;
            let b = evaluate(room, session, b.get())?;
            let result = comparison(room, session, *op, &a, &b);
            a.release(room);
            b.release(room);
            result
        }
        _ => unreachable!(),
    }
}

/// `-a`, `~a`, `abs(a)`, `minimum(a, b)`, `maximum(a, b)` and `where(condition, a, b)`.
#[cycle(walk)]
#[inline(never)]
pub(super) fn evaluate_operation(
    room: Room<'_>,
    session: &Session,
    value: &Expr,
) -> Result<Value, EvaluateEnd>
    requires operation { is_operation (tree_of value.now) ≡ true }
    requires built { is_built_tree (tree_of value.now) ≡ true }
    ensures usable { IfOk result (IsUsable (contents session.now.roots)) }
    ensures outcome { (state : State) → StandsFor session.now state
        → IsOutcome (tree_of value.now) state session.now result }
{
    match value {
        Expr::Neg(a) => {
            let a = evaluate(room, session, a.get())?;
            let result = negative(room, session, &a);
            a.release(room);
            result
        }
        Expr::Invert(a) => {
            let a = evaluate(room, session, a.get())?;
            let result = one_operand(room, session, Unary::Invert, &a);
            a.release(room);
            result
        }
        Expr::Abs(a) => {
            let a = evaluate(room, session, a.get())?;
            let result = one_operand(room, session, Unary::Abs, &a);
            a.release(room);
            result
        }
        Expr::Minimum(a, b) => {
            let a = evaluate(room, session, a.get())?;
            let b = evaluate(room, session, b.get())?;
            let result = two_operands(room, session, Binary::Min, &a, &b);
            a.release(room);
            b.release(room);
            result
        }
        Expr::Maximum(a, b) => {
            let a = evaluate(room, session, a.get())?;
            let b = evaluate(room, session, b.get())?;
            let result = two_operands(room, session, Binary::Max, &a, &b);
            a.release(room);
            b.release(room);
            result
        }
        Expr::Where(condition, a, b) => {
            let condition = evaluate(room, session, condition.get())?;
            let a = evaluate(room, session, a.get())?;
            let b = evaluate(room, session, b.get())?;
            let result = choice(room, session, &condition, &a, &b);
            condition.release(room);
            a.release(room);
            b.release(room);
            result
        }
        _ => unreachable!(),
    }
}
