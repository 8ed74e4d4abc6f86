//! The walk over an expression: each part is evaluated once, from left to right, and then the
//! operation on the parts. A walk's frame is made anew at each expression, so each group of forms
//! has a function of its own.
ghost use Rattle.std.specs.Prelude.{◌≡◌, true, IfOk};
ghost use Rattle.lg_tree.specs.Tree.{name as name_tree};
ghost use Rattle.lg_tree.specs.View.{tree_of};
ghost use Rattle.lg_meaning.specs.Memory.{State};
ghost use Rattle.lg_session.specs.Roots.{contents};
ghost use Rattle.lg_session.specs.Standing.{StandsFor};
ghost use Rattle.lg_session.specs.Values.{IsUsable, IsOutcome};
ghost use Rattle.lg_session.specs.Built.{is_built_tree};

mod copies;
mod creation;
mod operators;
mod parts;
mod views;

use crate::evaluation::copies::evaluate_copy;
use crate::evaluation::creation::evaluate_creation;
use crate::evaluation::operators::{evaluate_operation, evaluate_operator};
pub(crate) use crate::evaluation::parts::evaluate_items;
use crate::evaluation::views::evaluate_view;
use crate::names::Bound;
use crate::session::Session;
use crate::value::Value;
use lg_meaning::FaultKind;
use lg_operations::{EvaluateEnd, Weak};
use lg_tile::Room;
use lg_tree::Expr;

/// What an expression stands for.
///
/// # Errors
///
/// The expression's first static fault, and `NoMemory`.
#[cycle(walk)]
pub(crate) fn evaluate(
    room: Room<'_>,
    session: &Session,
    value: &Expr,
) -> Result<Value, EvaluateEnd>
    requires { is_built_tree (tree_of value.now) ≡ true }
    ensures usable { IfOk result (IsUsable (contents session.now.roots)) }
    ensures outcome { (state : State) → StandsFor session.now state
        → IsOutcome (tree_of value.now) state session.now result }
{
    match value {
        Expr::Number(n) => Ok(Value::Weak(Weak::Integer(i128::from(*n)))),
        Expr::Truth(b) => Ok(Value::Weak(Weak::Truth(*b))),
        Expr::Name(name) => named(session, name.as_slice()),
        Expr::Arith(_, _, _) | Expr::Compare(_, _, _) => evaluate_operator(room, session, value),
        Expr::Neg(_)
        | Expr::Invert(_)
        | Expr::Abs(_)
        | Expr::Minimum(_, _)
        | Expr::Maximum(_, _)
        | Expr::Where(_, _, _) => evaluate_operation(room, session, value),
        Expr::Full(_, _, _)
        | Expr::Zeros(_, _)
        | Expr::Ones(_, _)
        | Expr::Arange(_, _, _)
        | Expr::Array(_, _) => evaluate_creation(room, session, value),
        Expr::Index(_, _) | Expr::Transpose(_, _) | Expr::BroadcastTo(_, _) => {
            evaluate_view(room, session, value)
        }
        Expr::Copy(_) | Expr::Flatten(_) | Expr::AsType(_, _) | Expr::Reshape(_, _) => {
            evaluate_copy(room, session, value)
        }
        Expr::MatMul(_, _)
        | Expr::Reduce(_, _, _)
        | Expr::Take(_, _, _)
        | Expr::Stencil(_, _)
        | Expr::Apply(_, _, _)
        | Expr::Scan(_, _, _) => unreachable!(),
    }
}

/// What a name stands for.
pub(crate) fn named(session: &Session, word: &[u8]) -> Result<Value, EvaluateEnd>
    ensures usable { IfOk result (IsUsable (contents session.now.roots)) }
    ensures outcome { (state : State) → StandsFor session.now state
        → IsOutcome (name_tree word.now) state session.now result }
{
    match session.names.get(word) {
        Some(Bound::Weak(w)) => Ok(Value::Weak(w)),
        Some(Bound::Array(view)) => Ok(Value::Shown(view)),
        None => Err(EvaluateEnd::Fault(FaultKind::Name)),
    }
}
