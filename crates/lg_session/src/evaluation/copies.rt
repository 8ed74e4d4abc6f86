//! The copying forms, of an expression's parts.
ghost use Rattle.std.specs.Prelude.{◌≡◌, true, IfOk};
ghost use Rattle.lg_tree.specs.View.{tree_of};
ghost use Rattle.lg_meaning.specs.Memory.{State};
ghost use Rattle.lg_session.specs.Roots.{contents};
ghost use Rattle.lg_session.specs.Standing.{StandsFor};
ghost use Rattle.lg_session.specs.Values.{IsUsable, IsOutcome};
ghost use Rattle.lg_session.specs.Built.{is_built_tree};
ghost use Rattle.lg_session.specs.Forms.{is_copy};

use crate::copying::{converted, copied, flattened, reshaped};
use crate::evaluation::evaluate;
use crate::evaluation::parts::evaluate_extents;
use crate::session::Session;
use crate::value::Value;
use lg_operations::EvaluateEnd;
use lg_tile::Room;
use lg_tree::Expr;

/// `a.copy()`, `a.flatten()`, `a.astype(type)` and `a.reshape(shape)`.
#[cycle(walk)]
#[inline(never)]
pub(super) fn evaluate_copy(
    room: Room<'_>,
    session: &Session,
    value: &Expr,
) -> Result<Value, EvaluateEnd>
    requires copy { is_copy (tree_of value.now) ≡ true }
    requires built { is_built_tree (tree_of value.now) ≡ true }
    ensures usable { IfOk result (IsUsable (contents session.now.roots)) }
    ensures outcome { (state : State) → StandsFor session.now state
        → IsOutcome (tree_of value.now) state session.now result }
{
    match value {
        Expr::Copy(a) => {
            let a = evaluate(room, session, a.get())?;
            copied(room, session, a)
        }
        Expr::Flatten(a) => {
            let a = evaluate(room, session, a.get())?;
            flattened(room, session, a)
        }
        Expr::AsType(a, t) => {
            let a = evaluate(room, session, a.get())?;
            let result = converted(room, session, &a, *t);
            a.release(room);
            result
        }
        Expr::Reshape(a, shape) => {
            let a = evaluate(room, session, a.get())?;
            let extents = evaluate_extents(room, session, shape)?;
            reshaped(room, session, a, &extents)
        }
        _ => unreachable!(),
    }
}
