//! The view forms, of an expression's parts.
ghost use Rattle.std.specs.Prelude.{◌≡◌, true, IfOk};
ghost use Rattle.lg_tree.specs.View.{tree_of};
ghost use Rattle.lg_meaning.specs.Memory.{State};
ghost use Rattle.lg_session.specs.Roots.{contents};
ghost use Rattle.lg_session.specs.Standing.{StandsFor};
ghost use Rattle.lg_session.specs.Values.{IsUsable, IsOutcome};
ghost use Rattle.lg_session.specs.Built.{is_built_tree};
ghost use Rattle.lg_session.specs.Forms.{is_view};

use crate::evaluation::evaluate;
use crate::evaluation::parts::{evaluate_axes, evaluate_extents, evaluate_items};
use crate::session::Session;
use crate::value::Value;
use crate::viewing::{broadcast, indexed, transposed};
use lg_meaning::FaultKind;
use lg_operations::EvaluateEnd;
use lg_tile::Room;
use lg_tree::Expr;

/// `a[..]`, `transpose(a, axes)`, `a.T` and `broadcast_to(a, shape)`.
#[cycle(walk)]
#[inline(never)]
pub(super) fn evaluate_view(
    room: Room<'_>,
    session: &Session,
    value: &Expr,
) -> Result<Value, EvaluateEnd>
    requires view { is_view (tree_of value.now) ≡ true }
    requires built { is_built_tree (tree_of value.now) ≡ true }
    ensures usable { IfOk result (IsUsable (contents session.now.roots)) }
    ensures outcome { (state : State) → StandsFor session.now state
        → IsOutcome (tree_of value.now) state session.now result }
{
    match value {
        Expr::Index(a, items) => {
            let a = evaluate(room, session, a.get())?;
            let read = evaluate_items(room, session, items.as_slice())?;
            match read {
                Some(items) => indexed(room, session, &a, &items),
                None => Err(EvaluateEnd::Fault(FaultKind::TypeKind)),
            }
        }
        Expr::Transpose(a, axes) => {
            let a = evaluate(room, session, a.get())?;
            let axes = evaluate_axes(room, session, axes)?;
            transposed(room, session, &a, &axes)
        }
        Expr::BroadcastTo(a, shape) => {
            let a = evaluate(room, session, a.get())?;
            let extents = evaluate_extents(room, session, shape)?;
            broadcast(room, session, &a, &extents)
        }
        _ => unreachable!(),
    }
}
