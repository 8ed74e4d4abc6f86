//! The forms that make an array, of an expression's parts.
ghost use Rattle.std.specs.Prelude.{◌≡◌, ◌+◌, true, length, IfOk, OnOk, option_map};
ghost use Rattle.lg_tree.specs.View.{tree_of, list_of, maybe_tree};
ghost use Rattle.lg_meaning.specs.Memory.{State};
ghost use Rattle.lg_session.specs.Roots.{contents};
ghost use Rattle.lg_session.specs.Standing.{StandsFor};
ghost use Rattle.lg_session.specs.Values.{IsUsable, IsOutcome, IsFirstBound};
ghost use Rattle.lg_session.specs.Lists.{leaves, IsGathered};
ghost use Rattle.lg_session.specs.Built.{is_built_tree, is_built_maybe, is_built_list};
ghost use Rattle.lg_session.specs.Forms.{is_creation};

use crate::evaluation::evaluate;
use crate::evaluation::parts::evaluate_extents;
use crate::forms::{array_of_ones, array_of_zeros, counted_array, full_array, listed_array};
use crate::lists::{Members, list_shape};
use crate::session::Session;
use crate::value::Value;
use lg_operations::{EvaluateEnd, Weak};
use lg_tile::Room;
use lg_tree::{Expr, ListExpr};
use sqlite_items::Boxed;

/// `full`, `zeros`, `ones`, `arange` and `array`.
#[cycle(walk)]
#[inline(never)]
pub(super) fn evaluate_creation(
    room: Room<'_>,
    session: &Session,
    value: &Expr,
) -> Result<Value, EvaluateEnd>
    requires creation { is_creation (tree_of value.now) ≡ true }
    requires built { is_built_tree (tree_of value.now) ≡ true }
    ensures usable { IfOk result (IsUsable (contents session.now.roots)) }
    ensures outcome { (state : State) → StandsFor session.now state
        → IsOutcome (tree_of value.now) state session.now result }
{
    match value {
        Expr::Full(shape, x, dtype) => {
            let extents = evaluate_extents(room, session, shape)?;
            let x = evaluate(room, session, x.get())?;
            full_array(room, session, &extents, &x, *dtype)
        }
        Expr::Zeros(shape, dtype) => {
            let extents = evaluate_extents(room, session, shape)?;
            array_of_zeros(room, session, &extents, *dtype)
        }
        Expr::Ones(shape, dtype) => {
            let extents = evaluate_extents(room, session, shape)?;
            array_of_ones(room, session, &extents, *dtype)
        }
        Expr::Arange(from, to, dtype) => {
            let from = evaluate_first_bound(room, session, from)?;
            let to = evaluate(room, session, to.get())?;
            counted_array(room, session, &from, &to, *dtype)
        }
        Expr::Array(list, dtype) => {
            let mut members = Members::new(room.alloc());
            gather(room, session, list, &mut members)?;
            let shape = list_shape(room.alloc(), list)?;
            listed_array(room, session, &members, shape, *dtype)
        }
        _ => unreachable!(),
    }
}

// The bound from which `arange` counts, 0 where it is left out.
#[cycle(walk)]
fn evaluate_first_bound(
    room: Room<'_>,
    session: &Session,
    from: &Option<Boxed<Expr>>,
) -> Result<Value, EvaluateEnd>
    requires { is_built_maybe (maybe_tree (option_map tree_of from.now)) ≡ true }
    ensures usable { IfOk result (IsUsable (contents session.now.roots)) }
    ensures outcome { (state : State) → StandsFor session.now state
        → IsFirstBound (maybe_tree (option_map tree_of from.now)) state session.now result }
{
    match from {
        Some(from) => evaluate(room, session, from.get()),
        None => Ok(Value::Weak(Weak::Integer(0))),
    }
}

// The values that stand in a list, in the order in which they are written.
#[cycle(walk)]
#[tactic(auto, using(crate::proofs::BuiltLemmas::list_built_at))]
fn gather(
    room: Room<'_>,
    session: &Session,
    list: &ListExpr,
    members: &mut Members,
) -> Result<(), EvaluateEnd>
    requires { is_built_list (list_of list.now) ≡ true }
    ensures count { OnOk result (length members.new.weaks.items
        ≡ length members.old.weaks.items + leaves (list_of list.now)) }
    ensures gathered { (state : State) → StandsFor session.now state
        → IsGathered (list_of list.now) state members.old members.new result }
{
    match list {
        ListExpr::Leaf(value) => {
            let value = evaluate(room, session, value.get())?;
            Ok(members.push(session, &value)?)
        }
        ListExpr::List(lists) => {
            for list in lists.as_slice() {
                gather(room, session, list, members)?;
            }
            Ok(())
        }
    }
}
