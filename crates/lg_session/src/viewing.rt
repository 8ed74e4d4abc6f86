//! The view forms, of parts that are evaluated already.
ghost use Rattle.std.specs.Prelude.{◌≡◌, [], false, length, map, option_copied, option_map, IfOk};
ghost use Rattle.lg_meaning.specs.Faults.{from_part, known_or};
ghost use Rattle.lg_meaning.specs.Static.{as_array, array_result};
ghost use Rattle.lg_meaning.specs.Indices.{index_kind, index_form, is_element};
ghost use Rattle.lg_meaning.specs.Views.{transpose_static, transpose_axes, transposed as transposed_form, optional_integers, broadcast_kind, broadcast_static, repeated};
ghost use Rattle.lg_session.specs.Parts.{axes_static};
ghost use Rattle.lg_session.specs.Roots.{contents};
ghost use Rattle.lg_session.specs.Values.{value_static, value_in, IsUsable};
ghost use Rattle.lg_session.specs.Viewed.{IsViewed};

use crate::forms::integers;
use crate::repeating::{repeat_fresh, repeat_view, repeat_weak};
use crate::session::Session;
use crate::turning::{axis_numbers, transpose};
use crate::value::Value;
use crate::views::{index_fresh, index_shown, index_weak};
use lg_operations::EvaluateEnd;
use lg_shape::IndexItem;
use lg_tile::Room;

/// The most items that an index is read with.
pub(crate) const MOST_ITEMS: usize = u32::MAX as usize;

/// `a[items]`: an element of a view is copied.
///
/// # Errors
///
/// `Range` where a weak number does not fit int64, then the index's first fault, and `NoMemory`.
pub(crate) fn indexed(
    room: Room<'_>,
    session: &Session,
    a: &Value,
    items: &[IndexItem],
) -> Result<Value, EvaluateEnd>
    requires { IsUsable (contents session.now.roots) a.now }
    ensures usable { IfOk result (IsUsable (contents session.now.roots)) }
    ensures viewed { IsViewed (from_part (as_array (value_static a.now))
        (λ kind. array_result (index_kind kind items.now))) (λ kind. index_form items.now)
        (λ shape. is_element shape items.now) (contents session.now.roots) a.now result }
{
    if items.len() > MOST_ITEMS {
        return Err(EvaluateEnd::NoMemory);
    }
    match a {
        Value::Weak(w) => Ok(Value::Fresh(index_weak(room, *w, items)?)),
        Value::Fresh(fresh) => Ok(Value::Fresh(index_fresh(room, fresh, items)?)),
        Value::Shown(view) => index_shown(room, session, view, items),
    }
}

/// `transpose(a, axes)`, and `a.T` without axes.
///
/// # Errors
///
/// The first fault of the axes, and `NoMemory`.
pub(crate) fn transposed(
    room: Room<'_>,
    session: &Session,
    a: &Value,
    axes: &Option<Vec<Value>>,
) -> Result<Value, EvaluateEnd>
    requires { IsUsable (contents session.now.roots) a.now }
    ensures usable { IfOk result (IsUsable (contents session.now.roots)) }
    ensures viewed { IsViewed (transpose_static (value_static a.now) (axes_static axes.now))
        (λ kind. transposed_form (known_or [] (from_part (optional_integers (axes_static axes.now))
        (transpose_axes (length (value_in (contents session.now.roots) a.now).shape)))))
        (λ shape. false) (contents session.now.roots) a.now result }
{
    let axes = axis_numbers(room.alloc(), axes)?;
    transpose(room, session, a, lent(&axes))
}

// The axes, if there are any.
fn lent(axes: &Option<Vec<i128>>) -> Option<&[i128]>
    ensures { option_copied result ≡ option_map (λ axes. axes.items) axes.now }
{
    match axes {
        Some(axes) => Some(axes.as_slice()),
        None => None,
    }
}

/// `broadcast_to(a, shape)`
///
/// # Errors
///
/// `Shape` where the value does not broadcast to exactly this shape, `Limit` where it has too many
/// elements, and `NoMemory`.
pub(crate) fn broadcast(
    room: Room<'_>,
    session: &Session,
    a: &Value,
    extents: &[Value],
) -> Result<Value, EvaluateEnd>
    requires { IsUsable (contents session.now.roots) a.now }
    ensures usable { IfOk result (IsUsable (contents session.now.roots)) }
    ensures viewed { IsViewed (broadcast_static (value_static a.now) (map value_static extents.now))
        (λ kind. repeated kind.shape) (λ shape. false) (contents session.now.roots) a.now result }
{
    let written = integers(room.alloc(), extents)?;
    repeat(room, session, a, &written)
}

// The same, of extents that are whole numbers.
fn repeat(
    room: Room<'_>,
    session: &Session,
    a: &Value,
    written: &[i128],
) -> Result<Value, EvaluateEnd>
    requires { IsUsable (contents session.now.roots) a.now }
    ensures usable { IfOk result (IsUsable (contents session.now.roots)) }
    ensures viewed { IsViewed (from_part (as_array (value_static a.now))
        (λ kind. array_result (broadcast_kind kind written.now))) (λ kind. repeated kind.shape)
        (λ shape. false) (contents session.now.roots) a.now result }
{
    match a {
        Value::Weak(w) => Ok(Value::Fresh(repeat_weak(room, *w, written)?)),
        Value::Fresh(fresh) => Ok(Value::Fresh(repeat_fresh(room, fresh, written)?)),
        Value::Shown(view) => Ok(Value::Shown(repeat_view(view, written)?)),
    }
}
