//! Transposes: views and new arrays with their axes in another order.
ghost use Rattle.std.specs.Prelude.{◌≡◌, false, length, option_map, option_copied, Err, IfOk, MatchResult};
ghost use Rattle.lg_xform.specs.Chains.{shape_of};
ghost use Rattle.lg_meaning.specs.Views.{transpose_axes as transpose_axes_of, transpose_kind};
ghost use Rattle.lg_meaning.specs.Static.{array_result};
ghost use Rattle.lg_operations.specs.Views.{view_of};
ghost use Rattle.lg_operations.specs.Operations.{extents_of, fresh_kind, fresh_value, IsWhole, IsMade};
ghost use Rattle.lg_session.specs.Roots.{contents};
ghost use Rattle.lg_session.specs.Stored.{IsViewOfSome};
ghost use Rattle.lg_session.specs.Turned.{AreNumbers, IsTurned, IsViewTurned, turned_by, turned_static};
ghost use Rattle.lg_session.specs.Values.{value_static, value_in, IsUsable};
ghost use Rattle.lg_session.specs.Viewed.{picked_by, IsViewed};

use crate::axes::transpose_axes;
use crate::forms::integers;
use crate::session::Session;
use crate::value::Value;
use crate::views::right_of_view;
use lg_meaning::FaultKind;
use lg_operations::{EvaluateEnd, Fresh, gather, scalar_array, shape_in};
use lg_shape::Step;
use lg_store::View;
use lg_tile::Room;
use lg_tile::laws::full_tiles;
use lg_xform::Chain;
use std::alloc::Global;

/// The axes of a transpose as numbers, if there are any.
///
/// # Errors
///
/// `TypeKind` where one of them is no integer, and `NoMemory`.
pub(crate) fn axis_numbers(
    alloc: Global,
    axes: &Option<Vec<Value>>,
) -> Result<Option<Vec<i128>>, EvaluateEnd>
    ensures { AreNumbers axes.now result }
{
    match axes {
        Some(axes) => Ok(Some(integers(alloc, axes)?)),
        None => Ok(None),
    }
}

/// A value with its axes in another order, or in the opposite order where none is written.
///
/// # Errors
///
/// `Range` where a weak number does not fit int64, then the first fault of the axes, and
/// `NoMemory`.
pub(crate) fn transpose(
    room: Room<'_>,
    session: &Session,
    a: &Value,
    axes: Option<&[i128]>,
) -> Result<Value, EvaluateEnd>
    requires { IsUsable (contents session.now.roots) a.now }
    ensures usable { IfOk result (IsUsable (contents session.now.roots)) }
    ensures viewed { IsViewed (turned_static (value_static a.now) (option_copied axes.entry))
        (turned_by (length (value_in (contents session.now.roots) a.now).shape)
        (option_copied axes.entry)) (λ shape. false) (contents session.now.roots) a.now result }
{
    match a {
        Value::Weak(w) => {
            let scalar = scalar_array(room.alloc(), *w)?;
            Ok(Value::Fresh(transpose_fresh(room, &scalar, axes)?))
        }
        Value::Shown(view) => Ok(Value::Shown(transpose_view(view, axes)?)),
        Value::Fresh(fresh) => Ok(Value::Fresh(transpose_fresh(room, fresh, axes)?)),
    }
}

// The view with its axes in another order, or the first fault of the axes.
fn transpose_view(view: &View, axes: Option<&[i128]>) -> Result<View, FaultKind>
    requires { IsViewOfSome view.now }
    ensures { MatchResult result (IsViewTurned (option_copied axes.entry) view.now)
        (λ kind. array_result (transpose_kind (view_of view.now).kind (option_copied axes.entry))
        ≡ Err kind) }
{
    let chain = turned(&view.chain, axes)?;
    // What is known of every chain is told with its root.
    let _root = chain.root();
    Ok(View {
        root: view.root,
        dtype: view.dtype,
        chain,
        right: right_of_view(view.right),
    })
}

// The elements of a new array with its axes in another order.
fn transpose_fresh(
    room: Room<'_>,
    fresh: &Fresh,
    axes: Option<&[i128]>,
) -> Result<Fresh, EvaluateEnd>
    requires { IsWhole fresh.now.tile }
    ensures { IsMade (array_result (transpose_kind (fresh_kind fresh.now) (option_copied axes.entry)))
        (picked_by (turned_by (length (extents_of fresh.now.tile)) (option_copied axes.entry))
        (fresh_value fresh.now)) result }
{
    full_tiles();
    // What is known of every rectangle, its limits, is told with its ranges.
    let _limits = fresh.tile.rect().ranges();
    let chain = turned(&Chain::whole(&shape_in(&fresh.tile)), axes)?;
    Ok(Fresh {
        tile: gather(room, &fresh.tile, &chain)?,
        right: right_of_view(fresh.right),
        fault: fresh.fault,
    })
}

// The chain with its axes in another order, or the first fault of the axes.
fn turned(chain: &Chain, axes: Option<&[i128]>) -> Result<Chain, FaultKind>
    ensures { MatchResult result (IsTurned (option_copied axes.entry) chain.now)
        (λ kind. transpose_axes_of (length (shape_of chain.now)) (option_copied axes.entry)
        ≡ Err kind) }
{
    let shape = chain.shape();
    let axes = transpose_axes(shape.extents().len(), axes)?;
    Ok(chain.apply(&Step::Transpose { axes }))
}
