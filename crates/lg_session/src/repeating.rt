//! Views that are repeated to another shape.
ghost use Rattle.std.specs.Prelude.{◌≡◌, ◌≤◌, ◌∷◌, [], ◌&&◌, ◌||◌, ◌==◌, Some, Ok, Err, IfOk, MatchResult, reverse, unsigned_abs};
ghost use Rattle.lg_space.specs.Stored.{MAX_VOLUME};
ghost use Rattle.lg_shape.specs.Shapes.{size_of, joined_shape};
ghost use Rattle.lg_meaning.specs.declared.fault.FaultKind.TheVariants.{Shape as BadShape, Limit};
ghost use Rattle.lg_meaning.specs.Faults.{from_part, needing};
ghost use Rattle.lg_meaning.specs.Memory.{Root};
ghost use Rattle.lg_meaning.specs.Weak.{number_of};
ghost use Rattle.lg_meaning.specs.Static.{as_array, array_result, is_within, weak_value};
ghost use Rattle.lg_meaning.specs.Creation.{is_shape as is_shape_of, extents};
ghost use Rattle.lg_meaning.specs.Value.{plain};
ghost use Rattle.lg_meaning.specs.Views.{broadcasts_to as broadcasts_to_of, broadcast_kind, repeated};
ghost use Rattle.lg_operations.specs.Views.{view_of};
ghost use Rattle.lg_operations.specs.Operations.{weak_of, fresh_kind, fresh_value, IsMade, IsWhole};
ghost use Rattle.lg_operations.specs.Repeating.{repeats_axes};
ghost use Rattle.lg_session.specs.Stored.{IsViewOf};
ghost use Rattle.lg_session.specs.Viewed.{picked_by, IsViewMade};

use lg_meaning::FaultKind;
use lg_operations::{
    EvaluateEnd, Fresh, Weak, gather, is_shape, scalar_array, shape_in, shape_within,
};
use lg_shape::Shape;
use lg_store::{Right, View};
use lg_tile::Room;
use lg_tile::laws::full_tiles;
use lg_xform::Chain;

/// The view repeated to the shape that is written. It may be read alone, since it may have an
/// element several times.
///
/// # Errors
///
/// The first fault of the shape.
pub(crate) fn repeat_view(view: &View, written: &[i128]) -> Result<View, FaultKind>
    ensures made { MatchResult result
        (IsViewMade (array_result (broadcast_kind (view_of view.now).kind written.now))
        (λ kind. repeated kind.shape) view.now)
        (λ fault. array_result (broadcast_kind (view_of view.now).kind written.now) ≡ Err fault) }
    ensures root { IfOk result (λ new. new.root ≡ view.now.root) }
    ensures held { (root : Root) → IsViewOf view.now root → IfOk result (λ new. IsViewOf new root) }
{
    let to = shape_to(&view.chain.shape(), written)?;
    let chain = view.chain.broadcast(&to);
    // What is known of every chain is told with its root.
    let _root = chain.root();
    Ok(View {
        root: view.root,
        dtype: view.dtype,
        chain,
        right: Right::ReadOnly,
    })
}

/// The elements of a new array, repeated to the shape that is written.
///
/// # Errors
///
/// The first fault of the shape, and `NoMemory`.
pub(crate) fn repeat_fresh(
    room: Room<'_>,
    fresh: &Fresh,
    written: &[i128],
) -> Result<Fresh, EvaluateEnd>
    requires { IsWhole fresh.now.tile }
    ensures { IsMade (array_result (broadcast_kind (fresh_kind fresh.now) written.now))
        (picked_by (λ kind. repeated kind.shape) (fresh_value fresh.now)) result }
{
    full_tiles();
    let shape = shape_in(&fresh.tile);
    let to = shape_to(&shape, written)?;
    let chain = Chain::whole(&shape).broadcast(&to);
    Ok(Fresh {
        tile: gather(room, &fresh.tile, &chain)?,
        right: Right::ReadOnly,
        fault: fresh.fault,
    })
}

/// A weak number, as a scalar of its type, repeated to the shape that is written.
///
/// # Errors
///
/// `Range` where the number does not fit int64, then the first fault of the shape, and `NoMemory`.
pub(crate) fn repeat_weak(room: Room<'_>, w: Weak, written: &[i128]) -> Result<Fresh, EvaluateEnd>
    ensures { IsMade (from_part (as_array (weak_value (weak_of w)))
        (λ kind. array_result (broadcast_kind kind written.now)))
        (picked_by (λ kind. repeated kind.shape) (plain [] (number_of (weak_of w) ∷ []))) result }
{
    let fresh = scalar_array(room.alloc(), w)?;
    repeat_fresh(room, &fresh, written)
}

/// The shape that is written, to which a value of another shape is repeated.
///
/// # Errors
///
/// `Shape` where what is written is no shape, or where the value does not broadcast to exactly this
/// one, then `Limit`.
#[tactic(auto, using(lg_operations::proofs::Exactly::joined_exactly))]
pub(crate) fn shape_to(shape: &Shape, written: &[i128]) -> Result<Shape, FaultKind>
    ensures rule { result ≡ needing (is_shape_of written.now && broadcasts_to_of shape.now
        (extents written.now)) BadShape
        (needing (is_within (extents written.now)) Limit (Ok (extents written.now))) }
    ensures joined { IfOk result (λ to. joined_shape shape.now to ≡ Some to) }
    ensures small { IfOk result (λ to. size_of to ≤ MAX_VOLUME) }
{
    if !is_shape(written) || !broadcasts_to(shape, written) {
        return Err(FaultKind::Shape);
    }
    shape_within(written).ok_or(FaultKind::Limit)
}

// Whether a value of this shape can be repeated to exactly the one that is written.
#[tactic(auto, using(lg_operations::proofs::Exactly::repeats_shape))]
fn broadcasts_to(shape: &Shape, written: &[i128]) -> bool
    ensures { result ≡ broadcasts_to_of shape.now (extents written.now) }
{
    repeats(shape.extents(), written)
}

// Whether each axis, from the last one on, is as long as the one that is written there, or has one
// element that is repeated.
fn repeats(shape: &[u64], written: &[i128]) -> bool
    ensures { result ≡ repeats_axes (reverse shape.now) (reverse (extents written.now)) }
{
    match (shape.split_last(), written.split_last()) {
        (None, _) => true,
        (Some(_), None) => false,
        (Some((own, shape)), Some((extent, written))) => {
            repeats_axis(*own, *extent) && repeats(shape, written)
        }
    }
}

// The same for one axis.
fn repeats_axis(own: u64, extent: i128) -> bool
    ensures { result ≡ (own == 1 || own == unsigned_abs extent) }
{
    own == 1 || u128::from(own) == extent.unsigned_abs()
}
