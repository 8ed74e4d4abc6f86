//! Views of views: which elements of a root a view form picks.
ghost use Rattle.std.specs.Prelude.{◌≡◌, ◌<◌, ◌^◌, [], ◌∷◌, true, ℕ, List, length, option_map, IfOk};
ghost use Rattle.std.specs.List.{list_all};
ghost use Rattle.std.specs.Result.{result_err};
ghost use Rattle.lg_shape.specs.Indexing.{index_fault, indexed};
ghost use Rattle.lg_xform.specs.Chains.{shape_of, layout_of};
ghost use Rattle.lg_meaning.specs.Memory.{Root, ArrayKind};
ghost use Rattle.lg_meaning.specs.Indices.{index_fault_kind, index_kind, index_form, picked_kind, is_element as is_element_of, are_integers as are_integers_of};
ghost use Rattle.lg_meaning.specs.Views.{view_right, picked};
ghost use Rattle.lg_meaning.specs.Faults.{from_part};
ghost use Rattle.lg_meaning.specs.Static.{as_array, array_result, weak_value};
ghost use Rattle.lg_meaning.specs.Value.{plain};
ghost use Rattle.lg_meaning.specs.Weak.{number_of};
ghost use Rattle.lg_operations.specs.Operations.{right_for, weak_of, fresh_kind, fresh_value, IsWhole, IsMade};
ghost use Rattle.lg_operations.specs.Views.{view_of};
ghost use Rattle.lg_session.specs.Roots.{contents};
ghost use Rattle.lg_session.specs.Stored.{IsHeld, IsViewOf, IsViewOfSome};
ghost use Rattle.lg_session.specs.Values.{IsUsable};
ghost use Rattle.lg_session.specs.Viewed.{IsViewed};
ghost use Rattle.lg_session.specs.Worlds.{shown_in};
ghost use Rattle.lg_session.specs.declared.value.Value.TheVariants.{Shown};

use crate::session::Session;
use crate::value::Value;
use lg_meaning::FaultKind;
use lg_operations::{EvaluateEnd, Fresh, Weak, gather, scalar_array, shape_in};
use lg_shape::{IndexFault, IndexItem};
use lg_store::{Right, View};
use lg_tile::Room;
use lg_tile::laws::full_tiles;
use lg_xform::Chain;

/// The view that an index picks of a view, or the index's first fault.
pub(crate) fn index_view(
    room: Room<'_>,
    view: &View,
    items: &[IndexItem],
) -> Result<View, FaultKind>
    requires few { length items.now < 2 ^ 32 }
    requires held { IsViewOfSome view.now }
    ensures fault { result_err result
        ≡ option_map index_fault_kind (index_fault (shape_of view.now.chain) items.now) }
    ensures layout { IfOk result (λ new. layout_of new.chain ≡ indexed (layout_of view.now.chain) items.now) }
    ensures root { IfOk result (λ new. new.root ≡ view.now.root) }
    ensures dtype { IfOk result (λ new. new.dtype ≡ view.now.dtype) }
    ensures right { IfOk result (λ new. right_for new.right ≡ view_right (right_for view.now.right)) }
    ensures held { (root : Root) → IsViewOf view.now root → IfOk result (λ new. IsViewOf new root) }
{
    match view.chain.index(room.alloc(), items) {
        Ok(chain) => {
            // What is known of every chain is told with its root.
            let _root = chain.root();
            Ok(View {
                root: view.root,
                dtype: view.dtype,
                chain,
                right: right_of_view(view.right),
            })
        }
        Err(fault) => Err(kind_of_fault(fault)),
    }
}

/// The elements that an index picks of a new array, or the index's first fault.
///
/// # Errors
///
/// The index's first fault, and `NoMemory`.
pub(crate) fn index_fresh(
    room: Room<'_>,
    fresh: &Fresh,
    items: &[IndexItem],
) -> Result<Fresh, EvaluateEnd>
    requires few { length items.now < 2 ^ 32 }
    requires whole { IsWhole fresh.now.tile }
    ensures { IsMade (array_result (index_kind (fresh_kind fresh.now) items.now))
        (picked (index_form items.now) (fresh_value fresh.now)) result }
{
    full_tiles();
    // What is known of every rectangle, its limits, is told with its ranges.
    let _limits = fresh.tile.rect().ranges();
    let shape = shape_in(&fresh.tile);
    match Chain::whole(&shape).index(room.alloc(), items) {
        Ok(chain) => Ok(Fresh {
            tile: gather(room, &fresh.tile, &chain)?,
            right: right_of_index(fresh.right, is_element(shape.extents().len(), items)),
            fault: fresh.fault,
        }),
        Err(fault) => Err(EvaluateEnd::Fault(kind_of_fault(fault))),
    }
}

/// The elements that an index picks of a weak number, which counts as a scalar.
///
/// # Errors
///
/// `Range` where an integer does not fit int64, then the index's first fault, and `NoMemory`.
pub(crate) fn index_weak(room: Room<'_>, w: Weak, items: &[IndexItem]) -> Result<Fresh, EvaluateEnd>
    requires { length items.now < 2 ^ 32 }
    ensures { IsMade (from_part (as_array (weak_value (weak_of w)))
        (λ kind. array_result (index_kind kind items.now)))
        (picked (index_form items.now) (plain [] (number_of (weak_of w) ∷ []))) result }
{
    let scalar = scalar_array(room.alloc(), w)?;
    index_fresh(room, &scalar, items)
}

/// What an index picks of a view that is held: a view, or a copy of one element.
///
/// # Errors
///
/// The index's first fault, and `NoMemory`.
pub(crate) fn index_shown(
    room: Room<'_>,
    session: &Session,
    view: &View,
    items: &[IndexItem],
) -> Result<Value, EvaluateEnd>
    requires few { length items.now < 2 ^ 32 }
    requires held { IsHeld (contents session.now.roots) view.now }
    ensures usable { IfOk result (IsUsable (contents session.now.roots)) }
    ensures viewed { IsViewed (array_result (index_kind (view_of view.now).kind items.now))
        (λ kind. index_form items.now) (λ shape. is_element_of shape items.now)
        (contents session.now.roots) (Shown view.now) result }
{
    if is_element(view.chain.shape().extents().len(), items) {
        return Ok(Value::Fresh(copied_element(room, session, view, items)?));
    }
    Ok(Value::Shown(index_view(room, view, items)?))
}

// The element that an index picks of a view that is held.
fn copied_element(
    room: Room<'_>,
    session: &Session,
    view: &View,
    items: &[IndexItem],
) -> Result<Fresh, EvaluateEnd>
    requires few { length items.now < 2 ^ 32 }
    requires held { IsHeld (contents session.now.roots) view.now }
    requires element { is_element_of (shape_of view.now.chain) items.now ≡ true }
    ensures { IsMade (array_result (index_kind (view_of view.now).kind items.now))
        (picked (index_form items.now) (plain (view_of view.now).kind.shape
        (shown_in (contents session.now.roots) (view_of view.now)))) result }
{
    let picked = index_view(room, view, items)?;
    let tile = session.roots.tile(view.root);
    Ok(Fresh {
        tile: gather(room, tile, &picked.chain)?,
        right: Right::Scalar,
        fault: None,
    })
}

// What a script may do with what an index picks of an array with this right.
fn right_of_index(right: Right, element: bool) -> Right
    ensures { (kind : ArrayKind) (shape : List ℕ) → kind.right ≡ right_for right
        → right_for result ≡ (picked_kind element kind shape).right }
{
    if element {
        Right::Scalar
    } else {
        right_of_view(right)
    }
}

/// Whether an index picks one element: integers alone, one for each axis.
pub(crate) fn is_element(axes: usize, items: &[IndexItem]) -> bool
    ensures { (shape : List ℕ) → length shape ≡ axes → result ≡ is_element_of shape items.now }
{
    are_integers(items) && items.len() == axes
}

// Whether each item is an integer.
#[tactic(auto, using(crate::proofs::ViewLemmas::integers_all))]
fn are_integers(items: &[IndexItem]) -> bool
    ensures { result ≡ are_integers_of items.now }
{
    each_is_integer(items)
}

fn each_is_integer(items: &[IndexItem]) -> bool
    ensures { result ≡ list_all (λ item. are_integers_of (item ∷ [])) items.now }
{
    items.iter().all(|item| is_integer(item))
}

fn is_integer(item: &IndexItem) -> bool
    ensures { result ≡ are_integers_of (item.now ∷ []) }
{
    matches!(item, IndexItem::At(_))
}

/// What a script may do with a view of an array with this right.
pub(crate) fn right_of_view(right: Right) -> Right
    ensures { right_for result ≡ view_right (right_for right) }
{
    match right {
        Right::Writable => Right::Writable,
        Right::ReadOnly | Right::Scalar => Right::ReadOnly,
    }
}

// The kind of an index's fault.
fn kind_of_fault(fault: IndexFault) -> FaultKind
    ensures { result ≡ index_fault_kind fault }
{
    match fault {
        IndexFault::TwoEllipses | IndexFault::TooMany | IndexFault::OutOfRange { .. } => {
            FaultKind::Index
        }
        IndexFault::Step { .. } => FaultKind::Step,
        IndexFault::TooManyAxes => FaultKind::Shape,
    }
}
