//! The copying forms, of parts that are evaluated already.
ghost use Rattle.std.specs.Prelude.{◌≡◌, ◌≤◌, map, IfOk};
ghost use Rattle.lg_space.specs.Stored.{MAX_VOLUME};
ghost use Rattle.lg_shape.specs.Shapes.{size_of};
ghost use Rattle.lg_meaning.specs.Copies.{as_type_static, as_type_value, copy_static, flatten_static, reshape_static, same_numbers};
ghost use Rattle.lg_meaning.specs.Static.{shape_of};
ghost use Rattle.lg_session.specs.Copying.{IsMadeAnew, IsOwned};
ghost use Rattle.lg_session.specs.Roots.{contents};
ghost use Rattle.lg_session.specs.Stored.{IsHeld};
ghost use Rattle.lg_session.specs.Values.{value_static, value_in, IsComputed, IsUsable};
ghost use Rattle.lg_session.specs.declared.value.Value.TheVariants.{Shown};

use crate::forms::integers;
use crate::session::Session;
use crate::value::Value;
use lg_elem::DType;
use lg_operations::{
    EvaluateEnd, Fresh, as_type, gather, in_shape, rule_of_copy, rule_of_flatten, rule_of_reshape,
    scalar_array,
};
use lg_shape::Shape;
use lg_store::{Right, View};
use lg_tile::Room;

/// `a.astype(type)`
///
/// # Errors
///
/// `Range` where a weak number does not fit int64, then `Limit`, and `NoMemory`.
pub(crate) fn converted(
    room: Room<'_>,
    session: &Session,
    a: &Value,
    t: DType,
) -> Result<Value, EvaluateEnd>
    requires { IsUsable (contents session.now.roots) a.now }
    ensures usable { IfOk result (IsUsable (contents session.now.roots)) }
    ensures computed { IsComputed (as_type_static (value_static a.now) t)
        (as_type_value (value_in (contents session.now.roots) a.now)) result }
{
    let a = session.read(a);
    Ok(Value::Fresh(as_type(room, session.pieces, &a, t)?))
}

/// `a.copy()`
///
/// # Errors
///
/// `Range` where a weak number does not fit int64, then `Limit`, and `NoMemory`.
pub(crate) fn copied(room: Room<'_>, session: &Session, a: Value) -> Result<Value, EvaluateEnd>
    requires { IsUsable (contents session.now.roots) a }
    ensures usable { IfOk result (IsUsable (contents session.now.roots)) }
    ensures computed { IsComputed (copy_static (value_static a))
        (same_numbers (value_in (contents session.now.roots) a)) result }
{
    let (_, shape) = rule_of_copy(&session.read(&a))?;
    Ok(Value::Fresh(anew(room, session, a, &shape)?))
}

/// `a.flatten()`
///
/// # Errors
///
/// `Range` where a weak number does not fit int64, then `Limit`, and `NoMemory`.
pub(crate) fn flattened(room: Room<'_>, session: &Session, a: Value) -> Result<Value, EvaluateEnd>
    requires { IsUsable (contents session.now.roots) a }
    ensures usable { IfOk result (IsUsable (contents session.now.roots)) }
    ensures computed { IsComputed (flatten_static (value_static a))
        (same_numbers (value_in (contents session.now.roots) a)) result }
{
    let (_, shape) = rule_of_flatten(&session.read(&a))?;
    Ok(Value::Fresh(anew(room, session, a, &shape)?))
}

/// `a.reshape(shape)`
///
/// # Errors
///
/// `TypeKind` where an extent is no integer, then `Range` where a weak number does not fit int64,
/// then `Shape` where the shape is none of as many elements, then `Limit`, and `NoMemory`.
pub(crate) fn reshaped(
    room: Room<'_>,
    session: &Session,
    a: Value,
    extents: &[Value],
) -> Result<Value, EvaluateEnd>
    requires { IsUsable (contents session.now.roots) a }
    ensures usable { IfOk result (IsUsable (contents session.now.roots)) }
    ensures computed { IsComputed
        (reshape_static (value_static a) (map value_static extents.now))
        (same_numbers (value_in (contents session.now.roots) a)) result }
{
    let written = integers(room.alloc(), extents)?;
    let (_, shape) = rule_of_reshape(&session.read(&a), &written)?;
    Ok(Value::Fresh(anew(room, session, a, &shape)?))
}

// The elements of a value as a new array of this shape, which may be written.
fn anew(room: Room<'_>, session: &Session, a: Value, shape: &Shape) -> Result<Fresh, EvaluateEnd>
    requires usable { IsUsable (contents session.now.roots) a }
    requires small { size_of shape.now ≤ MAX_VOLUME }
    requires size { size_of shape.now ≡ size_of (shape_of (value_static a)) }
    ensures { IsMadeAnew (contents session.now.roots) a shape.now result }
{
    let fresh = owned(room, session, a)?;
    Ok(Fresh {
        tile: in_shape(fresh.tile, shape),
        right: Right::Writable,
        fault: fresh.fault,
    })
}

// The elements of a value as an array that no name reaches: those of a view are copied.
fn owned(room: Room<'_>, session: &Session, a: Value) -> Result<Fresh, EvaluateEnd>
    requires { IsUsable (contents session.now.roots) a }
    ensures { IsOwned (contents session.now.roots) a result }
{
    match a {
        Value::Weak(w) => scalar_array(room.alloc(), w),
        Value::Shown(view) => gathered(room, session, &view),
        Value::Fresh(fresh) => Ok(fresh),
    }
}

// The elements of a view.
fn gathered(room: Room<'_>, session: &Session, view: &View) -> Result<Fresh, EvaluateEnd>
    requires { IsHeld (contents session.now.roots) view.now }
    ensures { IsOwned (contents session.now.roots) (Shown view.now) result }
{
    Ok(Fresh {
        tile: gather(room, session.roots.tile(view.root), &view.chain)?,
        right: view.right,
        fault: None,
    })
}
