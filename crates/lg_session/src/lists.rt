//! What stands in a written list of numbers, and the shape of such lists.
ghost use Rattle.std.specs.Prelude.{◌≡◌, ◌+◌, [], ◌∷◌, length, Ok, All, IfOk, OnOk, option_map};
ghost use Rattle.std.proofs.Props.{props};
ghost use Rattle.lg_tree.specs.View.{list_of};
ghost use Rattle.lg_meaning.specs.Static.{weaks};
ghost use Rattle.lg_meaning.specs.Creation.{list_shape as shape_of_list};
ghost use Rattle.lg_session.specs.ListShapes.{is_alike as is_alike_shape};
ghost use Rattle.lg_operations.specs.Operations.{weak_of, IsRanged};
ghost use Rattle.lg_session.specs.Roots.{contents};

use crate::session::Session;
use crate::value::Value;
use lg_operations::Weak;
use lg_tree::ListExpr;
use std::alloc::{AllocError, Global};

/// The weak numbers that stand in a list, and whether an array stands there too.
#[derive(Drop)]
pub(crate) struct Members {
    pub(crate) weaks: Vec<Weak>,
    pub(crate) has_array: bool,
    ghost ranged: { All (λ w. IsRanged (weak_of w)) weaks.items } by { Prim.hlevel props },
}

impl Members {
    ghost use Rattle.lg_session.specs.Lists.{gathered, joined};
    ghost use Rattle.lg_session.specs.Values.{value_static, IsUsable};

    /// Nothing yet.
    pub(crate) fn new(alloc: Global) -> Members
        ensures nothing { gathered result ≡ Ok [] }
        ensures count { length result.weaks.items ≡ 0 }
    {
        Members {
            weaks: Vec::new(alloc),
            has_array: false,
        }
    }

    /// One more value. In the place of an array stands a number that nothing asks for.
    pub(crate) fn push(&mut self, session: &Session, value: &Value) -> Result<(), AllocError>
        requires { IsUsable (contents session.now.roots) value.now }
        ensures more { OnOk result (gathered self.new
            ≡ joined (gathered self.old) (weaks (value_static value.now ∷ []))) }
        ensures count { OnOk result (length self.new.weaks.items
            ≡ length self.old.weaks.items + 1) }
    {
        match value {
            Value::Weak(w) => self.weaks.push(*w)?,
            _ => {
                self.weaks.push(Weak::Truth(false))?;
                self.has_array = true;
            }
        }
        Ok(())
    }
}

/// The shape of nested lists, if all lists of one depth are alike.
pub(crate) fn list_shape(alloc: Global, list: &ListExpr) -> Result<Option<Vec<u64>>, AllocError>
    ensures { IfOk result (λ shape. option_map (λ extents. extents.items) shape
        ≡ shape_of_list (list_of list.now)) }
{
    let ListExpr::List(lists) = list else {
        return Ok(Some(Vec::new(alloc)));
    };
    let lists = lists.as_slice();
    let Some((first, others)) = lists.split_first() else {
        return Ok(Some(Vec::from_slice(alloc, &[0])?));
    };
    let Some(shape) = list_shape(alloc, first)? else {
        return Ok(None);
    };
    for other in others {
        let next = list_shape(alloc, other)?;
        if !is_alike(&next, &shape) {
            return Ok(None);
        }
    }
    let mut extents = Vec::from_slice(alloc, &[lists.len() as u64])?;
    extents.extend_from_slice(&shape)?;
    Ok(Some(extents))
}

// Whether a list has a shape, and it is this one.
fn is_alike(other: &Option<Vec<u64>>, shape: &[u64]) -> bool
    ensures { result ≡ is_alike_shape (option_map (λ extents. extents.items) other.now) shape.now }
{
    match other {
        Some(other) => other.as_slice() == shape,
        None => false,
    }
}
