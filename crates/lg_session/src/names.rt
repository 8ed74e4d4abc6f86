ghost use Rattle.std.specs.Prelude.{◌≡◌, ◌↔◌, ℕ, IsTrue, List, None, Some, IfOk, IfSome, OnOk, OnErr, IsOk, IsSome, option_and_then, bytes_eq, if◌then◌else◌};

use lg_operations::Weak;
use lg_store::View;
use std::alloc::{AllocError, Global};
use std::collections::BTreeMap;

/// What a name stands for.
#[derive(Clone, Copy, Debug)]
pub(crate) enum Bound {
    Weak(Weak),
    Array(View),
}

/// What names stand for.
#[derive(Drop)]
pub(crate) struct Names {
    alloc: Global,
    bounds: BTreeMap<Vec<u8>, Bound>,
}

impl Bound {
    ghost use Rattle.lg_session.specs.Names.{is_of, viewed_root};

    /// The root that this is a view of, if it is one.
    fn root(&self) -> Option<u64>
        ensures { result ≡ viewed_root self.now }
    {
        match self {
            Bound::Weak(_) => None,
            Bound::Array(view) => Some(view.root),
        }
    }

    /// Whether this is a view of the root.
    fn is_of(&self, root: u64) -> bool
        ensures { result ≡ is_of root self.now }
    {
        match self {
            Bound::Weak(_) => false,
            Bound::Array(view) => view.root == root,
        }
    }
}

impl Names {
    ghost use Rattle.std.specs.List.{list_any};
    ghost use Rattle.std.specs.BTreeMap.{values, IsOrdered};
    ghost use Rattle.std.specs.Ordering.{nat_cmp};
    ghost use Rattle.std.specs.Cmp.Lexicographic.{slice_cmp};
    ghost use Rattle.lg_session.specs.Names.{bound_at, is_of, viewed_root, IsReached};
    ghost use Rattle.lg_session.specs.declared.names.Bound.TheVariants.{Weak as WeakBound};

    /// No name.
    pub(crate) fn new(alloc: Global) -> Names
        ensures { (w : List ℕ) → bound_at result w ≡ None }
    {
        Names {
            alloc,
            bounds: BTreeMap::new(alloc),
        }
    }

    /// What the name stands for, if it is bound.
    pub(crate) fn get(&self, name: &[u8]) -> Option<Bound>
        ensures { result ≡ bound_at self.now name.now }
    {
        self.bounds.get(name).copied()
    }

    /// The weak number that the name stands for, if it does.
    pub(crate) fn weak(&self, name: &[u8]) -> Option<Weak>
        ensures { IfSome result (λ w. bound_at self.now name.now ≡ Some (WeakBound w)) }
    {
        match self.bounds.get(name) {
            Some(Bound::Weak(w)) => Some(*w),
            _ => None,
        }
    }

    /// Whether some name stands for a view of the root.
    pub(crate) fn reaches(&self, root: u64) -> bool
        ensures { IsTrue result ↔ IsReached self.now root }
    {
        self.has_view_of(root)
    }

    // Whether one of the values is a view of the root.
    fn has_view_of(&self, root: u64) -> bool
        ensures value { result ≡ list_any (is_of root) (values self.now.bounds) }
        ensures ordered { IsOrdered (λ x y. slice_cmp nat_cmp x.items y.items) self.now.bounds }
    {
        self.bounds.values().any(|bound| bound.is_of(root))
    }

    /// Lets the name stand for this, and gives the root that it stood for a view of, if it did. To
    /// bind a name anew takes no memory.
    ///
    /// # Errors
    /// `AllocError`. Each name then stands for what it stood for.
    pub(crate) fn set(&mut self, name: &[u8], bound: Bound) -> Result<Option<u64>, AllocError>
        ensures set { OnOk result ((w : List ℕ) → bound_at self.new w
            ≡ (if bytes_eq name.now w then Some bound else bound_at self.old w)) }
        ensures old { IfOk result (λ root. root
            ≡ option_and_then viewed_root (bound_at self.old name.now)) }
        ensures same { OnErr result ((w : List ℕ) → bound_at self.new w ≡ bound_at self.old w) }
        ensures known { IsSome (bound_at self.old name.now) → IsOk result }
    {
        if let Some(slot) = self.bounds.get_mut(name) {
            let old = slot.root();
            *slot = bound;
            return Ok(old);
        }
        let key = Vec::from_slice(self.alloc, name)?;
        self.bounds.insert(key, bound)?;
        Ok(None)
    }
}
