ghost use Rattle.std.specs.Prelude.{◌≡◌, ◌↔◌, ℕ, List, map, IfOk, Contains};
ghost use Rattle.std.specs.List.Sorted.{IsStrictlyIncreasing};
ghost use Rattle.lg_store.specs.Views.{roots_of};

use lg_elem::DType;
use lg_outside::NoMemory;
use lg_xform::Chain;
use std::alloc::{AllocError, Global};

/// What a script may do with an array.
#[derive(Clone, Copy, Debug, PartialEq, Eq)]
pub enum Right {
    /// It may be read and written.
    Writable,

    /// It may be read alone.
    ReadOnly,

    /// It is one element, which may be read alone.
    Scalar,
}

/// A view of a root: the root's number and type, and which of its elements the view has.
#[derive(Clone, Copy, Debug)]
pub struct View {
    /// The number of the root.
    pub root: u64,

    /// The type of the elements.
    pub dtype: DType,

    /// Which element of the root each index leads to.
    pub chain: Chain,

    /// What a script may do with it.
    pub right: Right,
}

/// The numbers of the roots that the views are of, upwards, each once.
///
/// # Errors
/// `NoMemory`.
pub fn reachable(alloc: Global, views: &[View]) -> Result<Vec<u64>, NoMemory>
    ensures ascending { IfOk result (λ roots. IsStrictlyIncreasing roots.items) }
    ensures exact { IfOk result (λ roots. (root : ℕ)
        → Contains roots.items root ↔ Contains (roots_of views.now) root) }
{
    let mut roots = root_numbers(alloc, views)?;
    roots.sort_unstable();
    roots.dedup();
    Ok(roots)
}

// The number of each view's root.
fn root_numbers(alloc: Global, views: &[View]) -> Result<Vec<u64>, AllocError>
    ensures { IfOk result (λ roots. roots.items ≡ roots_of views.now) }
{
    views.iter().map(|view| view.root).collect(alloc)
}
