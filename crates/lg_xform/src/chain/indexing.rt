ghost use Rattle.std.specs.Prelude.{◌≡◌, ◌<◌, ◌^◌, length, IfOk};
ghost use Rattle.std.specs.Result.{result_err};
ghost use Rattle.lg_shape.specs.Indexing.{index_fault, indexed};

use super::Chain;
use lg_shape::{IndexFault, IndexItem, apply_index};
use std::alloc::Global;

impl Chain {
    ghost use Rattle.lg_xform.specs.Chains.{root_of, shape_of, inner_of, layout_of, IsUnsplit};
    ghost use Rattle.lg_xform.specs.Footprints.{IsDense};

    /// The view that an index picks of a view of which no axis was split, or the first fault of the
    /// index (NumPy's reference, "Indexing on ndarrays"). It takes no memory.
    pub fn index(&self, alloc: Global, items: &[IndexItem]) -> Result<Chain, IndexFault>
        requires few { length items.now < 2 ^ 32 }
        requires unsplit { IsUnsplit (inner_of self.now) }
        ensures fault { result_err result ≡ index_fault (shape_of self.now) items.now }
        ensures layout { IfOk result (λ view.
            layout_of view ≡ indexed (layout_of self.now) items.now) }
        ensures root { IfOk result (λ view. root_of view ≡ root_of self.now) }
        ensures unsplit { IfOk result (λ view. IsUnsplit (inner_of view)) }
        ensures dense { IfOk result (λ view. IsDense self.now → IsDense view) }
    {
        let steps = apply_index(alloc, &self.shape(), items)?;
        Ok(self.apply_all(steps.as_slice()))
    }
}
