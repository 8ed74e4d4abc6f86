ghost use Rattle.std.specs.Prelude.{◌≡◌, Some};
ghost use Rattle.lg_shape.specs.Shapes.{joined_shape};
ghost use Rattle.lg_xform.specs.Repeats.{repeated};

use super::{Chain, FREE};
use crate::axis::ViewAxis;
use lg_shape::Shape;

impl Chain {
    ghost use Rattle.lg_xform.specs.Chains.{root_of, shape_of, inner_of, layout_of, IsUnsplit};

    /// The view repeated to a shape that it broadcasts to (NumPy's reference, "numpy.broadcast_to").
    pub fn broadcast(&self, to: &Shape) -> Chain
        requires { joined_shape (shape_of self.now) to.now ≡ Some to.now }
        ensures root { root_of result ≡ root_of self.now }
        ensures shape { shape_of result ≡ to.now }
        ensures layout { layout_of result ≡ repeated to.now (layout_of self.now) }
        ensures unsplit { IsUnsplit (inner_of self.now) → IsUnsplit (inner_of result) }
    {
        let extents = to.extents();
        // The view's axes are the last ones.
        let ahead = extents.len() - self.count;
        let mut axes = [FREE; 4];
        for k in 0..extents.len() {
            // An axis that moves nothing stands for a missing one, and for one of extent 1 that is
            // repeated: that one has its only coordinate at its lowest place.
            axes[k] = match k.checked_sub(ahead) {
                Some(old) if self.axes[old].extent == extents[k] => self.axes[old],
                _ => ViewAxis {
                    extent: extents[k],
                    ..FREE
                },
            };
        }
        Chain {
            root: self.root,
            from: self.from,
            count: extents.len(),
            axes,
        }
    }
}
