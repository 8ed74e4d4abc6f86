//! Whether what is written meets what the call asks.

ghost use Rattle.std.specs.Prelude.{IsTrue};
ghost use Rattle.lg_shape.specs.Shapes.{whole};
ghost use Rattle.lg_tile.specs.Sections.{Covers};
ghost use Rattle.lg_xform.specs.Chains.{mapped, shape_of};
ghost use Rattle.lg_copy.specs.Leading.{RepeatsNone};

use lg_space::AnyRect;
use lg_xform::Chain;

// Whether no two indices of a rectangle lead to one index of the root.
pub fn repeats_none(chain: &Chain, rect: &AnyRect) -> bool
    requires { Covers (whole (shape_of chain.now)) rect.now }
    ensures { IsTrue result → RepeatsNone (mapped chain.now) rect.now }
{
    for j in 0..rect.volume() {
        let at = chain.map_point(&rect.unravel(j));
        for k in 0..j {
            if chain.map_point(&rect.unravel(k)) == at {
                return false;
            }
        }
    }
    true
}
