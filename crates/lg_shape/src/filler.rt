ghost use Rattle.std.specs.Prelude.{◌≡◌};
ghost use Rattle.lg_shape.specs.declared.step.Step.TheVariants.{Promote};

use crate::step::Step;

// What stands in those places of a list of steps that hold no step.
impl Default for Step {
    ghost is_default = { λ step. step ≡ Promote 0 1 };

    fn default() -> Step {
        Step::Promote { axis: 0, extent: 1 }
    }
}
