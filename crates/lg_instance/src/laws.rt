ghost use Rattle.lg_instance.specs.Laws.{AreFull};

/// Every root has as many numbers as its shape has indices.
#[tactic(auto, using(crate::proofs::Roots::roots_full))]
pub fn full_roots()
    ensures { AreFull }
{}
