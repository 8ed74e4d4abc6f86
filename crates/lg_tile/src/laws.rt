ghost use Rattle.lg_tile.specs.Laws.{AreFull};

/// Every tile has as many numbers as its rectangle has indices.
#[tactic(auto, using(crate::proofs::NumberLemmas::numbers_full))]
pub fn full_tiles()
    ensures { AreFull }
{}
