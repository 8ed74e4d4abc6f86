//! Worked examples of the tiling rule. Each clause is computed by the check, so a rule that cuts
//! otherwise is refused. They are worked out by hand from the rule's words at `colors`.
ghost use Rattle.std.specs.Prelude.{◌≡◌, [], ◌∷◌, length, slice_get, Some, true, false};
ghost use Rattle.lg_shape.specs.Tiling.{tiles};

/// One axis: the last part may be shorter, and no more parts are made than reach the end.
pub fn one_axis_by_example()
    ensures shorter { tiles 3 (10 ∷ []) [] ≡ ((0, 4) ∷ []) ∷ ((4, 8) ∷ []) ∷ ((8, 10) ∷ []) ∷ [] }
    ensures single { length (tiles 28 (28 ∷ []) []) ≡ 28 }
    ensures fewer { length (tiles 64 (100 ∷ []) []) ≡ 50 }
    ensures last { slice_get (tiles 64 (100 ∷ []) []) 49 ≡ Some ((98, 100) ∷ []) }
    ensures whole { tiles 64 (10 ∷ []) (true ∷ []) ≡ ((0, 10) ∷ []) ∷ [] }
    ensures empty { tiles 4 (0 ∷ []) [] ≡ ((0, 0) ∷ []) ∷ [] }
{}

/// Several axes or none: what an axis takes of the pieces is not there for the axes behind it.
pub fn axes_by_example()
    ensures rows { tiles 4 (2 ∷ 3 ∷ []) [] ≡ ((0, 1) ∷ (0, 2) ∷ []) ∷ ((0, 1) ∷ (2, 3) ∷ [])
        ∷ ((1, 2) ∷ (0, 2) ∷ []) ∷ ((1, 2) ∷ (2, 3) ∷ []) ∷ [] }
    ensures single { length (tiles 64 (3 ∷ 5 ∷ []) []) ≡ 15 }
    ensures last { slice_get (tiles 64 (3 ∷ 5 ∷ []) []) 14 ≡ Some ((2, 3) ∷ (4, 5) ∷ []) }
    ensures whole_between { tiles 4 (2 ∷ 5 ∷ 2 ∷ []) (false ∷ true ∷ [])
        ≡ ((0, 1) ∷ (0, 5) ∷ (0, 1) ∷ []) ∷ ((0, 1) ∷ (0, 5) ∷ (1, 2) ∷ [])
        ∷ ((1, 2) ∷ (0, 5) ∷ (0, 1) ∷ [])
        ∷ ((1, 2) ∷ (0, 5) ∷ (1, 2) ∷ []) ∷ [] }
    ensures empty { tiles 3 (0 ∷ 4 ∷ []) [] ≡ ((0, 0) ∷ (0, 2) ∷ []) ∷ ((0, 0) ∷ (2, 4) ∷ []) ∷ [] }
    ensures none { tiles 3 [] [] ≡ [] ∷ [] }
{}
