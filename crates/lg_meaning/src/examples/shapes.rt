//! Shapes, and numbers that are wrapped.
ghost use Rattle.std.specs.Prelude.{◌≡◌, [], ◌∷◌, None, Some, negsuc, pos};
ghost use Rattle.lg_elem.specs.declared.dtype.DType.TheVariants.{Bool, Int64, Int8, UInt8};
ghost use Rattle.lg_elem.specs.Types.{wrap};
ghost use Rattle.lg_shape.specs.Shapes.{broadcast, joined_shape, place_of, places};

/// Indices in row-major order, and their places.
pub fn places_by_example()
    ensures two_axes { places (2 ∷ 2 ∷ []) ≡ (0 ∷ 0 ∷ []) ∷ (0 ∷ 1 ∷ []) ∷ (1 ∷ 0 ∷ [])
        ∷ (1 ∷ 1 ∷ []) ∷ [] }
    ensures no_axes { places [] ≡ [] ∷ [] }
    ensures none { places (2 ∷ 0 ∷ []) ≡ [] }
    ensures place { place_of (2 ∷ 3 ∷ 4 ∷ []) (1 ∷ 2 ∷ 3 ∷ []) ≡ 23 }
{}

/// Which shapes go together, and what they make of a value.
pub fn broadcasting_by_example()
    ensures joined { joined_shape (8 ∷ 1 ∷ 6 ∷ 1 ∷ []) (7 ∷ 1 ∷ 5 ∷ [])
        ≡ Some (8 ∷ 7 ∷ 6 ∷ 5 ∷ []) }
    ensures apart { joined_shape (2 ∷ 1 ∷ []) (8 ∷ 4 ∷ 3 ∷ []) ≡ None }
    ensures scalar { joined_shape [] (3 ∷ []) ≡ Some (3 ∷ []) }
    ensures empty { joined_shape (1 ∷ []) (0 ∷ []) ≡ Some (0 ∷ []) }
    ensures column { broadcast (2 ∷ 1 ∷ []) (pos 1 ∷ pos 2 ∷ []) (2 ∷ 3 ∷ [])
        ≡ pos 1 ∷ pos 1 ∷ pos 1 ∷ pos 2 ∷ pos 2 ∷ pos 2 ∷ [] }
    ensures row { broadcast (3 ∷ []) (pos 1 ∷ pos 2 ∷ pos 3 ∷ []) (2 ∷ 3 ∷ [])
        ≡ pos 1 ∷ pos 2 ∷ pos 3 ∷ pos 1 ∷ pos 2 ∷ pos 3 ∷ [] }
    ensures one { broadcast [] (pos 7 ∷ []) (2 ∷ []) ≡ pos 7 ∷ pos 7 ∷ [] }
{}

/// Numbers that don't fit their type.
pub fn wrapping_by_example()
    ensures below { wrap Int8 (pos 200) ≡ negsuc 55 }
    ensures least { wrap Int8 (pos 128) ≡ negsuc 127 }
    ensures fits { wrap Int8 (negsuc 127) ≡ negsuc 127 }
    ensures above { wrap UInt8 (negsuc 0) ≡ pos 255 }
    ensures end { wrap Int64 (pos 9223372036854775808) ≡ negsuc 9223372036854775807 }
    ensures truth { wrap Bool (negsuc 4) ≡ pos 1 }
{}
