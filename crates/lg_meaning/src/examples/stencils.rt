//! `stencil`.
ghost use Rattle.std.specs.Prelude.{◌≡◌, [], ◌∷◌, Err, None, Some, codes, false, map, negsuc, pos, true};
ghost use Rattle.lg_elem.specs.declared.dtype.DType.TheVariants.{Bool, Int64, Int8, UInt64, UInt8};
ghost use Rattle.lg_tree.specs.Tree.{list, name, number, one, stencil, truth, zeros};
ghost use Rattle.lg_meaning.specs.declared.fault.FaultKind.TheVariants.{Divisor, Name, Range, Shape, TypeKind};
ghost use Rattle.lg_meaning.specs.Value.{plain};
ghost use Rattle.lg_meaning.specs.Examples.{a_vector, by_zero, entries, fault_of, known, leaves, no_quotient, numbers, one_scalar, ones_of, ordered, row_of, rows_of, value, vector_of};

/// Weighted sums of what lies around each element.
pub fn stencils_by_example()
    ensures sums { value (stencil (vector_of Int64 (map pos (1 ∷ 2 ∷ 3 ∷ [])))
        (row_of (map pos (1 ∷ 1 ∷ 1 ∷ [])))) ≡ plain (3 ∷ []) (map pos (3 ∷ 6 ∷ 5 ∷ [])) }
    ensures behind { numbers (stencil (vector_of Int64 (map pos (1 ∷ 2 ∷ 3 ∷ [])))
        (row_of (map pos (0 ∷ 1 ∷ 2 ∷ [])))) ≡ map pos (5 ∷ 8 ∷ 3 ∷ []) }
    ensures wider { numbers (stencil (vector_of Int64 (map pos (1 ∷ 2 ∷ [])))
        (row_of (map pos (1 ∷ 2 ∷ 3 ∷ 4 ∷ 5 ∷ [])))) ≡ map pos (11 ∷ 8 ∷ []) }
    ensures block { value (stencil (ordered (3 ∷ 3 ∷ [])) (rows_of (map (map pos)
        ((1 ∷ 1 ∷ 1 ∷ []) ∷ (1 ∷ 1 ∷ 1 ∷ []) ∷ (1 ∷ 1 ∷ 1 ∷ []) ∷ []))))
        ≡ plain (3 ∷ 3 ∷ []) (map pos (8 ∷ 15 ∷ 12 ∷ 21 ∷ 36 ∷ 27 ∷ 20 ∷ 33 ∷ 24 ∷ [])) }
    ensures upwards { numbers (stencil (ordered (2 ∷ 3 ∷ [])) (rows_of (map (map pos)
        ((1 ∷ []) ∷ (2 ∷ []) ∷ (4 ∷ []) ∷ [])))) ≡ map pos (12 ∷ 18 ∷ 24 ∷ 6 ∷ 9 ∷ 12 ∷ []) }
    ensures sideways { numbers (stencil (ordered (2 ∷ 3 ∷ [])) (rows_of (map (map pos)
        ((1 ∷ 10 ∷ 100 ∷ []) ∷ [])))) ≡ map pos (100 ∷ 210 ∷ 21 ∷ 430 ∷ 543 ∷ 54 ∷ []) }
    ensures wrapped { numbers (stencil (vector_of Int8 (map pos (100 ∷ 100 ∷ [])))
        (row_of (map pos (1 ∷ 1 ∷ 1 ∷ [])))) ≡ negsuc 55 ∷ negsuc 55 ∷ [] }
    ensures truths { numbers (stencil (vector_of Int64 (map pos (1 ∷ 2 ∷ 3 ∷ [])))
        (list (leaves (truth true ∷ number 1 ∷ truth false ∷ [])))) ≡ map pos (1 ∷ 3 ∷ 5 ∷ []) }
    ensures empty { value (stencil (zeros (one (number 0)) None) (row_of (pos 7 ∷ [])))
        ≡ plain (0 ∷ []) [] }
    ensures part { fault_of (stencil by_zero (row_of (pos 0 ∷ []))) ≡ Some Divisor }
    ensures three_axes { value (stencil (ordered (2 ∷ 1 ∷ 2 ∷ []))
        (list (entries (rows_of ((pos 1 ∷ pos 0 ∷ pos 0 ∷ []) ∷ [])
        ∷ rows_of ((pos 0 ∷ pos 1 ∷ pos 10 ∷ []) ∷ [])
        ∷ rows_of ((pos 0 ∷ pos 100 ∷ pos 0 ∷ []) ∷ []) ∷ []))))
        ≡ plain (2 ∷ 1 ∷ 2 ∷ []) (map pos (210 ∷ 301 ∷ 32 ∷ 3 ∷ [])) }
    ensures unsigned { numbers (stencil (vector_of UInt64 (map pos (18446744073709551615 ∷ 1 ∷ [])))
        (row_of (map pos (1 ∷ 2 ∷ 0 ∷ [])))) ≡ map pos (18446744073709551614 ∷ 1 ∷ []) }
    ensures not_narrowed { numbers (stencil (vector_of Int64 (map pos (3000000000 ∷ 1 ∷ [])))
        (row_of (map pos (0 ∷ 2 ∷ 1 ∷ [])))) ≡ map pos (6000000001 ∷ 2 ∷ []) }
    ensures below { numbers (stencil (vector_of Int8 (negsuc 127 ∷ pos 1 ∷ []))
        (row_of (pos 0 ∷ negsuc 0 ∷ pos 0 ∷ []))) ≡ negsuc 127 ∷ negsuc 0 ∷ [] }
{}

/// Types and faults of `stencil`.
pub fn stencil_kinds_by_example()
    ensures type_and_right { known (stencil (ones_of 2 UInt8) (row_of (pos 255 ∷ [])))
        ≡ a_vector UInt8 2 }
    ensures of_bool { known (stencil (ones_of 2 Bool) (row_of (pos 1 ∷ pos 1 ∷ [])))
        ≡ Err TypeKind }
    ensures of_truth { known (stencil (truth true) (row_of (pos 1 ∷ []))) ≡ Err TypeKind }
    ensures weight_type { known (stencil (ones_of 2 Int8) (list (leaves (number 300 ∷ one_scalar
        ∷ [])))) ≡ Err TypeKind }
    ensures weight_name { known (stencil (ones_of 2 Bool) (list (leaves (name (codes "a") ∷ []))))
        ≡ Err Name }
    ensures weight_range { known (stencil (ones_of 2 Int8) (row_of (map pos (128 ∷ 1 ∷ []))))
        ≡ Err Range }
    ensures range { known (stencil (number 9223372036854775808) (row_of (pos 1 ∷ [])))
        ≡ Err Range }
    ensures no_axes { known (stencil (number 3) (row_of (pos 1 ∷ []))) ≡ Err Shape }
    ensures even { known (stencil (ones_of 2 Int8) (row_of (map pos (1 ∷ 1 ∷ [])))) ≡ Err Shape }
    ensures none { known (stencil (ones_of 2 Int8) (row_of [])) ≡ Err Shape }
    ensures deeper { known (stencil (ones_of 2 Int8) (rows_of ((pos 1 ∷ []) ∷ []))) ≡ Err Shape }
    ensures flatter { known (stencil (ordered (2 ∷ 3 ∷ [])) (row_of (pos 1 ∷ []))) ≡ Err Shape }
    ensures unequal { known (stencil (ordered (2 ∷ 3 ∷ []))
        (rows_of ((pos 1 ∷ []) ∷ [] ∷ (pos 1 ∷ []) ∷ []))) ≡ Err Shape }
    ensures type_before_range { known
        (stencil (number 9223372036854775808) (list (leaves (one_scalar ∷ [])))) ≡ Err TypeKind }
    ensures range_before_unequal { known
        (stencil (ones_of 2 Int8) (rows_of (map (map pos) ((300 ∷ []) ∷ (1 ∷ 2 ∷ []) ∷ []))))
        ≡ Err Range }
    ensures range_before_even { known (stencil (ones_of 2 UInt8) (row_of (pos 1 ∷ negsuc 0 ∷ [])))
        ≡ Err Range }
    ensures array_before_weights { known
        (stencil (name (codes "a")) (list (leaves (no_quotient ∷ [])))) ≡ Err Name }
    ensures array_first { known (stencil no_quotient (list (leaves (name (codes "a") ∷ []))))
        ≡ Err Divisor }
{}
