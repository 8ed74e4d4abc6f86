//! `@`.
ghost use Rattle.std.specs.Prelude.{◌≡◌, [], ◌∷◌, Err, None, Some, codes, map, negsuc, pos, true};
ghost use Rattle.lg_elem.specs.declared.dtype.DType.TheVariants.{Bool, Int16, Int64, Int8, UInt64, UInt8};
ghost use Rattle.lg_tree.specs.Tree.{matmul, name, no_shape, number, one, transpose, truth, zeros};
ghost use Rattle.lg_meaning.specs.declared.fault.FaultKind.TheVariants.{Divisor, Limit, Name, Power, Range, Shape, TypeKind};
ghost use Rattle.lg_meaning.specs.Value.{plain};
ghost use Rattle.lg_meaning.specs.Examples.{a_scalar, a_vector, by_zero, fault_of, grid_of, known, no_quotient, numbers, one_scalar, ones_of, ordered, sizes, to_below, value, vector_of};

/// Sums of products.
pub fn products_by_example()
    ensures square { value (matmul (ordered (2 ∷ 3 ∷ []))
        (transpose (ordered (2 ∷ 3 ∷ [])) no_shape))
        ≡ plain (2 ∷ 2 ∷ []) (map pos (5 ∷ 14 ∷ 14 ∷ 50 ∷ [])) }
    ensures by_vector { value (matmul (ordered (2 ∷ 3 ∷ []))
        (vector_of Int64 (map pos (1 ∷ 0 ∷ 2 ∷ [])))) ≡ plain (2 ∷ []) (map pos (4 ∷ 13 ∷ [])) }
    ensures of_vector { value (matmul (vector_of Int64 (map pos (1 ∷ 2 ∷ [])))
        (ordered (2 ∷ 3 ∷ []))) ≡ plain (3 ∷ []) (map pos (6 ∷ 9 ∷ 12 ∷ [])) }
    ensures vectors { value (matmul (vector_of Int64 (map pos (1 ∷ 2 ∷ [])))
        (vector_of Int64 (map pos (3 ∷ 4 ∷ [])))) ≡ plain [] (pos 11 ∷ []) }
    ensures wrapped { value (matmul (grid_of Int8 (map (map pos) ((100 ∷ 100 ∷ []) ∷ [])))
        (grid_of Int8 (map (map pos) ((1 ∷ []) ∷ (1 ∷ []) ∷ []))))
        ≡ plain (1 ∷ 1 ∷ []) (negsuc 55 ∷ []) }
    ensures truths { value (matmul (grid_of Bool (map (map pos) ((1 ∷ 0 ∷ []) ∷ (0 ∷ 0 ∷ []) ∷ [])))
        (grid_of Bool (map (map pos) ((1 ∷ 1 ∷ []) ∷ (1 ∷ 0 ∷ []) ∷ []))))
        ≡ plain (2 ∷ 2 ∷ []) (map pos (1 ∷ 1 ∷ 0 ∷ 0 ∷ [])) }
    ensures or_of_ands { numbers (matmul (ones_of 2 Bool) (ones_of 2 Bool)) ≡ pos 1 ∷ [] }
    ensures unsigned { numbers (matmul (vector_of UInt64 (pos 18446744073709551615 ∷ []))
        (vector_of UInt64 (pos 2 ∷ []))) ≡ pos 18446744073709551614 ∷ [] }
    ensures promoted { numbers (matmul (vector_of UInt8 (pos 200 ∷ []))
        (vector_of Int8 (negsuc 0 ∷ []))) ≡ negsuc 199 ∷ [] }
    ensures of_nothing { value (matmul (zeros (sizes (2 ∷ 0 ∷ [])) None)
        (zeros (sizes (0 ∷ 3 ∷ [])) None))
        ≡ plain (2 ∷ 3 ∷ []) (map pos (0 ∷ 0 ∷ 0 ∷ 0 ∷ 0 ∷ 0 ∷ [])) }
    ensures empty_vectors { value (matmul (zeros (one (number 0)) None)
        (zeros (one (number 0)) None)) ≡ plain [] (pos 0 ∷ []) }
    ensures no_rows { value (matmul (zeros (sizes (0 ∷ 2 ∷ [])) None) (ordered (2 ∷ 2 ∷ [])))
        ≡ plain (0 ∷ 2 ∷ []) [] }
    ensures part { fault_of (matmul to_below by_zero) ≡ Some Power }
{}

/// Types and faults of `@`.
pub fn product_kinds_by_example()
    ensures mixed { known (matmul (ordered (2 ∷ 3 ∷ [])) (ones_of 3 UInt8)) ≡ a_vector Int64 2 }
    ensures mixed_small { known (matmul (ones_of 2 UInt8) (ones_of 2 Int8)) ≡ a_scalar Int16 }
    ensures truths { known (matmul (ones_of 2 Bool) (ones_of 2 Bool)) ≡ a_scalar Bool }
    ensures apart { known (matmul (ones_of 2 UInt64) (ones_of 3 Int8)) ≡ Err TypeKind }
    ensures by_weak { known (matmul (ones_of 2 Int8) (number 1)) ≡ Err Shape }
    ensures range { known (matmul (ones_of 2 Int8) (number 300)) ≡ Err Range }
    ensures both_weak { known (matmul (number 9223372036854775808) (number 1)) ≡ Err Range }
    ensures weak_pair { known (matmul (number 1) (truth true)) ≡ Err Shape }
    ensures scalar_operand { known (matmul one_scalar (ones_of 1 Int8)) ≡ Err Shape }
    ensures inner { known (matmul (ordered (2 ∷ 3 ∷ [])) (ordered (2 ∷ 3 ∷ []))) ≡ Err Shape }
    ensures no_spread { known (matmul (ordered (2 ∷ 3 ∷ [])) (ones_of 1 Int64)) ≡ Err Shape }
    ensures three_axes { known (matmul (ordered (1 ∷ 2 ∷ 3 ∷ [])) (ones_of 3 Int64)) ≡ Err Shape }
    ensures limit { known (matmul (zeros (sizes (5000 ∷ 0 ∷ [])) None)
        (zeros (sizes (0 ∷ 5000 ∷ [])) None)) ≡ Err Limit }
    ensures left_first { known (matmul no_quotient (name (codes "a"))) ≡ Err Divisor }
    ensures type_before_shape { known (matmul (ordered (1 ∷ 2 ∷ 3 ∷ [])) (ones_of 3 UInt64))
        ≡ Err TypeKind }
    ensures vector_inner { known (matmul (ones_of 2 Int8) (ones_of 3 Int8)) ≡ Err Shape }
    ensures matrix_vector { known (matmul (ordered (2 ∷ 3 ∷ [])) (ones_of 2 Int8)) ≡ Err Shape }
    ensures vector_matrix { known (matmul (ones_of 3 Int8) (ordered (2 ∷ 3 ∷ []))) ≡ Err Shape }
    ensures by_three_axes { known (matmul (ones_of 1 Int64) (ordered (1 ∷ 2 ∷ 3 ∷ [])))
        ≡ Err Shape }
    ensures right_first { known (matmul (name (codes "a")) no_quotient) ≡ Err Name }
{}
