//! Copies.
ghost use Rattle.std.specs.Prelude.{◌≡◌, [], ◌∷◌, Err, None, Some, codes, map, negsuc, pos, true};
ghost use Rattle.lg_elem.specs.declared.dtype.DType.TheVariants.{Bool, Int64, Int8, UInt64, UInt8};
ghost use Rattle.lg_tree.specs.Tree.{as_type, broadcast_to, copy, flatten, name, neg, no_shape, number, one, reshape, transpose, truth, zeros};
ghost use Rattle.lg_meaning.specs.declared.fault.FaultKind.TheVariants.{Divisor, Limit, Name, Range, Shape, TypeKind};
ghost use Rattle.lg_meaning.specs.Memory.{writable};
ghost use Rattle.lg_meaning.specs.Value.{plain};
ghost use Rattle.lg_meaning.specs.Examples.{a_vector, an_array, by_zero, fault_of, known, no_quotient, numbers, one_scalar, ones_of, ordered, sizes, tuple_of, value, vector_of};

/// `copy`, `flatten` and `astype`.
pub fn copies_by_example()
    ensures of_scalar { known (copy one_scalar) ≡ an_array Int64 [] writable }
    ensures of_weak { known (copy (truth true)) ≡ an_array Bool [] writable }
    ensures of_read_only { known (copy (broadcast_to (ones_of 1 Int8) (one (number 3))))
        ≡ a_vector Int8 3 }
    ensures same { value (copy (ordered (2 ∷ 2 ∷ [])))
        ≡ plain (2 ∷ 2 ∷ []) (map pos (0 ∷ 1 ∷ 2 ∷ 3 ∷ [])) }
    ensures range { known (copy (number 9223372036854775808)) ≡ Err Range }
    ensures flat { value (flatten (transpose (ordered (2 ∷ 3 ∷ [])) no_shape))
        ≡ plain (6 ∷ []) (map pos (0 ∷ 3 ∷ 1 ∷ 4 ∷ 2 ∷ 5 ∷ [])) }
    ensures flat_number { value (flatten (number 7)) ≡ plain (1 ∷ []) (pos 7 ∷ []) }
    ensures flat_empty { value (flatten (zeros (sizes (2 ∷ 0 ∷ 3 ∷ [])) None)) ≡ plain (0 ∷ []) [] }
    ensures flat_right { known (flatten one_scalar) ≡ a_vector Int64 1 }
    ensures narrowed { value (as_type (vector_of Int64 (pos 300 ∷ negsuc 128 ∷ pos 128 ∷ [])) Int8)
        ≡ plain (3 ∷ []) (pos 44 ∷ pos 127 ∷ negsuc 127 ∷ []) }
    ensures unsigned { numbers (as_type (vector_of Int64 (negsuc 0 ∷ [])) UInt64)
        ≡ pos 18446744073709551615 ∷ [] }
    ensures signed { numbers (as_type (vector_of UInt64
        (map pos (18446744073709551615 ∷ 9223372036854775808 ∷ []))) Int64)
        ≡ negsuc 0 ∷ negsuc 9223372036854775807 ∷ [] }
    ensures truths { numbers (as_type (vector_of Int64 (pos 300 ∷ pos 0 ∷ negsuc 0 ∷ [])) Bool)
        ≡ map pos (1 ∷ 0 ∷ 1 ∷ []) }
    ensures typed { known (as_type (ordered (2 ∷ 3 ∷ [])) UInt8)
        ≡ an_array UInt8 (2 ∷ 3 ∷ []) writable }
    ensures weak_typed { value (as_type (number 300) Int8) ≡ plain [] (pos 44 ∷ []) }
    ensures weak_range { known (as_type (number 18446744073709551615) UInt64) ≡ Err Range }
    ensures part { fault_of (as_type by_zero Bool) ≡ Some Divisor }
    ensures typed_scalar { known (as_type one_scalar Int8) ≡ an_array Int8 [] writable }
    ensures of_truths { numbers (as_type (vector_of Bool (map pos (1 ∷ 0 ∷ []))) Int8)
        ≡ map pos (1 ∷ 0 ∷ []) }
{}

/// `reshape`: the elements in row-major order in another shape, and its faults.
pub fn reshapes_by_example()
    ensures inferred { value (reshape (ordered (2 ∷ 3 ∷ []))
        (tuple_of (number 3 ∷ neg (number 1) ∷ [])))
        ≡ plain (3 ∷ 2 ∷ []) (map pos (0 ∷ 1 ∷ 2 ∷ 3 ∷ 4 ∷ 5 ∷ [])) }
    ensures of_transpose { value (reshape (transpose (ordered (2 ∷ 3 ∷ [])) no_shape)
        (sizes (2 ∷ 3 ∷ []))) ≡ plain (2 ∷ 3 ∷ []) (map pos (0 ∷ 3 ∷ 1 ∷ 4 ∷ 2 ∷ 5 ∷ [])) }
    ensures to_one_axis { known (reshape (ordered (2 ∷ 3 ∷ [])) (one (neg (number 1))))
        ≡ a_vector Int64 6 }
    ensures to_no_axes { known (reshape (ones_of 1 Int8) (sizes [])) ≡ an_array Int8 [] writable }
    ensures of_weak { known (reshape (number 3) (sizes (1 ∷ 1 ∷ 1 ∷ 1 ∷ [])))
        ≡ an_array Int64 (1 ∷ 1 ∷ 1 ∷ 1 ∷ []) writable }
    ensures none_inferred { known (reshape (zeros (one (number 0)) None)
        (tuple_of (neg (number 1) ∷ number 5 ∷ []))) ≡ an_array Int64 (0 ∷ 5 ∷ []) writable }
    ensures one_inferred { known (reshape (ordered (2 ∷ 3 ∷ []))
        (tuple_of (number 6 ∷ neg (number 1) ∷ []))) ≡ an_array Int64 (6 ∷ 1 ∷ []) writable }
    ensures count { known (reshape (ordered (2 ∷ 3 ∷ [])) (sizes (2 ∷ 2 ∷ []))) ≡ Err Shape }
    ensures to_nothing { known (reshape (ones_of 1 Int8) (one (number 0))) ≡ Err Shape }
    ensures undivided { known (reshape (ordered (2 ∷ 3 ∷ []))
        (tuple_of (number 4 ∷ neg (number 1) ∷ []))) ≡ Err Shape }
    ensures by_nothing { known (reshape (zeros (one (number 0)) None)
        (tuple_of (number 0 ∷ neg (number 1) ∷ []))) ≡ Err Shape }
    ensures two_inferred { known (reshape (ordered (2 ∷ 3 ∷ []))
        (tuple_of (neg (number 1) ∷ neg (number 1) ∷ []))) ≡ Err Shape }
    ensures below { known (reshape (ordered (2 ∷ 3 ∷ []))
        (tuple_of (neg (number 2) ∷ number 3 ∷ []))) ≡ Err Shape }
    ensures both_below { known (reshape (ordered (2 ∷ 3 ∷ []))
        (tuple_of (neg (number 2) ∷ neg (number 3) ∷ []))) ≡ Err Shape }
    ensures five_axes { known (reshape (ones_of 1 Int8) (sizes (1 ∷ 1 ∷ 1 ∷ 1 ∷ 1 ∷ [])))
        ≡ Err Shape }
    ensures limit { known (reshape (zeros (one (number 0)) None) (sizes (0 ∷ 16777217 ∷ [])))
        ≡ Err Limit }
    ensures extent_type { known (reshape (number 9223372036854775808) (one (truth true)))
        ≡ Err TypeKind }
    ensures range { known (reshape (number 9223372036854775808) (one (number 7))) ≡ Err Range }
    ensures name_first { known (reshape (name (codes "a")) (one no_quotient)) ≡ Err Name }
{}
