//! `take`.
ghost use Rattle.std.specs.Prelude.{◌≡◌, [], ◌∷◌, Err, None, Some, codes, map, negsuc, pos, true};
ghost use Rattle.lg_elem.specs.declared.dtype.DType.TheVariants.{Bool, Int64, Int8, UInt64, UInt8};
ghost use Rattle.lg_tree.specs.declared.kinds.Arith.TheVariants.{Mul};
ghost use Rattle.lg_tree.specs.Tree.{arith, name, neg, no_tree, number, one, ones, some_tree, take, truth, zeros};
ghost use Rattle.lg_meaning.specs.declared.fault.FaultKind.TheVariants.{Divisor, Index, Limit, Name, Power, Range, Shape, TypeKind};
ghost use Rattle.lg_meaning.specs.Memory.{writable};
ghost use Rattle.lg_meaning.specs.Value.{plain};
ghost use Rattle.lg_meaning.specs.Examples.{a_scalar, an_array, by_zero, counted_to, fault_of, grid_of, known, no_quotient, numbers, ones_of, ordered, sizes, to_below, value, vector_of};

/// The elements that `take` takes.
pub fn takes_by_example()
    ensures columns { value (take (ordered (3 ∷ 4 ∷ [])) (vector_of Int64 (pos 2 ∷ negsuc 3 ∷ []))
        (some_tree (number 1)))
        ≡ plain (3 ∷ 2 ∷ []) (map pos (2 ∷ 0 ∷ 6 ∷ 4 ∷ 10 ∷ 8 ∷ [])) }
    ensures row { value (take (ordered (3 ∷ 4 ∷ [])) (vector_of UInt8 (pos 1 ∷ []))
        (some_tree (neg (number 2)))) ≡ plain (1 ∷ 4 ∷ []) (map pos (4 ∷ 5 ∷ 6 ∷ 7 ∷ [])) }
    ensures no_axis { value (take (ordered (3 ∷ 4 ∷ [])) (vector_of Int8 (pos 5 ∷ negsuc 0 ∷ []))
        no_tree) ≡ plain (2 ∷ []) (map pos (5 ∷ 11 ∷ [])) }
    ensures grid { value (take (arith Mul (counted_to 4) (number 10))
        (grid_of Int64 ((pos 0 ∷ pos 1 ∷ []) ∷ (negsuc 0 ∷ pos 2 ∷ []) ∷ [])) no_tree)
        ≡ plain (2 ∷ 2 ∷ []) (map pos (0 ∷ 10 ∷ 30 ∷ 20 ∷ [])) }
    ensures middle { value (take (ordered (2 ∷ 2 ∷ 2 ∷ [])) (vector_of Int64 (map pos (1 ∷ 0 ∷ [])))
        (some_tree (number 1)))
        ≡ plain (2 ∷ 2 ∷ 2 ∷ []) (map pos (2 ∷ 3 ∷ 0 ∷ 1 ∷ 6 ∷ 7 ∷ 4 ∷ 5 ∷ [])) }
    ensures four_axes { value (take (ordered (2 ∷ 2 ∷ 2 ∷ []))
        (grid_of Int64 ((pos 1 ∷ []) ∷ (pos 0 ∷ []) ∷ [])) (some_tree (number 2)))
        ≡ plain (2 ∷ 2 ∷ 2 ∷ 1 ∷ []) (map pos (1 ∷ 0 ∷ 3 ∷ 2 ∷ 5 ∷ 4 ∷ 7 ∷ 6 ∷ [])) }
    ensures by_weak { value (take (counted_to 4) (number 2) no_tree) ≡ plain [] (pos 2 ∷ []) }
    ensures row_by_weak { value (take (ordered (3 ∷ 4 ∷ [])) (neg (number 1))
        (some_tree (number 0))) ≡ plain (4 ∷ []) (map pos (8 ∷ 9 ∷ 10 ∷ 11 ∷ [])) }
    ensures of_weak { value (take (number 3) (number 0) no_tree) ≡ plain [] (pos 3 ∷ []) }
    ensures unsigned { numbers (take (vector_of UInt64 (map pos (18446744073709551615 ∷ 1 ∷ [])))
        (vector_of UInt64 (map pos (0 ∷ 0 ∷ []))) no_tree)
        ≡ map pos (18446744073709551615 ∷ 18446744073709551615 ∷ []) }
    ensures no_index { value (take (zeros (one (number 0)) None) (vector_of Int64 []) no_tree)
        ≡ plain (0 ∷ []) [] }
    ensures truths { value (take (vector_of Bool (map pos (1 ∷ 0 ∷ [])))
        (vector_of Int8 (pos 1 ∷ negsuc 1 ∷ [])) no_tree) ≡ plain (2 ∷ []) (map pos (0 ∷ 1 ∷ [])) }
{}

/// Indices that are out of range: a fault of the elements, where the result has one.
pub fn takes_out_of_range_by_example()
    ensures above { value (take (counted_to 4) (vector_of Int64 (map pos (3 ∷ 4 ∷ []))) no_tree)
        ≡ record { shape = 2 ∷ []; numbers = pos 3 ∷ pos 0 ∷ []; fault = Some Index } }
    ensures below { fault_of (take (counted_to 4) (vector_of Int64 (negsuc 4 ∷ [])) no_tree)
        ≡ Some Index }
    ensures least { fault_of (take (counted_to 4) (vector_of Int64 (negsuc 3 ∷ [])) no_tree)
        ≡ None }
    ensures great { fault_of (take (counted_to 4) (vector_of UInt64 (pos 18446744073709551615 ∷ []))
        no_tree) ≡ Some Index }
    ensures of_nothing { value (take (zeros (one (number 0)) None) (vector_of Int64 (pos 0 ∷ []))
        no_tree) ≡ record { shape = 1 ∷ []; numbers = pos 0 ∷ []; fault = Some Index } }
    ensures none_asked { value (take (zeros (sizes (2 ∷ 0 ∷ [])) None)
        (vector_of Int64 (pos 5 ∷ [])) (some_tree (number 0))) ≡ plain (1 ∷ 0 ∷ []) [] }
    ensures no_axis { value (take (zeros (sizes (0 ∷ 2 ∷ [])) None) (vector_of Int64 (pos 0 ∷ []))
        (some_tree (number 0)))
        ≡ record { shape = 1 ∷ 2 ∷ []; numbers = map pos (0 ∷ 0 ∷ []); fault = Some Index } }
    ensures array_first { fault_of (take by_zero (vector_of Int64 (pos 9 ∷ [])) no_tree)
        ≡ Some Divisor }
    ensures indices_first { fault_of (take (zeros (one (number 0)) None) to_below no_tree)
        ≡ Some Power }
    ensures zero_there { value (take (vector_of UInt8 (map pos (7 ∷ 8 ∷ [])))
        (vector_of Int8 (pos 5 ∷ pos 1 ∷ negsuc 2 ∷ [])) no_tree)
        ≡ record { shape = 3 ∷ []; numbers = map pos (0 ∷ 8 ∷ 0 ∷ []); fault = Some Index } }
    ensures row_of_zeros { value (take (vector_of Int8 (map pos (7 ∷ 8 ∷ [])))
        (grid_of Int8 ((pos 1 ∷ []) ∷ (pos 2 ∷ []) ∷ [])) (some_tree (number 0)))
        ≡ record { shape = 2 ∷ 1 ∷ []; numbers = map pos (8 ∷ 0 ∷ []); fault = Some Index } }
{}

/// Types and faults of `take`.
pub fn take_kinds_by_example()
    ensures type_and_shape { known (take (ones (sizes (2 ∷ 3 ∷ [])) (Some Int8))
        (ordered (2 ∷ 2 ∷ [])) (some_tree (number 0))) ≡ an_array Int8 (2 ∷ 2 ∷ 3 ∷ []) writable }
    ensures element { known (take (ones_of 3 UInt8) (number 0) no_tree) ≡ a_scalar UInt8 }
    ensures by_bool { known (take (ones_of 3 Int8) (ones_of 2 Bool) (some_tree (number 7)))
        ≡ Err TypeKind }
    ensures by_truth { known (take (ones_of 3 Int8) (truth true) no_tree) ≡ Err TypeKind }
    ensures axis_type { known (take (number 9223372036854775808) (number 0)
        (some_tree (truth true))) ≡ Err TypeKind }
    ensures name_first { known (take (ones_of 3 Int8) (ones_of 2 Bool)
        (some_tree (name (codes "a")))) ≡ Err Name }
    ensures range { known (take (ones_of 3 Int8) (number 9223372036854775808)
        (some_tree (number 7))) ≡ Err Range }
    ensures axis { known (take (ones_of 3 Int8) (number 0) (some_tree (number 1))) ≡ Err Index }
    ensures no_axes { known (take (number 3) (number 0) (some_tree (number 0))) ≡ Err Index }
    ensures five_axes { known (take (ones (sizes (1 ∷ 1 ∷ 1 ∷ [])) None)
        (ones (sizes (1 ∷ 1 ∷ 1 ∷ [])) None) (some_tree (number 0))) ≡ Err Shape }
    ensures axis_before_axes { known (take (ones (sizes (1 ∷ 1 ∷ 1 ∷ [])) None)
        (ones (sizes (1 ∷ 1 ∷ 1 ∷ [])) None) (some_tree (number 3))) ≡ Err Index }
    ensures limit { known (take (zeros (sizes (1 ∷ 5000 ∷ [])) None)
        (zeros (one (number 5000)) None) (some_tree (number 0))) ≡ Err Limit }
    ensures type_before_range { known (take (number 9223372036854775808) (truth true) no_tree)
        ≡ Err TypeKind }
    ensures range_before_axis { known
        (take (number 9223372036854775808) (number 0) (some_tree (number 7))) ≡ Err Range }
    ensures axes_before_limit { known
        (take (zeros (sizes (1 ∷ 5000 ∷ 1 ∷ [])) None) (zeros (sizes (5000 ∷ 1 ∷ 1 ∷ [])) None)
        (some_tree (number 0))) ≡ Err Shape }
    ensures array_before_indices { known (take (name (codes "a")) no_quotient no_tree) ≡ Err Name }
    ensures array_first { known (take no_quotient (name (codes "a")) no_tree) ≡ Err Divisor }
    ensures indices_before_axis { known
        (take (ones_of 3 Int8) (name (codes "a")) (some_tree no_quotient)) ≡ Err Name }
    ensures indices_first { known (take (ones_of 3 Int8) no_quotient (some_tree (name (codes "a"))))
        ≡ Err Divisor }
{}
