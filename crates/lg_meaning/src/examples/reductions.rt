//! Reductions.
ghost use Rattle.std.specs.Prelude.{◌≡◌, [], ◌∷◌, Err, None, Some, codes, false, map, negsuc, pos, true};
ghost use Rattle.lg_elem.specs.declared.dtype.DType.TheVariants.{Bool, Int64, Int8, UInt64, UInt8};
ghost use Rattle.lg_tree.specs.declared.kinds.Arith.TheVariants.{Add};
ghost use Rattle.lg_tree.specs.declared.kinds.Red.TheVariants.{All, Any, Max, Min, Prod, Sum};
ghost use Rattle.lg_tree.specs.Tree.{arith, name, neg, no_tree, number, one, reduce, some_tree, truth, zeros};
ghost use Rattle.lg_meaning.specs.declared.fault.FaultKind.TheVariants.{Divisor, Index, Limit, Name, Range, Shape, TypeKind};
ghost use Rattle.lg_meaning.specs.Value.{plain};
ghost use Rattle.lg_meaning.specs.Reductions.{reduced_type};
ghost use Rattle.lg_meaning.specs.Examples.{a_scalar, a_vector, array_of, by_zero, grid_of, known, no_quotient, numbers, ones_of, ordered, sizes, types, value, vector_of};

/// Reductions over one axis, and over all.
pub fn reductions_by_example()
    ensures first_axis { value (reduce Sum (ordered (3 ∷ 5 ∷ [])) (some_tree (number 0)))
        ≡ plain (5 ∷ []) (map pos (15 ∷ 18 ∷ 21 ∷ 24 ∷ 27 ∷ [])) }
    ensures last_axis { value (reduce Sum (ordered (3 ∷ 5 ∷ [])) (some_tree (neg (number 1))))
        ≡ plain (3 ∷ []) (map pos (10 ∷ 35 ∷ 60 ∷ [])) }
    ensures whole { value (reduce Sum (ordered (3 ∷ 5 ∷ [])) no_tree) ≡ plain [] (pos 105 ∷ []) }
    ensures four_axes { value (reduce Sum (ordered (2 ∷ 2 ∷ 2 ∷ 2 ∷ [])) (some_tree (number 2)))
        ≡ plain (2 ∷ 2 ∷ 2 ∷ []) (map pos (2 ∷ 4 ∷ 10 ∷ 12 ∷ 18 ∷ 20 ∷ 26 ∷ 28 ∷ [])) }
    ensures products { value (reduce Prod (arith Add (ordered (2 ∷ 3 ∷ [])) (number 1))
        (some_tree (number 1))) ≡ plain (2 ∷ []) (map pos (6 ∷ 120 ∷ [])) }
    ensures least { value (reduce Min (vector_of Int8 (pos 5 ∷ negsuc 127 ∷ pos 3 ∷ [])) no_tree)
        ≡ plain [] (negsuc 127 ∷ []) }
    ensures least_of_columns { numbers (reduce Min (grid_of Int64 (map (map pos)
        ((5 ∷ 1 ∷ []) ∷ (2 ∷ 9 ∷ []) ∷ []))) (some_tree (number 0))) ≡ map pos (2 ∷ 1 ∷ []) }
    ensures greatest_of_rows { numbers (reduce Max (grid_of Int64 (map (map pos)
        ((5 ∷ 1 ∷ []) ∷ (2 ∷ 9 ∷ []) ∷ []))) (some_tree (neg (number 1))))
        ≡ map pos (5 ∷ 9 ∷ []) }
    ensures any { numbers (reduce Any (grid_of Int64 ((pos 0 ∷ pos 0 ∷ []) ∷ (pos 0 ∷ negsuc 2 ∷ [])
        ∷ [])) (some_tree (number 0))) ≡ map pos (0 ∷ 1 ∷ []) }
    ensures all { numbers (reduce All (ordered (2 ∷ 2 ∷ [])) (some_tree (neg (number 1))))
        ≡ map pos (0 ∷ 1 ∷ []) }
    ensures truths { value (reduce Sum (array_of (truth true ∷ truth true ∷ truth false ∷ []) Bool)
        no_tree) ≡ plain [] (pos 2 ∷ []) }
    ensures wide { numbers (reduce Sum (vector_of Int8 (map pos (100 ∷ 100 ∷ []))) no_tree)
        ≡ pos 200 ∷ [] }
    ensures wide_unsigned { numbers (reduce Prod (vector_of UInt8 (map pos (255 ∷ 255 ∷ [])))
        no_tree) ≡ pos 65025 ∷ [] }
    ensures wrapped { numbers (reduce Sum (vector_of Int64 (map pos (9223372036854775807 ∷ 1 ∷ [])))
        no_tree) ≡ negsuc 9223372036854775807 ∷ [] }
    ensures wrapped_unsigned { numbers (reduce Sum
        (vector_of UInt64 (map pos (18446744073709551615 ∷ 2 ∷ []))) no_tree) ≡ pos 1 ∷ [] }
    ensures wrapped_product { numbers (reduce Prod
        (vector_of Int64 (map pos (4611686018427387904 ∷ 2 ∷ []))) no_tree)
        ≡ negsuc 9223372036854775807 ∷ [] }
    ensures of_weak { value (reduce Sum (number 3) no_tree) ≡ plain [] (pos 3 ∷ []) }
    ensures part { value (reduce Sum by_zero no_tree)
        ≡ record { shape = []; numbers = pos 0 ∷ []; fault = Some Divisor } }
    ensures greatest_unsigned { numbers
        (reduce Max (vector_of UInt64 (map pos (1 ∷ 18446744073709551615 ∷ []))) no_tree)
        ≡ pos 18446744073709551615 ∷ [] }
    ensures least_truth { numbers (reduce Min (vector_of Bool (map pos (1 ∷ 0 ∷ []))) no_tree)
        ≡ pos 0 ∷ [] }
    ensures any_weak { value (reduce Any (number 7) no_tree) ≡ plain [] (pos 1 ∷ []) }
    ensures alternating { numbers (reduce Prod
        (vector_of Int8 (negsuc 127 ∷ negsuc 127 ∷ pos 2 ∷ [])) no_tree) ≡ pos 32768 ∷ [] }
{}

/// Reductions of nothing: sum 0, product 1, no truth value that is set, none that isn't. It has no
/// least and no greatest number, which is a fault only where one is asked for.
pub fn empty_reductions_by_example()
    ensures sum { value (reduce Sum (zeros (one (number 0)) None) no_tree)
        ≡ plain [] (pos 0 ∷ []) }
    ensures sums { value (reduce Sum (zeros (sizes (2 ∷ 0 ∷ [])) None) (some_tree (number 1)))
        ≡ plain (2 ∷ []) (map pos (0 ∷ 0 ∷ [])) }
    ensures products { value (reduce Prod (zeros (sizes (0 ∷ 2 ∷ [])) None) (some_tree (number 0)))
        ≡ plain (2 ∷ []) (map pos (1 ∷ 1 ∷ [])) }
    ensures no_sums { value (reduce Sum (zeros (sizes (0 ∷ 2 ∷ [])) None) (some_tree (number 1)))
        ≡ plain (0 ∷ []) [] }
    ensures any { numbers (reduce Any (zeros (one (number 0)) None) no_tree) ≡ pos 0 ∷ [] }
    ensures all { numbers (reduce All (zeros (one (number 0)) None) no_tree) ≡ pos 1 ∷ [] }
    ensures least { known (reduce Min (zeros (one (number 0)) None) no_tree) ≡ Err Shape }
    ensures greatest { known (reduce Max (zeros (sizes (0 ∷ 3 ∷ [])) None) (some_tree (number 0)))
        ≡ Err Shape }
    ensures none_asked { value (reduce Min (zeros (sizes (0 ∷ 3 ∷ [])) None) (some_tree (number 1)))
        ≡ plain (0 ∷ []) [] }
    ensures none_left { value (reduce Max (zeros (sizes (2 ∷ 0 ∷ [])) None) (some_tree (number 0)))
        ≡ plain (0 ∷ []) [] }
    ensures axis_first { known (reduce Max (zeros (sizes (0 ∷ 2 ∷ [])) None) (some_tree (number 5)))
        ≡ Err Index }
    ensures before_limit { known (reduce Min (zeros (sizes (0 ∷ 5000 ∷ 5000 ∷ [])) None)
        (some_tree (number 0))) ≡ Err Shape }
    ensures limit { known (reduce Sum (zeros (sizes (0 ∷ 5000 ∷ 5000 ∷ [])) None)
        (some_tree (number 0))) ≡ Err Limit }
{}

/// Types and faults of reductions.
pub fn reduction_kinds_by_example()
    ensures sum_signed { known (reduce Sum (ones_of 2 Int8) no_tree) ≡ a_scalar Int64 }
    ensures sum_unsigned { known (reduce Sum (ones_of 2 UInt8) no_tree) ≡ a_scalar UInt64 }
    ensures product_bool { known (reduce Prod (ones_of 2 Bool) no_tree) ≡ a_scalar Int64 }
    ensures least { known (reduce Min (ones_of 2 UInt8) no_tree) ≡ a_scalar UInt8 }
    ensures greatest_bool { known (reduce Max (ones_of 2 Bool) no_tree) ≡ a_scalar Bool }
    ensures any { known (reduce Any (ones_of 2 Int64) (some_tree (number 0))) ≡ a_scalar Bool }
    ensures with_axes { known (reduce All (ordered (2 ∷ 3 ∷ [])) (some_tree (number 0)))
        ≡ a_vector Bool 3 }
    ensures weak_truth_value { known (reduce Sum (truth true) no_tree) ≡ a_scalar Int64 }
    ensures above { known (reduce Sum (ordered (2 ∷ 3 ∷ [])) (some_tree (number 2))) ≡ Err Index }
    ensures below { known (reduce Sum (ordered (2 ∷ 3 ∷ [])) (some_tree (neg (number 3))))
        ≡ Err Index }
    ensures no_axes { known (reduce Sum (number 3) (some_tree (number 0))) ≡ Err Index }
    ensures axis_type { known (reduce Sum (number 9223372036854775808) (some_tree (truth false)))
        ≡ Err TypeKind }
    ensures range { known (reduce Any (number 18446744073709551615) (some_tree (number 5)))
        ≡ Err Range }
    ensures operand_first { known (reduce Sum (name (codes "a")) (some_tree no_quotient))
        ≡ Err Name }
    ensures axis_name { known (reduce Sum (number 9223372036854775808)
        (some_tree (name (codes "a")))) ≡ Err Name }
{}

/// The type of each reduction of each type.
pub fn reduced_types_by_example()
    ensures sums { map (reduced_type Sum) types
        ≡ Int64 ∷ Int64 ∷ Int64 ∷ Int64 ∷ Int64 ∷ UInt64 ∷ UInt64 ∷ UInt64 ∷ UInt64 ∷ [] }
    ensures products { map (reduced_type Prod) types
        ≡ Int64 ∷ Int64 ∷ Int64 ∷ Int64 ∷ Int64 ∷ UInt64 ∷ UInt64 ∷ UInt64 ∷ UInt64 ∷ [] }
    ensures least { map (reduced_type Min) types ≡ types }
    ensures greatest { map (reduced_type Max) types ≡ types }
    ensures any { map (reduced_type Any) types
        ≡ Bool ∷ Bool ∷ Bool ∷ Bool ∷ Bool ∷ Bool ∷ Bool ∷ Bool ∷ Bool ∷ [] }
    ensures all { map (reduced_type All) types
        ≡ Bool ∷ Bool ∷ Bool ∷ Bool ∷ Bool ∷ Bool ∷ Bool ∷ Bool ∷ Bool ∷ [] }
{}
