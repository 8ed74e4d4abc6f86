//! Operators, comparisons and `where`.
ghost use Rattle.std.specs.Prelude.{◌≡◌, [], ◌∷◌, Err, None, Some, false, map, negsuc, pos, true};
ghost use Rattle.lg_elem.specs.declared.dtype.DType.TheVariants.{Bool, Int16, Int64, Int8, UInt64, UInt8};
ghost use Rattle.lg_elem.specs.declared.kinds.Compare.TheVariants.{Eq, Ge, Gt, Le, Lt, Ne};
ghost use Rattle.lg_tree.specs.declared.kinds.Arith.TheVariants.{Add, BitAnd, BitOr, BitXor, FloorDiv, Mul, Pow, Rem, Shl, Shr, Sub};
ghost use Rattle.lg_tree.specs.Tree.{abs, arith, array, choose, compare, invert, list, maximum, minimum, neg, number, one, truth, zeros};
ghost use Rattle.lg_meaning.specs.declared.fault.FaultKind.TheVariants.{Divisor, Limit, Power, Range, Shape, TypeKind};
ghost use Rattle.lg_meaning.specs.Value.{plain};
ghost use Rattle.lg_meaning.specs.Expressions.{static_of};
ghost use Rattle.lg_meaning.specs.Run.{start};
ghost use Rattle.lg_meaning.specs.Examples.{a_scalar, a_vector, array_of, by_zero, entries, fault_of, grid_of, known, leaves, literal, numbers, one_scalar, ones_of, sizes, to_below, value, vector_of};

/// The types of operations on arrays and weak numbers.
pub fn types_by_example()
    ensures stays { static_of (arith Add (ones_of 2 Int8) (number 100)) start.names
        ≡ a_vector Int8 2 }
    ensures range { static_of (arith Add (ones_of 2 Int8) (number 128)) start.names ≡ Err Range }
    ensures bool { static_of (arith Add (ones_of 2 Bool) (number 100)) start.names
        ≡ a_vector Int64 2 }
    ensures bool_range { static_of
        (arith Add (number 9223372036854775808) (ones_of 2 Bool)) start.names ≡ Err Range }
    ensures truth { static_of (arith Add (ones_of 2 UInt8) (truth true)) start.names
        ≡ a_vector UInt8 2 }
    ensures mixed { static_of (arith Mul (ones_of 2 UInt8) (ones_of 2 Int8)) start.names
        ≡ a_vector Int16 2 }
    ensures none { static_of (arith Add (ones_of 2 UInt64) (ones_of 2 Int8)) start.names
        ≡ Err TypeKind }
    ensures no_difference { static_of (arith Sub (ones_of 2 Bool) (truth true)) start.names
        ≡ Err TypeKind }
    ensures compared { static_of (compare Lt (ones_of 2 UInt64) (neg (number 1))) start.names
        ≡ a_vector Bool 2 }
    ensures no_negative { static_of (neg (ones_of 2 Bool)) start.names ≡ Err TypeKind }
    ensures inverted { static_of (invert (truth true)) start.names ≡ a_scalar Bool }
    ensures absolute { static_of (abs (number 9223372036854775808)) start.names ≡ Err Range }
    ensures lesser { static_of (minimum (number 1) (number 2)) start.names ≡ a_scalar Int64 }
    ensures chosen { static_of (choose (number 18446744073709551615) (ones_of 2 Int8) (number 3))
        start.names ≡ a_vector Int8 2 }
    ensures chosen_weak { static_of (choose (number 18446744073709551615) (number 1) (number 3))
        start.names ≡ Err Range }
    ensures chosen_types { static_of (choose (ones_of 2 Int8) (truth true) (number 3))
        start.names ≡ a_vector Int64 2 }
    ensures scalar_is_typed { known (arith Add (ones_of 2 Int8) one_scalar) ≡ a_vector Int64 2 }
    ensures below_unsigned { known (arith Add (ones_of 2 UInt8) (neg (number 1))) ≡ Err Range }
    ensures range_left { known (arith Sub (number 200) (ones_of 2 Int8)) ≡ Err Range }
    ensures truths { known (arith Add (ones_of 2 Bool) (truth true)) ≡ a_vector Bool 2 }
    ensures bool_power { known (arith Pow (ones_of 2 Bool) (number 2)) ≡ a_vector Int64 2 }
    ensures less_bool { known (arith Sub (ones_of 2 Int8) (ones_of 2 Bool)) ≡ a_vector Int8 2 }
    ensures unsigned_negative { known (neg (ones_of 2 UInt8)) ≡ a_vector UInt8 2 }
    ensures absolute_bool { known (abs (ones_of 2 Bool)) ≡ a_vector Bool 2 }
    ensures compared_left { known (compare Lt (number 300) (ones_of 2 Int8)) ≡ a_vector Bool 2 }
    ensures compared_shape { known (compare Eq (ones_of 2 Int8) (ones_of 3 Int8)) ≡ Err Shape }
{}

/// `where` by the kinds of its condition and of what it takes.
pub fn conditions_by_example()
    ensures weak_two { known (choose (ones_of 2 Bool) (number 1) (truth true)) ≡ a_vector Int64 2 }
    ensures weak_truths { known (choose (ones_of 2 Int8) (truth true) (truth false))
        ≡ a_vector Bool 2 }
    ensures weak_range { known (choose (ones_of 2 Bool) (number 18446744073709551615) (number 1))
        ≡ Err Range }
    ensures chosen_bool { known (choose (ones_of 2 Bool) (ones_of 2 Bool) (number 300))
        ≡ a_vector Int64 2 }
    ensures chosen_right { known (choose (number 18446744073709551615) (number 1)
        (ones_of 2 Int8)) ≡ a_vector Int8 2 }
    ensures chosen_scalar { known (choose (number 1) (number 2) (truth true)) ≡ a_scalar Int64 }
    ensures chosen_ca { known (choose (ones_of 2 Bool) (ones_of 3 Int8) (number 1)) ≡ Err Shape }
    ensures chosen_cb { known (choose (ones_of 2 Bool) (number 1) (ones_of 3 Int8)) ≡ Err Shape }
    ensures chosen_ab { known (choose (number 1) (ones_of 2 Int8) (ones_of 3 Int8)) ≡ Err Shape }
    ensures chosen_type { known (choose (ones_of 2 Bool) (ones_of 3 UInt64) (ones_of 2 Int8))
        ≡ Err TypeKind }
    ensures limit { known (choose (zeros (sizes (4097 ∷ 1 ∷ [])) None)
        (zeros (one (number 4096)) None) (number 1)) ≡ Err Limit }
    ensures by_great { numbers (choose (number 18446744073709551615) (ones_of 1 Int8) (number 3))
        ≡ pos 1 ∷ [] }
    ensures by_false { numbers (choose (truth false) (ones_of 1 Int8) (number 3)) ≡ pos 3 ∷ [] }
    ensures by_rows { value (choose (grid_of Int64 ((pos 0 ∷ []) ∷ (negsuc 0 ∷ []) ∷ []))
        (vector_of Int8 (map pos (1 ∷ 2 ∷ []))) (number 9))
        ≡ plain (2 ∷ 2 ∷ []) (map pos (9 ∷ 9 ∷ 1 ∷ 2 ∷ [])) }
    ensures range_of_taken { known (choose (ones_of 2 Bool) (ones_of 3 UInt8) (number 256))
        ≡ Err Range }
{}

/// The numbers of operations, and the first fault of their elements.
pub fn values_by_example()
    ensures wrapped { numbers (arith Add (array_of (number 100 ∷ number 27 ∷ []) Int8) (number 100))
        ≡ negsuc 55 ∷ pos 127 ∷ [] }
    ensures floor { numbers (arith FloorDiv (array_of (neg (number 7) ∷ number 7 ∷ []) Int64)
        (number 2)) ≡ negsuc 3 ∷ pos 3 ∷ [] }
    ensures constant_left { numbers (arith Sub (number 10) (array_of (number 3 ∷ []) Int8))
        ≡ pos 7 ∷ [] }
    ensures divisor { value (arith FloorDiv (number 6) (array_of (number 2 ∷ number 0 ∷ []) Int8))
        ≡ record { shape = 2 ∷ []; numbers = pos 3 ∷ pos 0 ∷ []; fault = Some Divisor } }
    ensures power { value (arith Pow (ones_of 1 Int8) (array_of (neg (number 1) ∷ []) Int8))
        ≡ record { shape = 1 ∷ []; numbers = pos 0 ∷ []; fault = Some Power } }
    ensures first { (value (arith Add
        (arith Pow (ones_of 1 Int8) (array_of (neg (number 1) ∷ []) Int8))
        (arith Rem (ones_of 1 Int8) (array_of (number 0 ∷ []) Int8)))).fault ≡ Some Power }
    ensures empty { value (arith Rem (zeros (one (number 0)) None) (zeros (one (number 1)) None))
        ≡ record { shape = 0 ∷ []; numbers = []; fault = None } }
    ensures compared { numbers (compare Lt (array_of (number 255 ∷ []) UInt8)
        (array_of (neg (number 1) ∷ []) Int8)) ≡ pos 0 ∷ [] }
    ensures compared_weak { numbers (compare Eq (array_of (number 1 ∷ number 2 ∷ []) UInt8)
        (truth true)) ≡ pos 1 ∷ pos 0 ∷ [] }
    ensures inverted { numbers (invert (array_of (number 5 ∷ []) UInt8)) ≡ pos 250 ∷ [] }
    ensures absolute { numbers (abs (array_of (neg (number 128) ∷ neg (number 3) ∷ []) Int8))
        ≡ negsuc 127 ∷ pos 3 ∷ [] }
    ensures lesser { numbers (minimum (array_of (truth true ∷ truth false ∷ []) Bool) (truth true))
        ≡ pos 1 ∷ pos 0 ∷ [] }
    ensures greater { numbers (maximum (array_of (number 1 ∷ number 9 ∷ []) Int8) (number 5))
        ≡ pos 5 ∷ pos 9 ∷ [] }
    ensures chosen { numbers (choose (array_of (number 0 ∷ number 3 ∷ []) Int64)
        (array_of (number 1 ∷ number 2 ∷ []) Int8) (array_of (number 7 ∷ number 8 ∷ []) Int16))
        ≡ pos 7 ∷ pos 2 ∷ [] }
    ensures by_rows { numbers (arith Add (array (list (entries (list (leaves (number 1 ∷ []))
        ∷ list (leaves (number 2 ∷ [])) ∷ []))) None)
        (array_of (number 10 ∷ number 20 ∷ []) Int64))
        ≡ pos 11 ∷ pos 21 ∷ pos 12 ∷ pos 22 ∷ [] }
    ensures promoted { numbers (arith Add (array_of (neg (number 1) ∷ []) Int8)
        (array_of (number 255 ∷ []) UInt8)) ≡ pos 254 ∷ [] }
    ensures unsigned_negative { numbers (neg (ones_of 1 UInt8)) ≡ pos 255 ∷ [] }
    ensures left_part { fault_of (arith Rem to_below (number 0)) ≡ Some Power }
    ensures right_part { fault_of (arith FloorDiv (ones_of 1 Int8) to_below) ≡ Some Power }
    ensures compared_part { fault_of (compare Lt by_zero (number 1)) ≡ Some Divisor }
    ensures negative_part { fault_of (neg by_zero) ≡ Some Divisor }
    ensures not_taken { fault_of (choose (ones_of 1 Bool) (ones_of 1 Int8) by_zero)
        ≡ Some Divisor }
    ensures chosen_order { fault_of (choose to_below by_zero (number 1)) ≡ Some Power }
    ensures emptied { fault_of (arith Add by_zero (zeros (one (number 0)) (Some Int8)))
        ≡ Some Divisor }
    ensures empty_by_weak { fault_of (arith FloorDiv (zeros (one (number 0)) None) (number 0))
        ≡ None }
{}

/// Each operator on numbers of a type, also at the edges of the type.
pub fn operators_by_example()
    ensures sums { numbers (arith Add (vector_of Int8 (pos 7 ∷ negsuc 6 ∷ [])) (number 2)) ≡ pos 9
        ∷ negsuc 4 ∷ [] }
    ensures differences { numbers (arith Sub (vector_of Int8 (pos 7 ∷ negsuc 6 ∷ [])) (number 2))
        ≡ pos 5 ∷ negsuc 8 ∷ [] }
    ensures products { numbers (arith Mul (vector_of Int8 (pos 7 ∷ negsuc 6 ∷ [])) (number 2))
        ≡ pos 14 ∷ negsuc 13 ∷ [] }
    ensures quotients { numbers (arith FloorDiv (vector_of Int8 (pos 7 ∷ negsuc 6 ∷ [])) (number 2))
        ≡ pos 3 ∷ negsuc 3 ∷ [] }
    ensures rests { numbers (arith Rem (vector_of Int8 (pos 7 ∷ negsuc 6 ∷ [])) (number 2)) ≡ pos 1
        ∷ pos 1 ∷ [] }
    ensures powers { numbers (arith Pow (vector_of Int8 (pos 7 ∷ negsuc 6 ∷ [])) (number 2))
        ≡ pos 49 ∷ pos 49 ∷ [] }
    ensures ands { numbers (arith BitAnd (vector_of Int8 (pos 7 ∷ negsuc 6 ∷ [])) (number 2))
        ≡ pos 2 ∷ pos 0 ∷ [] }
    ensures ors { numbers (arith BitOr (vector_of Int8 (pos 7 ∷ negsuc 6 ∷ [])) (number 2)) ≡ pos 7
        ∷ negsuc 4 ∷ [] }
    ensures exclusive { numbers (arith BitXor (vector_of Int8 (pos 7 ∷ negsuc 6 ∷ [])) (number 2))
        ≡ pos 5 ∷ negsuc 4 ∷ [] }
    ensures left { numbers (arith Shl (vector_of Int8 (pos 7 ∷ negsuc 6 ∷ [])) (number 2)) ≡ pos 28
        ∷ negsuc 27 ∷ [] }
    ensures right { numbers (arith Shr (vector_of Int8 (pos 7 ∷ negsuc 6 ∷ [])) (number 2)) ≡ pos 1
        ∷ negsuc 1 ∷ [] }
    ensures by_below { numbers (arith FloorDiv (vector_of Int8 (pos 7 ∷ negsuc 6 ∷ []))
        (literal (negsuc 1))) ≡ negsuc 3 ∷ pos 3 ∷ [] }
    ensures rest_by_below { numbers (arith Rem (vector_of Int8 (pos 7 ∷ negsuc 6 ∷ []))
        (literal (negsuc 1))) ≡ negsuc 0 ∷ negsuc 0 ∷ [] }
    ensures least_by_below { value (arith FloorDiv (vector_of Int8 (negsuc 127 ∷ []))
        (neg (number 1))) ≡ plain (1 ∷ []) (negsuc 127 ∷ []) }
    ensures wrapped_power { numbers (arith Pow (vector_of Int8 (pos 3 ∷ [])) (number 5)) ≡ negsuc 12
        ∷ [] }
    ensures to_zero { value (arith Pow (vector_of Int8 (map pos (0 ∷ 5 ∷ []))) (number 0))
        ≡ plain (2 ∷ []) (map pos (1 ∷ 1 ∷ [])) }
    ensures far_left { numbers (arith Shl (ones_of 4 Int8)
        (vector_of Int8 (pos 6 ∷ pos 7 ∷ pos 8 ∷ negsuc 0 ∷ []))) ≡ pos 64 ∷ negsuc 127 ∷ pos 0
        ∷ pos 0 ∷ [] }
    ensures far_right { numbers (arith Shr
        (vector_of Int8 (pos 127 ∷ pos 127 ∷ negsuc 7 ∷ negsuc 7 ∷ []))
        (vector_of Int8 (pos 6 ∷ pos 8 ∷ pos 8 ∷ negsuc 0 ∷ []))) ≡ pos 1 ∷ pos 0 ∷ negsuc 0
        ∷ negsuc 0 ∷ [] }
    ensures unsigned_right { numbers
        (arith Shr (vector_of UInt64 (map pos (18446744073709551615 ∷ []))) (number 63)) ≡ pos 1
        ∷ [] }
    ensures unsigned_sum { numbers (arith Add (vector_of UInt64 (pos 18446744073709551615 ∷ []))
        (number 2)) ≡ pos 1 ∷ [] }
{}

/// Each operator on truth values.
pub fn truths_by_example()
    ensures sums { numbers (arith Add (vector_of Bool (map pos (1 ∷ 1 ∷ 0 ∷ 0 ∷ [])))
        (vector_of Bool (map pos (1 ∷ 0 ∷ 1 ∷ 0 ∷ [])))) ≡ map pos (1 ∷ 1 ∷ 1 ∷ 0 ∷ []) }
    ensures products { numbers (arith Mul (vector_of Bool (map pos (1 ∷ 1 ∷ 0 ∷ 0 ∷ [])))
        (vector_of Bool (map pos (1 ∷ 0 ∷ 1 ∷ 0 ∷ [])))) ≡ map pos (1 ∷ 0 ∷ 0 ∷ 0 ∷ []) }
    ensures ands { numbers (arith BitAnd (vector_of Bool (map pos (1 ∷ 1 ∷ 0 ∷ 0 ∷ [])))
        (vector_of Bool (map pos (1 ∷ 0 ∷ 1 ∷ 0 ∷ [])))) ≡ map pos (1 ∷ 0 ∷ 0 ∷ 0 ∷ []) }
    ensures ors { numbers (arith BitOr (vector_of Bool (map pos (1 ∷ 1 ∷ 0 ∷ 0 ∷ [])))
        (vector_of Bool (map pos (1 ∷ 0 ∷ 1 ∷ 0 ∷ [])))) ≡ map pos (1 ∷ 1 ∷ 1 ∷ 0 ∷ []) }
    ensures exclusive { numbers (arith BitXor (vector_of Bool (map pos (1 ∷ 1 ∷ 0 ∷ 0 ∷ [])))
        (vector_of Bool (map pos (1 ∷ 0 ∷ 1 ∷ 0 ∷ [])))) ≡ map pos (0 ∷ 1 ∷ 1 ∷ 0 ∷ []) }
    ensures lesser { numbers (minimum (vector_of Bool (map pos (1 ∷ 1 ∷ 0 ∷ 0 ∷ [])))
        (vector_of Bool (map pos (1 ∷ 0 ∷ 1 ∷ 0 ∷ [])))) ≡ map pos (1 ∷ 0 ∷ 0 ∷ 0 ∷ []) }
    ensures greater { numbers (maximum (vector_of Bool (map pos (1 ∷ 1 ∷ 0 ∷ 0 ∷ [])))
        (vector_of Bool (map pos (1 ∷ 0 ∷ 1 ∷ 0 ∷ [])))) ≡ map pos (1 ∷ 1 ∷ 1 ∷ 0 ∷ []) }
    ensures below { numbers (compare Lt (vector_of Bool (map pos (1 ∷ 1 ∷ 0 ∷ 0 ∷ [])))
        (vector_of Bool (map pos (1 ∷ 0 ∷ 1 ∷ 0 ∷ [])))) ≡ map pos (0 ∷ 0 ∷ 1 ∷ 0 ∷ []) }
    ensures no_differences { known (arith Sub (ones_of 2 Bool) (ones_of 2 Bool)) ≡ Err TypeKind }
    ensures no_quotients { known (arith FloorDiv (ones_of 2 Bool) (ones_of 2 Bool)) ≡ Err TypeKind }
    ensures no_rests { known (arith Rem (ones_of 2 Bool) (ones_of 2 Bool)) ≡ Err TypeKind }
    ensures no_powers { known (arith Pow (ones_of 2 Bool) (ones_of 2 Bool)) ≡ Err TypeKind }
    ensures no_left { known (arith Shl (ones_of 2 Bool) (ones_of 2 Bool)) ≡ Err TypeKind }
    ensures no_right { known (arith Shr (ones_of 2 Bool) (ones_of 2 Bool)) ≡ Err TypeKind }
    ensures inverted { numbers (invert (vector_of Bool (map pos (1 ∷ 0 ∷ []))))
        ≡ map pos (0 ∷ 1 ∷ []) }
    ensures absolute { numbers (abs (vector_of Bool (map pos (1 ∷ 0 ∷ []))))
        ≡ map pos (1 ∷ 0 ∷ []) }
{}

/// Each comparison, by whole numbers, and its faults.
pub fn comparisons_by_example()
    ensures equal { numbers (compare Eq (vector_of Int8 (map pos (1 ∷ 2 ∷ 3 ∷ []))) (number 2))
        ≡ map pos (0 ∷ 1 ∷ 0 ∷ []) }
    ensures not_equal { numbers (compare Ne (vector_of Int8 (map pos (1 ∷ 2 ∷ 3 ∷ []))) (number 2))
        ≡ map pos (1 ∷ 0 ∷ 1 ∷ []) }
    ensures less { numbers (compare Lt (vector_of Int8 (map pos (1 ∷ 2 ∷ 3 ∷ []))) (number 2))
        ≡ map pos (1 ∷ 0 ∷ 0 ∷ []) }
    ensures at_most { numbers (compare Le (vector_of Int8 (map pos (1 ∷ 2 ∷ 3 ∷ []))) (number 2))
        ≡ map pos (1 ∷ 1 ∷ 0 ∷ []) }
    ensures greater { numbers (compare Gt (vector_of Int8 (map pos (1 ∷ 2 ∷ 3 ∷ []))) (number 2))
        ≡ map pos (0 ∷ 0 ∷ 1 ∷ []) }
    ensures at_least { numbers (compare Ge (vector_of Int8 (map pos (1 ∷ 2 ∷ 3 ∷ []))) (number 2))
        ≡ map pos (0 ∷ 1 ∷ 1 ∷ []) }
    ensures great_and_below { numbers
        (compare Gt (vector_of UInt64 (pos 18446744073709551615 ∷ []))
        (vector_of Int64 (negsuc 0 ∷ []))) ≡ pos 1 ∷ [] }
    ensures out_of_range { numbers (compare Lt (ones_of 1 Int8) (number 18446744073709551615))
        ≡ pos 1 ∷ [] }
    ensures no_axes { known (compare Eq one_scalar (number 1)) ≡ a_scalar Bool }
    ensures of_nothing { value (compare Eq (zeros (one (number 0)) None) (ones_of 1 Int8))
        ≡ plain (0 ∷ []) [] }
    ensures limit { known (compare Eq (zeros (sizes (4097 ∷ 1 ∷ [])) None)
        (zeros (one (number 4096)) None)) ≡ Err Limit }
{}
