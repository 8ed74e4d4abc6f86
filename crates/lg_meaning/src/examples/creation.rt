//! Arrays that are made.
ghost use Rattle.std.specs.Prelude.{◌≡◌, [], ◌∷◌, Err, None, Some, codes, false, map, negsuc, pos, true};
ghost use Rattle.lg_elem.specs.declared.dtype.DType.TheVariants.{Bool, Int64, Int8, UInt64, UInt8};
ghost use Rattle.lg_tree.specs.Tree.{arange, array, full, leaf, list, name, neg, no_tree, number, one, ones, some_tree, truth, zeros};
ghost use Rattle.lg_meaning.specs.declared.fault.FaultKind.TheVariants.{Divisor, Limit, Name, Range, Shape, TypeKind};
ghost use Rattle.lg_meaning.specs.Memory.{writable};
ghost use Rattle.lg_meaning.specs.Value.{plain};
ghost use Rattle.lg_meaning.specs.Expressions.{static_of};
ghost use Rattle.lg_meaning.specs.Run.{start};
ghost use Rattle.lg_meaning.specs.Examples.{a_vector, an_array, array_of, entries, known, leaves, no_quotient, numbers, one_scalar, ones_of, rows_of, sizes, tuple_of, value, vector_of};

/// Arrays that are made.
pub fn making_by_example()
    ensures full { value (full (one (number 2)) (number 9) None)
        ≡ record { shape = 2 ∷ []; numbers = pos 9 ∷ pos 9 ∷ []; fault = None } }
    ensures full_truth { static_of (full (one (number 2)) (truth true) None) start.names
        ≡ a_vector Bool 2 }
    ensures full_bool { numbers (full (one (number 2)) (number 5) (Some Bool))
        ≡ pos 1 ∷ pos 1 ∷ [] }
    ensures zeros { value (zeros (one (number 1)) (Some Int8))
        ≡ record { shape = 1 ∷ []; numbers = pos 0 ∷ []; fault = None } }
    ensures ones { static_of (ones (one (number 3)) None) start.names ≡ a_vector Int64 3 }
    ensures counted { numbers (arange no_tree (number 3) None) ≡ pos 0 ∷ pos 1 ∷ pos 2 ∷ [] }
    ensures counted_from { numbers (arange (some_tree (neg (number 1))) (number 1) (Some Int8))
        ≡ negsuc 0 ∷ pos 0 ∷ [] }
    ensures counted_none { static_of (arange (some_tree (number 300)) (number 5) (Some Int8))
        start.names ≡ a_vector Int8 0 }
    ensures counted_range { static_of (arange no_tree (number 129) (Some Int8)) start.names
        ≡ Err Range }
    ensures counted_most { static_of (arange no_tree (number 128) (Some Int8)) start.names
        ≡ a_vector Int8 128 }
    ensures counted_bool { static_of (arange no_tree (number 1) (Some Bool)) start.names
        ≡ Err TypeKind }
    ensures list { value (array (list (leaves (number 1 ∷ truth true ∷ []))) None)
        ≡ record { shape = 2 ∷ []; numbers = pos 1 ∷ pos 1 ∷ []; fault = None } }
    ensures list_type { static_of (array (list (leaves (number 1 ∷ truth true ∷ []))) None)
        start.names ≡ a_vector Int64 2 }
    ensures list_bool { static_of (array (list (leaves (truth false ∷ []))) None) start.names
        ≡ a_vector Bool 1 }
    ensures list_empty { static_of (array (list (leaves [])) None) start.names
        ≡ a_vector Int64 0 }
    ensures list_array { static_of (array (list (leaves (ones_of 1 Int8 ∷ []))) None) start.names
        ≡ Err TypeKind }
    ensures list_range { static_of (array_of (number 256 ∷ []) UInt8) start.names ≡ Err Range }
    ensures nested { (value (array (list (entries (list (leaves (number 1 ∷ number 2 ∷ []))
        ∷ list (leaves (number 3 ∷ number 4 ∷ [])) ∷ []))) None)).shape ≡ 2 ∷ 2 ∷ [] }
    ensures unequal { static_of (array (list (entries (list (leaves (number 1 ∷ []))
        ∷ list (leaves []) ∷ []))) None) start.names ≡ Err Shape }
    ensures full_range { known (full (one (number 1)) (number 9223372036854775808) None)
        ≡ Err Range }
    ensures full_scalar { known (full (one (number 1)) one_scalar None) ≡ Err TypeKind }
    ensures counted_truth { known (arange no_tree (truth true) None) ≡ Err TypeKind }
    ensures counted_first { known (arange (some_tree (neg (number 129))) (number 5) (Some Int8))
        ≡ Err Range }
    ensures counted_order { known (arange no_tree (number 16777217) (Some Int8)) ≡ Err Range }
    ensures counted_limit { known (arange no_tree (number 16777217) None) ≡ Err Limit }
    ensures counted_below { known (arange no_tree (neg (number 3)) None) ≡ a_vector Int64 0 }
    ensures counted_no_bool { known (arange no_tree (neg (number 3)) (Some Bool))
        ≡ Err TypeKind }
{}

/// Lists of numbers and of lists.
pub fn lists_by_example()
    ensures truth_then_number { known (array (list (leaves (truth true ∷ number 1 ∷ []))) None)
        ≡ a_vector Int64 2 }
    ensures second { known (array_of (number 1 ∷ number 256 ∷ []) UInt8) ≡ Err Range }
    ensures untyped { known (array (list (leaves (number 9223372036854775808 ∷ []))) None)
        ≡ Err Range }
    ensures to_bool { numbers (array_of (number 5 ∷ number 0 ∷ []) Bool) ≡ pos 1 ∷ pos 0 ∷ [] }
    ensures a_scalar_in { known (array (list (leaves (one_scalar ∷ []))) None) ≡ Err TypeKind }
    ensures order { known (array (list (entries (list (leaves (number 1 ∷ []))
        ∷ list (leaves (number 300 ∷ number 2 ∷ [])) ∷ []))) (Some Int8)) ≡ Err Range }
    ensures mixed { known (array (list (entries (leaf (number 1)
        ∷ list (leaves (number 2 ∷ [])) ∷ []))) None) ≡ Err Shape }
    ensures rows { (value (array (list (entries (list (leaves []) ∷ list (leaves []) ∷ [])))
        None)).shape ≡ 2 ∷ 0 ∷ [] }
    ensures deep { known (array (list (entries (list (entries (list (entries (list (entries
        (list (leaves []) ∷ [])) ∷ [])) ∷ [])) ∷ []))) None) ≡ Err Shape }
    ensures four_deep { known (array
        (list (entries (list (entries (list (entries (list (leaves (truth true ∷ [])) ∷ [])) ∷ []))
        ∷ []))) None) ≡ an_array Bool (1 ∷ 1 ∷ 1 ∷ 1 ∷ []) writable }
    ensures range_before_deep { known
        (array (list (entries (list (entries
        (list (entries (list (entries (list (leaves (number 300 ∷ [])) ∷ [])) ∷ [])) ∷ [])) ∷ [])))
        (Some Int8)) ≡ Err Range }
    ensures deeper_second { known (array
        (list (entries (list (leaves (number 1 ∷ []))
        ∷ list (entries (list (leaves (number 1 ∷ [])) ∷ [])) ∷ []))) None) ≡ Err Shape }
{}

/// Arrays of several axes, and of none.
pub fn axes_by_example()
    ensures two { known (zeros (sizes (2 ∷ 0 ∷ [])) None) ≡ an_array Int64 (2 ∷ 0 ∷ []) writable }
    ensures four { value (ones (sizes (1 ∷ 1 ∷ 1 ∷ 1 ∷ [])) (Some Int8))
        ≡ plain (1 ∷ 1 ∷ 1 ∷ 1 ∷ []) (pos 1 ∷ []) }
    ensures none { known (full (sizes []) (number 7) None) ≡ an_array Int64 [] writable }
    ensures none_value { value (full (sizes []) (number 7) None) ≡ plain [] (pos 7 ∷ []) }
    ensures five { known (zeros (sizes (1 ∷ 1 ∷ 1 ∷ 1 ∷ 1 ∷ [])) None) ≡ Err Shape }
    ensures below { known (zeros (tuple_of (number 2 ∷ neg (number 1) ∷ [])) None) ≡ Err Shape }
    ensures truth_extent { known (zeros (tuple_of (number 2 ∷ truth true ∷ [])) None)
        ≡ Err TypeKind }
    ensures name_first { known (zeros (tuple_of (truth true ∷ name (codes "a") ∷ [])) None)
        ≡ Err Name }
    ensures left_to_right { known (zeros (tuple_of (no_quotient ∷ name (codes "a") ∷ [])) None)
        ≡ Err Divisor }
    ensures elements { known (zeros (sizes (4097 ∷ 4096 ∷ [])) None) ≡ Err Limit }
    ensures beside_none { known (zeros (sizes (16777217 ∷ 0 ∷ [])) None) ≡ Err Limit }
    ensures range_first { known (full (sizes (4097 ∷ 4096 ∷ [])) (number 300) (Some UInt8))
        ≡ Err Range }
    ensures three_deep { value (array
        (list (entries (map rows_of (((pos 1 ∷ []) ∷ (pos 2 ∷ []) ∷ [])
        ∷ ((pos 3 ∷ []) ∷ (negsuc 3 ∷ []) ∷ []) ∷ [])))) (Some Int8))
        ≡ plain (2 ∷ 2 ∷ 1 ∷ []) (pos 1 ∷ pos 2 ∷ pos 3 ∷ negsuc 3 ∷ []) }
    ensures unsigned { numbers (vector_of UInt64 (pos 18446744073709551615 ∷ []))
        ≡ pos 18446744073709551615 ∷ [] }
    ensures least { numbers (vector_of Int64 (negsuc 9223372036854775807 ∷ []))
        ≡ negsuc 9223372036854775807 ∷ [] }
    ensures counted_unsigned { numbers (arange (some_tree (number 18446744073709551614))
        (number 18446744073709551615) (Some UInt64)) ≡ pos 18446744073709551614 ∷ [] }
    ensures axes_before_limit { known (zeros (sizes (16777217 ∷ 1 ∷ 1 ∷ 1 ∷ 1 ∷ [])) None)
        ≡ Err Shape }
    ensures below_before_limit { known
        (ones (tuple_of (number 16777217 ∷ neg (number 1) ∷ [])) None) ≡ Err Shape }
{}
