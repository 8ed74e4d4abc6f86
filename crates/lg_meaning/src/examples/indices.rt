//! What an index picks, and its faults.
ghost use Rattle.std.specs.Prelude.{◌≡◌, [], ◌∷◌, Err, None, Some, codes, map, negsuc, pos, true};
ghost use Rattle.lg_elem.specs.declared.dtype.DType.TheVariants.{Bool, Int64, Int8, UInt64, UInt8};
ghost use Rattle.lg_tree.specs.declared.kinds.Arith.TheVariants.{Sub};
ghost use Rattle.lg_tree.specs.Tree.{arith, at, broadcast_to, ellipsis, name, new_axis, no_tree, number, one, ones, slice, some_tree, truth, zeros};
ghost use Rattle.lg_meaning.specs.declared.fault.FaultKind.TheVariants.{Divisor, Index, Name, Range, Shape, Step, TypeKind};
ghost use Rattle.lg_meaning.specs.Memory.{read_only, writable};
ghost use Rattle.lg_meaning.specs.Value.{plain};
ghost use Rattle.lg_meaning.specs.Examples.{a_scalar, an_array, by_zero, counted_to, cut, indexed_by, known, no_quotient, one_scalar, ones_of, ordered, picks, sizes, sliced, stepping, value, vector_of, whole_axis};

/// What an index picks: a view, or a copy of one element.
pub fn indices_by_example()
    ensures row { value (indexed_by (ordered (3 ∷ 4 ∷ [])) (picks (pos 1) ∷ []))
        ≡ plain (4 ∷ []) (map pos (4 ∷ 5 ∷ 6 ∷ 7 ∷ [])) }
    ensures element { value (indexed_by (ordered (3 ∷ 4 ∷ [])) (picks (pos 1) ∷ picks (pos 2) ∷ []))
        ≡ plain [] (pos 6 ∷ []) }
    ensures last { value (indexed_by (ordered (3 ∷ 4 ∷ []))
        (picks (negsuc 0) ∷ picks (negsuc 0) ∷ [])) ≡ plain [] (pos 11 ∷ []) }
    ensures column { value (indexed_by (ordered (3 ∷ 4 ∷ [])) (whole_axis ∷ picks (pos 1) ∷ []))
        ≡ plain (3 ∷ []) (map pos (1 ∷ 5 ∷ 9 ∷ [])) }
    ensures block { value (indexed_by (ordered (3 ∷ 4 ∷ []))
        (cut (Some (pos 1)) (Some (pos 3)) ∷ cut None (Some (pos 2)) ∷ []))
        ≡ plain (2 ∷ 2 ∷ []) (map pos (4 ∷ 5 ∷ 8 ∷ 9 ∷ [])) }
    ensures from_end { value (indexed_by (ordered (3 ∷ 4 ∷ []))
        (cut (Some (negsuc 1)) (Some (negsuc 0)) ∷ cut (Some (pos 1)) (Some (negsuc 0)) ∷ []))
        ≡ plain (1 ∷ 2 ∷ []) (map pos (5 ∷ 6 ∷ [])) }
    ensures clipped { value (indexed_by (counted_to 3)
        (cut (Some (negsuc 99)) (Some (pos 100)) ∷ []))
        ≡ plain (3 ∷ []) (map pos (0 ∷ 1 ∷ 2 ∷ [])) }
    ensures crossed { value (indexed_by (ordered (3 ∷ 4 ∷ []))
        (cut (Some (pos 5)) (Some (pos 1)) ∷ [])) ≡ plain (0 ∷ 4 ∷ []) [] }
    ensures no_columns { value (indexed_by (ordered (3 ∷ 4 ∷ []))
        (whole_axis ∷ cut (Some (pos 2)) (Some (pos 2)) ∷ [])) ≡ plain (3 ∷ 0 ∷ []) [] }
    ensures last_axis { value (indexed_by (ordered (3 ∷ 4 ∷ [])) (ellipsis ∷ picks (pos 0) ∷ []))
        ≡ plain (3 ∷ []) (map pos (0 ∷ 4 ∷ 8 ∷ [])) }
    ensures between { value (indexed_by (ordered (2 ∷ 2 ∷ 1 ∷ 2 ∷ []))
        (picks (pos 1) ∷ ellipsis ∷ picks (pos 0) ∷ []))
        ≡ plain (2 ∷ 1 ∷ []) (map pos (4 ∷ 6 ∷ [])) }
    ensures added { value (indexed_by (counted_to 2) (new_axis ∷ ellipsis ∷ new_axis ∷ []))
        ≡ plain (1 ∷ 2 ∷ 1 ∷ []) (map pos (0 ∷ 1 ∷ [])) }
    ensures added_between { value (indexed_by (ordered (3 ∷ 4 ∷ []))
        (cut (Some (pos 2)) None ∷ new_axis ∷ picks (pos 3) ∷ []))
        ≡ plain (1 ∷ 1 ∷ []) (pos 11 ∷ []) }
    ensures of_empty { value (indexed_by (zeros (sizes (0 ∷ 2 ∷ [])) None)
        (whole_axis ∷ picks (pos 1) ∷ [])) ≡ plain (0 ∷ []) [] }
    ensures step_one { value (indexed_by (counted_to 3) (stepping (pos 1) ∷ []))
        ≡ plain (3 ∷ []) (map pos (0 ∷ 1 ∷ 2 ∷ [])) }
    ensures unsigned { value (indexed_by
        (vector_of UInt64 (map pos (7 ∷ 18446744073709551615 ∷ []))) (picks (negsuc 0) ∷ []))
        ≡ plain [] (pos 18446744073709551615 ∷ []) }
    ensures of_weak { value (indexed_by (number 3) (new_axis ∷ ellipsis ∷ []))
        ≡ plain (1 ∷ []) (pos 3 ∷ []) }
    ensures part { value (indexed_by by_zero (cut None (Some (pos 0)) ∷ []))
        ≡ record { shape = 0 ∷ []; numbers = []; fault = Some Divisor } }
    ensures least_index { value (indexed_by (counted_to 3) (picks (negsuc 2) ∷ []))
        ≡ plain [] (pos 0 ∷ []) }
    ensures bounds_and_step { value (indexed_by (counted_to 5)
        (sliced (Some (pos 1)) (Some (negsuc 0)) (Some (pos 1)) ∷ []))
        ≡ plain (3 ∷ []) (map pos (1 ∷ 2 ∷ 3 ∷ [])) }
    ensures far_bounds { value (indexed_by (counted_to 3)
        (cut (Some (negsuc 9223372036854775807)) (Some (pos 18446744073709551615)) ∷ []))
        ≡ plain (3 ∷ []) (map pos (0 ∷ 1 ∷ 2 ∷ [])) }
    ensures behind { value (indexed_by (counted_to 3)
        (cut (Some (pos 18446744073709551615)) None ∷ [])) ≡ plain (0 ∷ []) [] }
    ensures before { value (indexed_by (counted_to 3)
        (cut None (Some (negsuc 9223372036854775807)) ∷ [])) ≡ plain (0 ∷ []) [] }
    ensures of_nothing { value (indexed_by (zeros (one (number 0)) None)
        (cut (Some (negsuc 0)) (Some (pos 1)) ∷ [])) ≡ plain (0 ∷ []) [] }
    ensures nothing_between { value (indexed_by (ordered (3 ∷ 4 ∷ []))
        (picks (pos 1) ∷ ellipsis ∷ picks (pos 2) ∷ [])) ≡ plain [] (pos 6 ∷ []) }
    ensures all_kinds { value (indexed_by (ordered (2 ∷ 2 ∷ 3 ∷ []))
        (picks (negsuc 0) ∷ new_axis ∷ ellipsis ∷ cut (Some (pos 1)) None ∷ []))
        ≡ plain (1 ∷ 2 ∷ 2 ∷ []) (map pos (7 ∷ 8 ∷ 10 ∷ 11 ∷ [])) }
    ensures four_added { value (indexed_by (number 3)
        (new_axis ∷ new_axis ∷ new_axis ∷ new_axis ∷ []))
        ≡ plain (1 ∷ 1 ∷ 1 ∷ 1 ∷ []) (pos 3 ∷ []) }
    ensures twice { value (indexed_by
        (indexed_by (ordered (3 ∷ 4 ∷ []))
        (cut (Some (pos 1)) None ∷ cut (Some (pos 1)) (Some (pos 3)) ∷ []))
        (whole_axis ∷ picks (negsuc 0) ∷ [])) ≡ plain (2 ∷ []) (map pos (6 ∷ 10 ∷ [])) }
    ensures faulty_element { value (indexed_by by_zero (picks (pos 0) ∷ []))
        ≡ record { shape = []; numbers = pos 0 ∷ []; fault = Some Divisor } }
{}

/// Type, shape and right of what an index picks.
pub fn index_kinds_by_example()
    ensures view { known (indexed_by (ones_of 3 Int8) (cut (Some (pos 1)) None ∷ []))
        ≡ an_array Int8 (2 ∷ []) writable }
    ensures element { known (indexed_by (ones_of 3 UInt8) (picks (pos 1) ∷ [])) ≡ a_scalar UInt8 }
    ensures element_view { known (indexed_by (ones_of 3 UInt8) (picks (pos 1) ∷ ellipsis ∷ []))
        ≡ an_array UInt8 [] writable }
    ensures row { known (indexed_by (ordered (3 ∷ 4 ∷ [])) (picks (pos 1) ∷ []))
        ≡ an_array Int64 (4 ∷ []) writable }
    ensures of_scalar { known (indexed_by one_scalar (ellipsis ∷ []))
        ≡ an_array Int64 [] read_only }
    ensures of_weak { known (indexed_by (truth true) (ellipsis ∷ [])) ≡ an_array Bool [] read_only }
    ensures of_read_only { known (indexed_by (broadcast_to (ones_of 1 Int8) (one (number 3)))
        (whole_axis ∷ [])) ≡ an_array Int8 (3 ∷ []) read_only }
    ensures element_of_read_only { known (indexed_by (broadcast_to (ones_of 1 Int8)
        (one (number 3))) (picks (pos 2) ∷ [])) ≡ a_scalar Int8 }
    ensures scalar_as_index { known (indexed_by (ones_of 3 Int8) (at one_scalar ∷ []))
        ≡ Err TypeKind }
    ensures weak_bound { known (indexed_by (ones_of 3 Int8)
        (at (arith Sub (number 3) (number 5)) ∷ [])) ≡ a_scalar Int8 }
    ensures nothing_between { known (indexed_by (ordered (3 ∷ 4 ∷ []))
        (picks (pos 1) ∷ ellipsis ∷ picks (pos 2) ∷ [])) ≡ an_array Int64 [] writable }
    ensures new_axis_and_element { known
        (indexed_by (ones_of 3 Int8) (picks (pos 1) ∷ new_axis ∷ []))
        ≡ an_array Int8 (1 ∷ []) writable }
{}

/// The first fault of an index.
pub fn index_faults_by_example()
    ensures above { known (indexed_by (ones_of 3 Int8) (picks (pos 3) ∷ [])) ≡ Err Index }
    ensures below { known (indexed_by (ones_of 3 Int8) (picks (negsuc 3) ∷ [])) ≡ Err Index }
    ensures of_empty { known (indexed_by (zeros (one (number 0)) None) (picks (pos 0) ∷ []))
        ≡ Err Index }
    ensures too_many { known (indexed_by (ones_of 3 Int8) (stepping (pos 2) ∷ picks (pos 0) ∷ []))
        ≡ Err Index }
    ensures of_weak { known (indexed_by (number 3) (picks (pos 0) ∷ [])) ≡ Err Index }
    ensures ellipses { known (indexed_by (ones_of 3 Int8)
        (ellipsis ∷ picks (pos 7) ∷ ellipsis ∷ [])) ≡ Err Index }
    ensures step { known (indexed_by (ones_of 3 Int8) (stepping (pos 2) ∷ [])) ≡ Err Step }
    ensures step_back { known (indexed_by (ones_of 3 Int8) (stepping (negsuc 0) ∷ [])) ≡ Err Step }
    ensures no_step { known (indexed_by (zeros (one (number 0)) None) (stepping (pos 0) ∷ []))
        ≡ Err Step }
    ensures step_first { known (indexed_by (ordered (3 ∷ 4 ∷ []))
        (stepping (pos 2) ∷ picks (pos 9) ∷ [])) ≡ Err Step }
    ensures index_first { known (indexed_by (ordered (3 ∷ 4 ∷ []))
        (picks (pos 9) ∷ stepping (pos 2) ∷ [])) ≡ Err Index }
    ensures five_axes { known (indexed_by (ones (sizes (2 ∷ 2 ∷ 2 ∷ 2 ∷ [])) None)
        (new_axis ∷ [])) ≡ Err Shape }
    ensures five_but_one { known (indexed_by (ones (sizes (2 ∷ 2 ∷ 2 ∷ 2 ∷ [])) None)
        (new_axis ∷ picks (pos 0) ∷ [])) ≡ an_array Int64 (1 ∷ 2 ∷ 2 ∷ 2 ∷ []) writable }
    ensures item_before_shape { known (indexed_by (ones (sizes (2 ∷ 2 ∷ 2 ∷ 2 ∷ [])) None)
        (new_axis ∷ new_axis ∷ picks (pos 2) ∷ [])) ≡ Err Index }
    ensures truth_item { known (indexed_by (ones_of 3 Int8) (ellipsis ∷ at (truth true)
        ∷ ellipsis ∷ [])) ≡ Err TypeKind }
    ensures bound_type { known (indexed_by (ones_of 3 Int8)
        (picks (pos 9) ∷ slice no_tree (some_tree one_scalar) no_tree ∷ [])) ≡ Err TypeKind }
    ensures name_first { known (indexed_by (ones_of 3 Int8) (at (truth true)
        ∷ at (name (codes "a")) ∷ [])) ≡ Err Name }
    ensures base_first { known (indexed_by (name (codes "a")) (at no_quotient ∷ [])) ≡ Err Name }
    ensures left_to_right { known (indexed_by (ones_of 3 Int8)
        (slice (some_tree no_quotient) (some_tree (name (codes "a"))) no_tree ∷ []))
        ≡ Err Divisor }
    ensures range { known (indexed_by (number 18446744073709551615) (picks (pos 5) ∷ []))
        ≡ Err Range }
    ensures type_before_range { known (indexed_by (number 18446744073709551615)
        (at (truth true) ∷ [])) ≡ Err TypeKind }
    ensures great { known (indexed_by (ones_of 3 Int8) (picks (pos 18446744073709551615) ∷ []))
        ≡ Err Index }
    ensures five_of_weak { known (indexed_by (number 3)
        (new_axis ∷ new_axis ∷ new_axis ∷ new_axis ∷ new_axis ∷ [])) ≡ Err Shape }
    ensures ellipses_before_count { known
        (indexed_by (ones_of 3 Int8) (ellipsis ∷ ellipsis ∷ stepping (pos 2) ∷ whole_axis ∷ []))
        ≡ Err Index }
    ensures count_before_step { known
        (indexed_by (ones_of 3 Int8) (stepping (pos 0) ∷ whole_axis ∷ [])) ≡ Err Index }
    ensures two_backwards { known (indexed_by (counted_to 5)
        (sliced (Some (pos 4)) (Some (pos 0)) (Some (negsuc 1)) ∷ [])) ≡ Err Step }
    ensures step_before_shape { known
        (indexed_by (ones_of 3 Int8)
        (new_axis ∷ new_axis ∷ new_axis ∷ new_axis ∷ stepping (pos 0) ∷ [])) ≡ Err Step }
    ensures step_type { known (indexed_by (ones_of 3 Int8)
        (slice no_tree no_tree (some_tree (truth true)) ∷ [])) ≡ Err TypeKind }
    ensures start_type { known (indexed_by (ones_of 3 Int8)
        (slice (some_tree (ones_of 1 Int8)) no_tree (some_tree (number 0)) ∷ [])) ≡ Err TypeKind }
{}
