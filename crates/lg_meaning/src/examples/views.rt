//! Views that are no index.
ghost use Rattle.std.specs.Prelude.{◌≡◌, [], ◌∷◌, Err, None, Some, codes, map, negsuc, pos, true};
ghost use Rattle.std.specs.List.{range_with_len};
ghost use Rattle.lg_elem.specs.declared.dtype.DType.TheVariants.{Bool, Int64, Int8};
ghost use Rattle.lg_tree.specs.declared.kinds.Arith.TheVariants.{Add};
ghost use Rattle.lg_tree.specs.Tree.{arith, broadcast_to, copy, ellipsis, name, neg, no_shape, number, one, some_shape, transpose, truth, zeros};
ghost use Rattle.lg_meaning.specs.declared.fault.FaultKind.TheVariants.{Divisor, Index, Limit, Name, Range, Shape, TypeKind};
ghost use Rattle.lg_meaning.specs.Memory.{read_only, writable};
ghost use Rattle.lg_meaning.specs.Value.{plain};
ghost use Rattle.lg_meaning.specs.Sharing.{shared_view};
ghost use Rattle.lg_meaning.specs.Examples.{a_stands, a_view, an_array, by_zero, counted_to, cut, fault_of, grid_of, indexed_by, known, no_quotient, one_scalar, ones_of, ordered, picks, sizes, tuple_of, value, whole_axis};

/// `transpose` gives each axis the place that is written, and turns them round without axes.
pub fn transposes_by_example()
    ensures reversed { value (transpose (ordered (2 ∷ 3 ∷ [])) no_shape)
        ≡ plain (3 ∷ 2 ∷ []) (map pos (0 ∷ 3 ∷ 1 ∷ 4 ∷ 2 ∷ 5 ∷ [])) }
    ensures four_axes { value (transpose (ordered (2 ∷ 1 ∷ 2 ∷ 2 ∷ [])) no_shape)
        ≡ plain (2 ∷ 2 ∷ 1 ∷ 2 ∷ []) (map pos (0 ∷ 4 ∷ 2 ∷ 6 ∷ 1 ∷ 5 ∷ 3 ∷ 7 ∷ [])) }
    ensures written { value (transpose (ordered (2 ∷ 1 ∷ 2 ∷ 2 ∷ []))
        (some_shape (sizes (2 ∷ 0 ∷ 3 ∷ 1 ∷ []))))
        ≡ plain (2 ∷ 2 ∷ 2 ∷ 1 ∷ []) (map pos (0 ∷ 1 ∷ 4 ∷ 5 ∷ 2 ∷ 3 ∷ 6 ∷ 7 ∷ [])) }
    ensures from_end { value (transpose (ordered (1 ∷ 2 ∷ 3 ∷ []))
        (some_shape (tuple_of (neg (number 1) ∷ number 0 ∷ number 1 ∷ []))))
        ≡ plain (3 ∷ 1 ∷ 2 ∷ []) (map pos (0 ∷ 3 ∷ 1 ∷ 4 ∷ 2 ∷ 5 ∷ [])) }
    ensures one_axis { value (transpose (counted_to 3) (some_shape (one (number 0))))
        ≡ plain (3 ∷ []) (map pos (0 ∷ 1 ∷ 2 ∷ [])) }
    ensures no_axes { known (transpose (number 3) (some_shape (sizes [])))
        ≡ an_array Int64 [] read_only }
    ensures empty { value (transpose (zeros (sizes (0 ∷ 2 ∷ [])) None) no_shape)
        ≡ plain (2 ∷ 0 ∷ []) [] }
    ensures of_writable { known (transpose (ones_of 2 Int8) no_shape)
        ≡ an_array Int8 (2 ∷ []) writable }
    ensures of_scalar { known (transpose one_scalar no_shape) ≡ an_array Int64 [] read_only }
    ensures of_read_only { known (transpose (broadcast_to (ones_of 2 Bool) (sizes (3 ∷ 2 ∷ [])))
        no_shape) ≡ an_array Bool (2 ∷ 3 ∷ []) read_only }
    ensures of_truth { known (transpose (truth true) no_shape) ≡ an_array Bool [] read_only }
    ensures too_great { known (transpose (number 9223372036854775808) no_shape) ≡ Err Range }
    ensures no_name { known (transpose (name (codes "a")) (some_shape (one no_quotient)))
        ≡ Err Name }
    ensures axis_type { known (transpose (number 9223372036854775808)
        (some_shape (one (truth true)))) ≡ Err TypeKind }
    ensures count { known (transpose (ordered (2 ∷ 3 ∷ []))
        (some_shape (sizes (0 ∷ 5 ∷ 1 ∷ [])))) ≡ Err Shape }
    ensures out_of_range { known (transpose (ordered (2 ∷ 3 ∷ []))
        (some_shape (sizes (2 ∷ 2 ∷ [])))) ≡ Err Index }
    ensures repeated { known (transpose (ordered (2 ∷ 3 ∷ []))
        (some_shape (tuple_of (number 0 ∷ neg (number 2) ∷ [])))) ≡ Err Shape }
{}

/// `broadcast_to` repeats a value to exactly the shape that is written.
pub fn repeats_by_example()
    ensures column { value (broadcast_to (grid_of Int64 ((pos 1 ∷ []) ∷ (pos 2 ∷ []) ∷ []))
        (sizes (2 ∷ 3 ∷ []))) ≡ plain (2 ∷ 3 ∷ []) (map pos (1 ∷ 1 ∷ 1 ∷ 2 ∷ 2 ∷ 2 ∷ [])) }
    ensures more_axes { value (broadcast_to (ordered (2 ∷ 1 ∷ [])) (sizes (1 ∷ 2 ∷ 2 ∷ 2 ∷ [])))
        ≡ plain (1 ∷ 2 ∷ 2 ∷ 2 ∷ []) (map pos (0 ∷ 0 ∷ 1 ∷ 1 ∷ 0 ∷ 0 ∷ 1 ∷ 1 ∷ [])) }
    ensures to_nothing { value (broadcast_to (ones_of 1 Int8) (one (number 0)))
        ≡ plain (0 ∷ []) [] }
    ensures of_weak { value (broadcast_to (number 3) (one (number 2)))
        ≡ plain (2 ∷ []) (map pos (3 ∷ 3 ∷ [])) }
    ensures right { known (broadcast_to (ones_of 1 Int8) (one (number 1)))
        ≡ an_array Int8 (1 ∷ []) read_only }
    ensures no_axes { known (broadcast_to one_scalar (sizes [])) ≡ an_array Int64 [] read_only }
    ensures narrower { known (broadcast_to (ones_of 3 Int8) (one (number 1))) ≡ Err Shape }
    ensures fewer_axes { known (broadcast_to (ordered (1 ∷ 2 ∷ [])) (one (number 2)))
        ≡ Err Shape }
    ensures below { known (broadcast_to (ones_of 1 Int8) (one (neg (number 1)))) ≡ Err Shape }
    ensures five_axes { known (broadcast_to (ones_of 1 Int8) (sizes (1 ∷ 1 ∷ 1 ∷ 1 ∷ 1 ∷ [])))
        ≡ Err Shape }
    ensures shape_first { known (broadcast_to (ones_of 2 Int8) (one (number 16777217)))
        ≡ Err Shape }
    ensures limit { known (broadcast_to (ones_of 1 Int8) (one (number 16777217))) ≡ Err Limit }
    ensures elements { known (broadcast_to (ones_of 1 Int8) (sizes (4097 ∷ 4096 ∷ [])))
        ≡ Err Limit }
    ensures extent_type { known (broadcast_to (number 9223372036854775808) (one (truth true)))
        ≡ Err TypeKind }
    ensures range { known (broadcast_to (number 9223372036854775808) (one (neg (number 1))))
        ≡ Err Range }
    ensures part { fault_of (broadcast_to by_zero (one (number 0))) ≡ Some Divisor }
{}

/// Which expressions are views of a name's array, with their places of its root.
pub fn sharing_by_example()
    ensures named { shared_view (name (codes "a")) (a_stands (2 ∷ 3 ∷ []) []).names
        ≡ Some (a_view (2 ∷ 3 ∷ []) writable (range_with_len 0 6)) }
    ensures indexed { shared_view (indexed_by (name (codes "a")) (whole_axis
        ∷ cut (Some (pos 1)) None ∷ [])) (a_stands (2 ∷ 3 ∷ []) []).names
        ≡ Some (a_view (2 ∷ 2 ∷ []) writable (1 ∷ 2 ∷ 4 ∷ 5 ∷ [])) }
    ensures turned { shared_view (transpose (name (codes "a")) no_shape)
        (a_stands (2 ∷ 3 ∷ []) []).names
        ≡ Some (a_view (3 ∷ 2 ∷ []) writable (0 ∷ 3 ∷ 1 ∷ 4 ∷ 2 ∷ 5 ∷ [])) }
    ensures chained { shared_view (indexed_by (transpose (indexed_by (name (codes "a"))
        (cut (Some (pos 1)) None ∷ [])) no_shape) (picks (negsuc 0) ∷ ellipsis ∷ []))
        (a_stands (2 ∷ 3 ∷ []) []).names ≡ Some (a_view (1 ∷ []) writable (5 ∷ [])) }
    ensures repeated { shared_view (broadcast_to (indexed_by (name (codes "a"))
        (picks (pos 1) ∷ [])) (sizes (2 ∷ 3 ∷ []))) (a_stands (2 ∷ 3 ∷ []) []).names
        ≡ Some (a_view (2 ∷ 3 ∷ []) read_only (3 ∷ 4 ∷ 5 ∷ 3 ∷ 4 ∷ 5 ∷ [])) }
    ensures element { shared_view (indexed_by (name (codes "a"))
        (picks (pos 1) ∷ picks (pos 2) ∷ [])) (a_stands (2 ∷ 3 ∷ []) []).names ≡ None }
    ensures element_view { shared_view (indexed_by (name (codes "a")) (picks (pos 1)
        ∷ picks (pos 2) ∷ ellipsis ∷ [])) (a_stands (2 ∷ 3 ∷ []) []).names
        ≡ Some (a_view [] writable (5 ∷ [])) }
    ensures of_sum { shared_view (indexed_by (arith Add (name (codes "a")) (number 1))
        (whole_axis ∷ [])) (a_stands (2 ∷ 3 ∷ []) []).names ≡ None }
    ensures copied { shared_view (copy (name (codes "a"))) (a_stands (2 ∷ 3 ∷ []) []).names
        ≡ None }
    ensures unbound { shared_view (name (codes "b")) (a_stands (2 ∷ 3 ∷ []) []).names ≡ None }
{}
