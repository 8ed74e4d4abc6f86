//! Writes through a view.
ghost use Rattle.std.specs.Prelude.{◌≡◌, [], ◌∷◌, None, Some, codes, map, negsuc, pos, true};
ghost use Rattle.lg_elem.specs.declared.dtype.DType.TheVariants.{Bool, Int64, Int8, UInt64, UInt8};
ghost use Rattle.lg_tree.specs.declared.kinds.Arith.TheVariants.{Add, BitXor, FloorDiv, Mul, Pow, Sub};
ghost use Rattle.lg_tree.specs.Tree.{arith, as_type, at, bind, broadcast_to, copy, ellipsis, flatten, full, name, neg, new_axis, no_shape, number, one, ones, print, reshape, transpose, truth, update, zeros};
ghost use Rattle.lg_meaning.specs.declared.fault.FaultKind.TheVariants.{Divisor, Index, Name, Power, Range, ReadOnly, Shape, Step, TypeKind};
ghost use Rattle.lg_meaning.specs.Step.{step};
ghost use Rattle.lg_meaning.specs.Run.{done, fault_at, start};
ghost use Rattle.lg_meaning.specs.Examples.{a_stands, by_zero, counted_to, cut, indexed_by, no_quotient, one_scalar, ones_of, ordered, picks, put_at, ran, sizes, stepping, to_below, update_at_part, vector_of, whole_axis};

/// `x[i] = e`: which elements it writes, and what.
pub fn puts_by_example()
    ensures overlapping { ran (bind (codes "a") (counted_to 5)
        ∷ put_at (codes "a") (cut (Some (pos 1)) None ∷ [])
        (indexed_by (name (codes "a")) (cut None (Some (negsuc 0)) ∷ []))
        ∷ print (name (codes "a")) ∷ [])
        ≡ record { text = codes "[0, 0, 1, 2, 3]\n"; end = done } }
    ensures through_transpose { ran (bind (codes "a") (ordered (2 ∷ 3 ∷ []))
        ∷ bind (codes "t") (transpose (name (codes "a")) no_shape)
        ∷ put_at (codes "t") (picks (pos 0) ∷ picks (pos 1) ∷ []) (number 9)
        ∷ print (name (codes "a")) ∷ [])
        ≡ record { text = codes "[[0, 1, 2], [9, 4, 5]]\n"; end = done } }
    ensures scalar_and_view { ran (bind (codes "a") (counted_to 4)
        ∷ bind (codes "s") (indexed_by (name (codes "a")) (picks (pos 2) ∷ []))
        ∷ bind (codes "v") (indexed_by (name (codes "a")) (picks (pos 2) ∷ ellipsis ∷ []))
        ∷ put_at (codes "a") (picks (pos 2) ∷ []) (number 9)
        ∷ print (name (codes "s")) ∷ print (name (codes "v")) ∷ [])
        ≡ record { text = codes "2\n9\n"; end = done } }
    ensures two_names { ran (bind (codes "a") (counted_to 4)
        ∷ bind (codes "b") (indexed_by (name (codes "a")) (cut (Some (pos 1)) (Some (pos 3)) ∷ []))
        ∷ bind (codes "c") (name (codes "b"))
        ∷ bind (codes "a") (number 0)
        ∷ put_at (codes "c") (picks (negsuc 0) ∷ []) (number 9)
        ∷ print (name (codes "b")) ∷ print (name (codes "a")) ∷ [])
        ≡ record { text = codes "[1, 9]\n0\n"; end = done } }
    ensures copied { ran (bind (codes "a") (counted_to 2)
        ∷ bind (codes "b") (copy (name (codes "a")))
        ∷ put_at (codes "b") (ellipsis ∷ []) (number 9)
        ∷ print (name (codes "a")) ∷ [])
        ≡ record { text = codes "[0, 1]\n"; end = done } }
    ensures column { (step (put_at (codes "a") (whole_axis ∷ picks (pos 0) ∷ [])
        (vector_of Int8 (pos 8 ∷ negsuc 0 ∷ [])))
        (a_stands (2 ∷ 2 ∷ []) (map pos (0 ∷ 1 ∷ 2 ∷ 3 ∷ [])))).state.memory
        ≡ (a_stands (2 ∷ 2 ∷ []) (pos 8 ∷ pos 1 ∷ negsuc 0 ∷ pos 3 ∷ [])).memory }
    ensures rows { (step (put_at (codes "a") (ellipsis ∷ [])
        (vector_of Int64 (map pos (8 ∷ 9 ∷ []))))
        (a_stands (2 ∷ 2 ∷ []) (map pos (0 ∷ 1 ∷ 2 ∷ 3 ∷ [])))).state.memory
        ≡ (a_stands (2 ∷ 2 ∷ []) (map pos (8 ∷ 9 ∷ 8 ∷ 9 ∷ []))).memory }
    ensures dropped_axes { (step (put_at (codes "a") (cut (Some (pos 1)) None ∷ [])
        (ones (sizes (1 ∷ 1 ∷ 2 ∷ [])) None))
        (a_stands (3 ∷ []) (map pos (7 ∷ 7 ∷ 7 ∷ [])))).state.memory
        ≡ (a_stands (3 ∷ []) (map pos (7 ∷ 1 ∷ 1 ∷ []))).memory }
    ensures nothing { step (put_at (codes "a") (cut (Some (pos 2)) (Some (pos 1)) ∷ [])
        (ones_of 1 Int8)) (a_stands (3 ∷ []) (map pos (7 ∷ 8 ∷ 9 ∷ [])))
        ≡ record { state = a_stands (3 ∷ []) (map pos (7 ∷ 8 ∷ 9 ∷ [])); text = []; fault = None } }
    ensures wrapped { ran (bind (codes "a") (ones_of 2 Int8)
        ∷ put_at (codes "a") (whole_axis ∷ []) (vector_of Int64 (pos 300 ∷ negsuc 128 ∷ []))
        ∷ print (name (codes "a")) ∷ [])
        ≡ record { text = codes "[44, 127]\n"; end = done } }
    ensures to_bool { ran (bind (codes "a") (zeros (one (number 3)) (Some Bool))
        ∷ put_at (codes "a") (picks (pos 0) ∷ []) (number 18446744073709551615)
        ∷ put_at (codes "a") (cut (Some (pos 1)) None ∷ [])
        (vector_of Int64 (pos 0 ∷ negsuc 6 ∷ [])) ∷ print (name (codes "a")) ∷ [])
        ≡ record { text = codes "[True, False, True]\n"; end = done } }
    ensures of_truth { (step (put_at (codes "a") (picks (pos 0) ∷ []) (truth true))
        (a_stands (1 ∷ []) (pos 7 ∷ []))).state.memory ≡ (a_stands (1 ∷ []) (pos 1 ∷ [])).memory }
    ensures no_axes { ran (bind (codes "a") (full (sizes []) (number 3) None)
        ∷ bind (codes "b") (name (codes "a"))
        ∷ put_at (codes "a") (ellipsis ∷ []) (number 4)
        ∷ print (name (codes "b")) ∷ [])
        ≡ record { text = codes "4\n"; end = done } }
    ensures element_fault { step (put_at (codes "a") (whole_axis ∷ [])
        (arith FloorDiv (number 6) (name (codes "a")))) (a_stands (2 ∷ []) (map pos (0 ∷ 4 ∷ [])))
        ≡ record {
          state = a_stands (2 ∷ []) (map pos (0 ∷ 1 ∷ []));
          text = [];
          fault = Some Divisor;
        } }
    ensures turned { ran (bind (codes "a") (ordered (2 ∷ 2 ∷ []))
        ∷ put_at (codes "a") (ellipsis ∷ []) (transpose (name (codes "a")) no_shape)
        ∷ print (name (codes "a")) ∷ [])
        ≡ record { text = codes "[[0, 2], [1, 3]]\n"; end = done } }
    ensures forwards { ran (bind (codes "a") (counted_to 5)
        ∷ put_at (codes "a") (cut None (Some (negsuc 0)) ∷ [])
        (indexed_by (name (codes "a")) (cut (Some (pos 1)) None ∷ [])) ∷ print (name (codes "a"))
        ∷ []) ≡ record { text = codes "[1, 2, 3, 4, 4]\n"; end = done } }
    ensures rows_down { ran (bind (codes "a") (ordered (3 ∷ 2 ∷ []))
        ∷ put_at (codes "a") (cut (Some (pos 1)) None ∷ [])
        (indexed_by (name (codes "a")) (cut None (Some (negsuc 0)) ∷ [])) ∷ print (name (codes "a"))
        ∷ []) ≡ record { text = codes "[[0, 1], [0, 1], [2, 3]]\n"; end = done } }
    ensures element_repeated { ran (bind (codes "a") (counted_to 3)
        ∷ put_at (codes "a") (whole_axis ∷ [])
        (indexed_by (name (codes "a")) (picks (pos 2) ∷ ellipsis ∷ [])) ∷ print (name (codes "a"))
        ∷ []) ≡ record { text = codes "[2, 2, 2]\n"; end = done } }
    ensures added_axes { ran (bind (codes "a") (counted_to 2)
        ∷ put_at (codes "a") (new_axis ∷ whole_axis ∷ new_axis ∷ [])
        (ones (sizes (1 ∷ 2 ∷ 1 ∷ [])) None) ∷ print (name (codes "a")) ∷ [])
        ≡ record { text = codes "[1, 1]\n"; end = done } }
{}

/// The first fault of `x[i] = e`: those of `e`, then of `x`, of the index, and of the write.
pub fn put_faults_by_example()
    ensures value_first { (step (put_at (codes "zz") (at no_quotient ∷ []) (name (codes "yy")))
        start).fault ≡ Some Name }
    ensures value_fault { (step (put_at (codes "zz") (picks (pos 0) ∷ []) no_quotient) start).fault
        ≡ Some Divisor }
    ensures unbound { (step (put_at (codes "zz") (at no_quotient ∷ []) (number 1)) start).fault
        ≡ Some Name }
    ensures of_weak { (ran (bind (codes "x") (number 3)
        ∷ put_at (codes "x") (at no_quotient ∷ []) (number 1) ∷ [])).end ≡ fault_at 2 TypeKind }
    ensures index_item { (step (put_at (codes "a") (at no_quotient ∷ []) (number 1))
        (a_stands (1 ∷ []) (pos 7 ∷ []))).fault ≡ Some Divisor }
    ensures index { step (put_at (codes "a") (picks (pos 1) ∷ []) (by_zero))
        (a_stands (1 ∷ []) (pos 7 ∷ []))
        ≡ record { state = a_stands (1 ∷ []) (pos 7 ∷ []); text = []; fault = Some Index } }
    ensures index_type { (step (put_at (codes "a") (at (truth true) ∷ []) (number 1))
        (a_stands (1 ∷ []) (pos 7 ∷ []))).fault ≡ Some TypeKind }
    ensures slice_step { (step (put_at (codes "a") (stepping (negsuc 0) ∷ []) (number 1))
        (a_stands (1 ∷ []) (pos 7 ∷ []))).fault ≡ Some Step }
    ensures read_only_target { (ran (bind (codes "b")
        (broadcast_to (full (one (number 1)) (number 2) None) (one (number 3)))
        ∷ put_at (codes "b") (picks (pos 0) ∷ []) (number 1) ∷ [])).end ≡ fault_at 2 ReadOnly }
    ensures index_before_right { (ran
        (bind (codes "b") (broadcast_to (ones_of 1 Int8) (one (number 3)))
        ∷ put_at (codes "b") (picks (pos 3) ∷ []) (number 1) ∷ [])).end ≡ fault_at 2 Index }
    ensures right_before_range { (ran
        (bind (codes "b") (broadcast_to (ones_of 1 Int8) (one (number 3)))
        ∷ put_at (codes "b") (picks (pos 0) ∷ []) (number 300) ∷ [])).end ≡ fault_at 2 ReadOnly }
    ensures scalar_target { (ran (bind (codes "s") one_scalar
        ∷ put_at (codes "s") (ellipsis ∷ []) (number 1) ∷ [])).end ≡ fault_at 2 ReadOnly }
    ensures range { (ran (bind (codes "a") (ones_of 2 Int8)
        ∷ put_at (codes "a") (picks (pos 0) ∷ []) (number 128) ∷ [])).end ≡ fault_at 2 Range }
    ensures range_unsigned { (ran (bind (codes "a") (ones_of 2 UInt64)
        ∷ put_at (codes "a") (picks (pos 0) ∷ []) (number 18446744073709551615)
        ∷ put_at (codes "a") (picks (pos 0) ∷ []) (neg (number 1)) ∷ [])).end ≡ fault_at 3 Range }
    ensures shape { (step (put_at (codes "a") (whole_axis ∷ []) (ones_of 2 Int8))
        (a_stands (3 ∷ []) (map pos (7 ∷ 7 ∷ 7 ∷ [])))).fault ≡ Some Shape }
    ensures wider { (step (put_at (codes "a") (picks (pos 0) ∷ []) (ones_of 2 Int8))
        (a_stands (3 ∷ []) (map pos (7 ∷ 7 ∷ 7 ∷ [])))).fault ≡ Some Shape }
    ensures surplus { (step (put_at (codes "a") (whole_axis ∷ []) (ones (sizes (3 ∷ 1 ∷ [])) None))
        (a_stands (3 ∷ []) (map pos (7 ∷ 7 ∷ 7 ∷ [])))).fault ≡ Some Shape }
    ensures to_nothing { (step (put_at (codes "a") (cut (Some (pos 3)) None ∷ []) (ones_of 2 Int8))
        (a_stands (3 ∷ []) (map pos (7 ∷ 7 ∷ 7 ∷ [])))).fault ≡ Some Shape }
    ensures axes_before_right { (ran
        (bind (codes "b") (broadcast_to (ones_of 1 Int8) (one (number 3)))
        ∷ put_at (codes "b") (new_axis ∷ new_axis ∷ new_axis ∷ new_axis ∷ []) (number 300)
        ∷ [])).end ≡ fault_at 2 Shape }
    ensures right_before_shape { (ran
        (bind (codes "b") (broadcast_to (ones_of 1 Int8) (one (number 3)))
        ∷ put_at (codes "b") (whole_axis ∷ []) (ones_of 2 Int8) ∷ [])).end ≡ fault_at 2 ReadOnly }
    ensures too_many { (step (put_at (codes "a") (picks (pos 0) ∷ picks (pos 0) ∷ []) (number 1))
        (a_stands (1 ∷ []) (pos 7 ∷ []))).fault ≡ Some Index }
    ensures left_to_right { step (put_at (codes "a") (whole_axis ∷ []) (arith Add to_below by_zero))
        (a_stands (1 ∷ []) (pos 7 ∷ []))
        ≡ record { state = a_stands (1 ∷ []) (pos 0 ∷ []); text = []; fault = Some Power } }
{}

/// `x op= e` and `x[i] op= e`.
pub fn updates_by_example()
    ensures overlapping { ran (bind (codes "a") (counted_to 4)
        ∷ update_at_part (codes "a") (cut (Some (pos 1)) None ∷ []) Add
        (indexed_by (name (codes "a")) (cut None (Some (negsuc 0)) ∷ []))
        ∷ print (name (codes "a")) ∷ [])
        ≡ record { text = codes "[0, 1, 3, 5]\n"; end = done } }
    ensures whole { ran (bind (codes "a") (counted_to 3)
        ∷ bind (codes "b") (name (codes "a"))
        ∷ update (codes "a") Mul (number 2)
        ∷ print (name (codes "b")) ∷ [])
        ≡ record { text = codes "[0, 2, 4]\n"; end = done } }
    ensures of_weak { ran (bind (codes "x") (number 3) ∷ update (codes "x") Add (counted_to 2)
        ∷ print (name (codes "x")) ∷ []) ≡ record { text = codes "[3, 4]\n"; end = done } }
    ensures of_scalar { ran (bind (codes "s") (indexed_by (counted_to 3) (picks (pos 1) ∷ []))
        ∷ bind (codes "t") (name (codes "s"))
        ∷ update (codes "s") Add (number 1)
        ∷ print (name (codes "s")) ∷ print (name (codes "t")) ∷ [])
        ≡ record { text = codes "2\n1\n"; end = done } }
    ensures scalar_type { ran (bind (codes "s") (indexed_by (ones_of 3 Int8) (picks (pos 1) ∷ []))
        ∷ update (codes "s") Add (counted_to 2)
        ∷ print (name (codes "s")) ∷ [])
        ≡ record { text = codes "[1, 2]\n"; end = done } }
    ensures no_axes { ran (bind (codes "a") (full (sizes []) (number 3) None)
        ∷ bind (codes "b") (name (codes "a"))
        ∷ update (codes "a") Add (number 1)
        ∷ print (name (codes "b")) ∷ [])
        ≡ record { text = codes "4\n"; end = done } }
    ensures element { ran (bind (codes "a") (vector_of Int8 (map pos (127 ∷ 1 ∷ [])))
        ∷ update_at_part (codes "a") (picks (pos 0) ∷ []) Add (number 1)
        ∷ print (name (codes "a")) ∷ [])
        ≡ record { text = codes "[-128, 1]\n"; end = done } }
    ensures wider_type { ran (bind (codes "a") (counted_to 3)
        ∷ update_at_part (codes "a") (picks (pos 0) ∷ []) Add (number 300)
        ∷ bind (codes "b") (as_type (name (codes "a")) Int8)
        ∷ print (name (codes "b"))
        ∷ update (codes "b") Add (name (codes "a"))
        ∷ print (name (codes "b")) ∷ [])
        ≡ record { text = codes "[44, 1, 2]\n[88, 2, 4]\n"; end = done } }
    ensures unsigned { ran (bind (codes "a") (zeros (one (number 1)) (Some UInt8))
        ∷ update (codes "a") Sub (number 1)
        ∷ print (name (codes "a")) ∷ [])
        ≡ record { text = codes "[255]\n"; end = done } }
    ensures truths { ran (bind (codes "a") (vector_of Bool (map pos (1 ∷ 0 ∷ [])))
        ∷ update (codes "a") BitXor (truth true)
        ∷ print (name (codes "a")) ∷ [])
        ≡ record { text = codes "[False, True]\n"; end = done } }
    ensures by_itself { (step (update (codes "a") Sub (name (codes "a")))
        (a_stands (2 ∷ []) (map pos (3 ∷ 4 ∷ [])))).state.memory
        ≡ (a_stands (2 ∷ []) (map pos (0 ∷ 0 ∷ []))).memory }
    ensures zero_divisor { step (update (codes "a") FloorDiv (number 0))
        (a_stands (2 ∷ []) (map pos (3 ∷ 4 ∷ [])))
        ≡ record {
          state = a_stands (2 ∷ []) (map pos (0 ∷ 0 ∷ []));
          text = [];
          fault = Some Divisor;
        } }
    ensures power_below { (step (update_at_part (codes "a") (picks (pos 0) ∷ []) Pow
        (neg (number 1))) (a_stands (2 ∷ []) (map pos (3 ∷ 4 ∷ [])))).fault ≡ Some Power }
{}

/// The first fault of `x op= e` and `x[i] op= e`: those of `x`, of the index, of `e`, of the
/// operation, and of the write.
pub fn update_faults_by_example()
    ensures unbound { (step (update_at_part (codes "zz") (at no_quotient ∷ []) Add no_quotient)
        start).fault ≡ Some Name }
    ensures unbound_whole { (step (update (codes "zz") Add no_quotient) start).fault ≡ Some Name }
    ensures of_weak { (ran (bind (codes "x") (number 1)
        ∷ update_at_part (codes "x") (at no_quotient ∷ []) Add no_quotient ∷ [])).end
        ≡ fault_at 2 TypeKind }
    ensures weak_range { (ran (bind (codes "x") (number 18446744073709551615)
        ∷ update (codes "x") Add (number 1) ∷ [])).end ≡ fault_at 2 Range }
    ensures index_before_value { (step
        (update_at_part (codes "a") (picks (pos 3) ∷ []) Add no_quotient)
        (a_stands (3 ∷ []) (map pos (7 ∷ 7 ∷ 7 ∷ [])))).fault ≡ Some Index }
    ensures value_before_operation { (step
        (update_at_part (codes "a") (whole_axis ∷ []) Add
        (arith Add (ones_of 2 Int8) (name (codes "zz"))))
        (a_stands (3 ∷ []) (map pos (7 ∷ 7 ∷ 7 ∷ [])))).fault ≡ Some Name }
    ensures operation { (step (update (codes "a") Add (ones_of 2 Int8))
        (a_stands (3 ∷ []) (map pos (7 ∷ 7 ∷ 7 ∷ [])))).fault ≡ Some Shape }
    ensures operation_before_right { (ran
        (bind (codes "b") (broadcast_to (ones_of 1 Int8) (one (number 2)))
        ∷ update (codes "b") Add (number 300) ∷ [])).end ≡ fault_at 2 Range }
    ensures right { (ran (bind (codes "b") (broadcast_to (ones_of 1 Bool) (one (number 2)))
        ∷ update (codes "b") Add (number 1) ∷ [])).end ≡ fault_at 2 ReadOnly }
    ensures right_of_transpose { (ran (bind (codes "x") (transpose (number 3) no_shape)
        ∷ update (codes "x") Add (number 1) ∷ [])).end ≡ fault_at 2 ReadOnly }
    ensures scalar_part { (ran (bind (codes "s") one_scalar
        ∷ update_at_part (codes "s") (ellipsis ∷ []) Add (number 1) ∷ [])).end
        ≡ fault_at 2 ReadOnly }
    ensures lower_kind { (ran (bind (codes "c") (ones_of 2 UInt8)
        ∷ update (codes "c") Add (ones_of 2 Int8) ∷ [])).end ≡ fault_at 2 TypeKind }
    ensures lower_kind_of_element { (ran
        (bind (codes "c") (ones_of 2 UInt8)
        ∷ update_at_part (codes "c") (picks (pos 0) ∷ []) Add one_scalar ∷ [])).end
        ≡ fault_at 2 TypeKind }
    ensures to_bool { (ran (bind (codes "c") (ones_of 2 Bool)
        ∷ update (codes "c") Add (number 1) ∷ [])).end ≡ fault_at 2 TypeKind }
    ensures kind_before_shape { (ran (bind (codes "c") (ones_of 2 UInt8)
        ∷ update (codes "c") Add (ones (sizes (2 ∷ 2 ∷ [])) (Some Int8)) ∷ [])).end
        ≡ fault_at 2 TypeKind }
    ensures more_axes { (step (update (codes "a") Add (ones (sizes (1 ∷ 3 ∷ [])) None))
        (a_stands (3 ∷ []) (map pos (7 ∷ 7 ∷ 7 ∷ [])))).fault ≡ Some Shape }
    ensures part_before_operation { step (update (codes "a") FloorDiv to_below)
        (a_stands (1 ∷ []) (pos 7 ∷ []))
        ≡ record { state = a_stands (1 ∷ []) (pos 0 ∷ []); text = []; fault = Some Power } }
    ensures index_type { (step (update_at_part (codes "a") (at (truth true) ∷ []) Add no_quotient)
        (a_stands (1 ∷ []) (pos 7 ∷ []))).fault ≡ Some TypeKind }
    ensures operation_type { (ran (bind (codes "b")
        (broadcast_to (ones_of 1 UInt64) (one (number 2))) ∷ update (codes "b") Add (ones_of 3 Int8)
        ∷ [])).end ≡ fault_at 2 TypeKind }
    ensures operation_shape { (ran (bind (codes "a") (ones (sizes (2 ∷ 1 ∷ [])) None)
        ∷ update (codes "a") Add (ones_of 2 Int8) ∷ [])).end ≡ fault_at 2 Shape }
{}

/// Views that are bound share the elements of their array, and may be written where it may.
pub fn shared_runs_by_example()
    ensures repeated { ran (bind (codes "a") (counted_to 2)
        ∷ bind (codes "b") (broadcast_to (name (codes "a")) (sizes (2 ∷ 2 ∷ [])))
        ∷ put_at (codes "a") (picks (pos 0) ∷ []) (number 9) ∷ print (name (codes "b")) ∷ [])
        ≡ record { text = codes "[[9, 1], [9, 1]]\n"; end = done } }
    ensures part_of_part { ran (bind (codes "a") (counted_to 4)
        ∷ bind (codes "b") (indexed_by (name (codes "a")) (cut (Some (pos 1)) None ∷ []))
        ∷ bind (codes "c") (indexed_by (name (codes "b")) (cut (Some (pos 1)) None ∷ []))
        ∷ put_at (codes "c") (picks (pos 0) ∷ []) (number 9) ∷ print (name (codes "a")) ∷ [])
        ≡ record { text = codes "[0, 1, 9, 3]\n"; end = done } }
    ensures updated { ran (bind (codes "a") (ordered (2 ∷ 2 ∷ []))
        ∷ bind (codes "t") (transpose (name (codes "a")) no_shape)
        ∷ bind (codes "r") (indexed_by (name (codes "t")) (picks (pos 1) ∷ []))
        ∷ update (codes "r") Mul (number 10) ∷ print (name (codes "a")) ∷ print (name (codes "t"))
        ∷ []) ≡ record { text = codes "[[0, 10], [2, 30]]\n[[0, 2], [10, 30]]\n"; end = done } }
    ensures changed { ran (bind (codes "a") (counted_to 2)
        ∷ bind (codes "b") (reshape (name (codes "a")) (one (number 2)))
        ∷ bind (codes "c") (flatten (name (codes "a")))
        ∷ bind (codes "d") (as_type (name (codes "a")) Int64)
        ∷ bind (codes "e") (arith Add (name (codes "a")) (number 0))
        ∷ put_at (codes "a") (whole_axis ∷ []) (number 9) ∷ print (name (codes "b"))
        ∷ print (name (codes "c")) ∷ print (name (codes "d")) ∷ print (name (codes "e")) ∷ [])
        ≡ record { text = codes "[0, 1]\n[0, 1]\n[0, 1]\n[0, 1]\n"; end = done } }
    ensures read_only { ran (bind (codes "a") (counted_to 2)
        ∷ bind (codes "b") (broadcast_to (name (codes "a")) (one (number 2)))
        ∷ bind (codes "c") (indexed_by (name (codes "b")) (cut (Some (pos 1)) None ∷ []))
        ∷ put_at (codes "c") (picks (pos 0) ∷ []) (number 1) ∷ [])
        ≡ record { text = []; end = fault_at 4 ReadOnly } }
{}
