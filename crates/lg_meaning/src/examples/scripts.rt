//! Whole scripts, one for each part of the language.
ghost use Rattle.std.specs.Prelude.{◌≡◌, [], ◌∷◌, None, Some, codes, false, map, negsuc, pos, true};
ghost use Rattle.lg_elem.specs.declared.dtype.DType.TheVariants.{Bool, Int32, Int64, Int8, UInt64, UInt8};
ghost use Rattle.lg_elem.specs.declared.kinds.Compare.TheVariants.{Eq, Gt};
ghost use Rattle.lg_tree.specs.declared.kinds.Arith.TheVariants.{Add, BitAnd, FloorDiv, Pow, Rem, Shr, Sub};
ghost use Rattle.lg_tree.specs.declared.kinds.Red.TheVariants.{Any, Max, Min, Prod, Sum};
ghost use Rattle.lg_tree.specs.Tree.{arith, bind, choose, compare, full, line_trees, loop, matmul, name, neg, new_axis, no_tree, number, one, print, reduce, reshape, some_tree, stencil, take, truth, zeros};
ghost use Rattle.lg_meaning.specs.declared.fault.FaultKind.TheVariants.{Divisor, Index, Power, Range, Shape, Step, TypeKind};
ghost use Rattle.lg_meaning.specs.Run.{done, fault_at};
ghost use Rattle.lg_meaning.specs.Examples.{array_of, counted_to, cut, grid_of, indexed_by, numbered, ordered, picks, put_at, ran, row_of, sizes, sliced, tuple_of, vector_of, whole_axis};

/// Scripts of elements, types and faults.
pub fn element_scripts_by_example()
    ensures wrapped { ran (bind (codes "a") (full (one (number 2)) (number 100) (Some Int8))
        ∷ print (arith Add (name (codes "a")) (name (codes "a"))) ∷ [])
        ≡ record { text = codes "[-56, -56]\n"; end = done } }
    ensures no_common_type { ran (bind (codes "a") (full (one (number 2)) (number 1) None)
        ∷ print (name (codes "a")) ∷ bind (codes "b")
        (full (one (number 2)) (number 1) (Some UInt64))
        ∷ print (arith Add (name (codes "a")) (name (codes "b"))) ∷ [])
        ≡ record { text = codes "[1, 1]\n"; end = fault_at 4 TypeKind } }
    ensures floors { ran (bind (codes "a") (full (one (number 1)) (neg (number 7)) None)
        ∷ print (arith FloorDiv (name (codes "a")) (number 2))
        ∷ print (arith Rem (name (codes "a")) (number 2)) ∷ [])
        ≡ record { text = codes "[-4]\n[1]\n"; end = done } }
    ensures zero_divisor { ran (bind (codes "a") (counted_to 3) ∷ print (name (codes "a"))
        ∷ bind (codes "b") (arith FloorDiv (full (one (number 3)) (number 1) None)
        (name (codes "a"))) ∷ print (name (codes "b")) ∷ [])
        ≡ record { text = codes "[0, 1, 2]\n"; end = fault_at 3 Divisor } }
    ensures weak_range { ran (bind (codes "a") (full (one (number 3)) (number 200) (Some UInt8))
        ∷ print (arith Add (name (codes "a")) (number 56))
        ∷ print (arith Add (name (codes "a")) (number 256)) ∷ [])
        ≡ record { text = codes "[0, 0, 0]\n"; end = fault_at 3 Range } }
    ensures wider { ran (print (arith Add (full (one (number 1)) (neg (number 1)) (Some Int8))
        (full (one (number 1)) (number 255) (Some UInt8))) ∷ [])
        ≡ record { text = codes "[254]\n"; end = done } }
    ensures compared { ran (print (compare Gt
        (full (one (number 1)) (number 18446744073709551615) (Some UInt64))
        (full (one (number 1)) (neg (number 1)) None)) ∷ [])
        ≡ record { text = codes "[True]\n"; end = done } }
    ensures truths { ran (bind (codes "a") (array_of (truth true ∷ truth false ∷ []) Bool)
        ∷ print (arith Add (name (codes "a")) (truth true)) ∷ print (neg (name (codes "a"))) ∷ [])
        ≡ record { text = codes "[True, True]\n"; end = fault_at 3 TypeKind } }
    ensures shifts_and_powers { ran (print
        (arith Shr (full (one (number 1)) (neg (number 8)) (Some Int8))
        (full (one (number 1)) (number 9) (Some Int8)))
        ∷ print (arith Pow (full (one (number 1)) (number 2) None)
        (full (one (number 1)) (neg (number 1)) None)) ∷ [])
        ≡ record { text = codes "[-1]\n"; end = fault_at 2 Power } }
    ensures chosen { ran (bind (codes "a") (counted_to 4)
        ∷ print (choose (compare Eq (arith Rem (name (codes "a")) (number 2)) (number 0))
        (name (codes "a")) (neg (name (codes "a")))) ∷ [])
        ≡ record { text = codes "[0, -1, 2, -3]\n"; end = done } }
    ensures weak { ran (print (arith BitAnd (number 1) (number 3))
        ∷ print (arith Add (truth true) (truth true))
        ∷ print (arith Sub (neg (number 9223372036854775808)) (number 1)) ∷ [])
        ≡ record { text = codes "1\n2\n"; end = fault_at 3 Range } }
{}

/// Scripts of views, writes, loops and computations on whole arrays.
pub fn array_scripts_by_example()
    ensures least_of_nothing { ran (bind (codes "a") (zeros (one (number 0)) (Some Int32))
        ∷ print (reduce Sum (name (codes "a")) no_tree)
        ∷ print (reduce Min (name (codes "a")) no_tree) ∷ [])
        ≡ record { text = codes "0\n"; end = fault_at 3 Shape } }
    ensures neighbours { ran (bind (codes "a") (counted_to 4)
        ∷ bind (codes "c") (indexed_by (name (codes "a")) (cut (Some (pos 1)) None ∷ []))
        ∷ bind (codes "n") (indexed_by (name (codes "a")) (cut None (Some (negsuc 0)) ∷ []))
        ∷ loop (codes "t") no_tree (number 2)
        (line_trees (numbered 5 (put_at (codes "c") (whole_axis ∷ [])
        (arith Add (name (codes "c")) (name (codes "n"))) ∷ []))) ∷ print (name (codes "a")) ∷ [])
        ≡ record { text = codes "[0, 1, 4, 8]\n"; end = done } }
    ensures index { ran (bind (codes "a") (counted_to 3)
        ∷ print (indexed_by (name (codes "a")) (picks (negsuc 0) ∷ []))
        ∷ print (indexed_by (name (codes "a")) (picks (pos 3) ∷ [])) ∷ [])
        ≡ record { text = codes "2\n"; end = fault_at 3 Index } }
    ensures five_axes { ran (bind (codes "a") (full (sizes (2 ∷ 2 ∷ 2 ∷ 2 ∷ [])) (number 1) None)
        ∷ print (indexed_by (name (codes "a")) (new_axis ∷ [])) ∷ [])
        ≡ record { text = []; end = fault_at 2 Shape } }
    ensures step { ran (bind (codes "a") (counted_to 3)
        ∷ print (indexed_by (name (codes "a"))
        (sliced (Some (pos 1)) (Some (pos 3)) (Some (pos 0)) ∷ [])) ∷ [])
        ≡ record { text = []; end = fault_at 2 Step } }
    ensures reshaped { ran (print (reshape (ordered (2 ∷ 3 ∷ []))
        (tuple_of (number 3 ∷ neg (number 1) ∷ []))) ∷ [])
        ≡ record { text = codes "[[0, 1], [2, 3], [4, 5]]\n"; end = done } }
    ensures reduced { ran (bind (codes "a")
        (grid_of Int64 (map (map pos) ((5 ∷ 1 ∷ []) ∷ (2 ∷ 9 ∷ []) ∷ [])))
        ∷ print (reduce Max (name (codes "a")) (some_tree (neg (number 1))))
        ∷ print (reduce Any (name (codes "a")) no_tree)
        ∷ print (reduce Prod (zeros (sizes (0 ∷ 2 ∷ [])) None) (some_tree (number 0))) ∷ [])
        ≡ record { text = codes "[5, 9]\nTrue\n[1, 1]\n"; end = done } }
    ensures taken { ran (bind (codes "i") (vector_of Int64 (negsuc 0 ∷ pos 0 ∷ []))
        ∷ print (take (counted_to 4) (name (codes "i")) no_tree)
        ∷ bind (codes "j") (vector_of Int64 (pos 4 ∷ []))
        ∷ print (take (counted_to 4) (name (codes "j")) no_tree) ∷ [])
        ≡ record { text = codes "[3, 0]\n"; end = fault_at 4 Index } }
    ensures products { ran (bind (codes "a") (grid_of Int8 (map (map pos) ((100 ∷ 100 ∷ []) ∷ [])))
        ∷ bind (codes "b") (grid_of Int8 (map (map pos) ((1 ∷ []) ∷ (1 ∷ []) ∷ [])))
        ∷ print (matmul (name (codes "a")) (name (codes "b"))) ∷ [])
        ≡ record { text = codes "[[-56]]\n"; end = done } }
    ensures stencilled { ran (print (stencil (vector_of Int64 (map pos (1 ∷ 2 ∷ 3 ∷ [])))
        (row_of (map pos (1 ∷ 1 ∷ 1 ∷ [])))) ∷ [])
        ≡ record { text = codes "[3, 6, 5]\n"; end = done } }
    ensures empty { ran (print (zeros (sizes (2 ∷ 0 ∷ [])) None)
        ∷ print (zeros (sizes (0 ∷ 2 ∷ [])) None) ∷ [])
        ≡ record { text = codes "[[], []]\n[]\n"; end = done } }
{}
