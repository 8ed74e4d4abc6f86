//! Whole runs.
ghost use Rattle.std.specs.Prelude.{◌≡◌, [], ◌∷◌, None, codes, pos};
ghost use Rattle.lg_elem.specs.declared.dtype.DType.TheVariants.{Int64, Int8};
ghost use Rattle.lg_tree.specs.declared.kinds.Arith.TheVariants.{Add, FloorDiv};
ghost use Rattle.lg_tree.specs.declared.kinds.Red.TheVariants.{Max};
ghost use Rattle.lg_tree.specs.Tree.{arith, bind, full, matmul, name, no_shape, no_tree, number, one, print, reduce, some_tree, take, transpose, zeros};
ghost use Rattle.lg_meaning.specs.declared.fault.FaultKind.TheVariants.{Divisor, Index, Name, Shape};
ghost use Rattle.lg_meaning.specs.Run.{done, fault_at, run};
ghost use Rattle.lg_meaning.specs.Examples.{ones_of, ordered, ran, vector_of};

/// A whole run: what is printed before the first fault, and that fault with its line.
pub fn runs_by_example()
    ensures sums { run (record {
      number = 1;
      statement = print (arith Add
          (full (one (number 3)) (number 7) None) (number 7));
    } ∷ [])
        ≡ record { text = codes "[14, 14, 14]\n"; end = done } }
    ensures stops { run (record { number = 2; statement = print (ones_of 1 Int8) }
        ∷ record { number = 4; statement = print (arith Add (ones_of 2 Int8) (ones_of 3 Int8)) }
        ∷ record { number = 5; statement = print (number 6) } ∷ [])
        ≡ record { text = codes "[1]\n"; end = fault_at 4 Shape } }
    ensures bound { run (record { number = 1; statement = bind (codes "a") (ones_of 2 Int8) }
        ∷ record { number = 2; statement = bind (codes "b") (name (codes "a")) }
        ∷ record { number = 3; statement = bind (codes "a") (number 9) }
        ∷ record { number = 4; statement = print (name (codes "b")) }
        ∷ record {
          number = 5;
          statement = print (arith Add (name (codes "a"))
              (name (codes "b")));
        } ∷ [])
        ≡ record { text = codes "[1, 1]\n[10, 10]\n"; end = done } }
    ensures lost { run (record { number = 1; statement = bind (codes "a") (number 5) }
        ∷ record { number = 2; statement = print (name (codes "a")) }
        ∷ record { number = 3; statement = print (name (codes "b")) } ∷ [])
        ≡ record { text = codes "5\n"; end = fault_at 3 Name } }
    ensures data_fault { run (record {
      number = 1;
      statement = bind (codes "a")
          (zeros (one (number 2)) None);
    }
        ∷ record {
          number = 2;
          statement = bind (codes "b") (arith FloorDiv (name (codes "a"))
              (name (codes "a")));
        }
        ∷ record { number = 3; statement = bind (codes "c") (name (codes "zz")) } ∷ [])
        ≡ record { text = []; end = fault_at 2 Divisor } }
    ensures product { ran (bind (codes "a") (ordered (2 ∷ 3 ∷ []))
        ∷ print (matmul (name (codes "a")) (transpose (name (codes "a")) no_shape))
        ∷ print (reduce Max (name (codes "a")) (some_tree (number 0)))
        ∷ print (take (name (codes "a")) (vector_of Int64 (pos 6 ∷ [])) no_tree) ∷ [])
        ≡ record { text = codes "[[5, 14], [14, 50]]\n[3, 4, 5]\n"; end = fault_at 4 Index } }
{}
