//! Loops.
ghost use Rattle.std.specs.Prelude.{◌≡◌, [], ◌∷◌, None, codes, true};
ghost use Rattle.lg_tree.specs.declared.kinds.Arith.TheVariants.{Add, FloorDiv, Sub};
ghost use Rattle.lg_tree.specs.Tree.{arith, bind, full, line_trees, loop, name, neg, no_lines, no_tree, number, one, print, some_tree, truth, update};
ghost use Rattle.lg_meaning.specs.declared.fault.FaultKind.TheVariants.{Divisor, Limit, Name, Range, TypeKind};
ghost use Rattle.lg_meaning.specs.Run.{done, fault_at, run_lines, start};
ghost use Rattle.lg_meaning.specs.Examples.{counted_already, no_quotient, numbered, ran};

/// The turns of a loop.
pub fn loops_by_example()
    ensures sum { ran (bind (codes "x") (number 0)
        ∷ loop (codes "i") (some_tree (number 2)) (number 4)
        (line_trees (numbered 3 (update (codes "x") Add (name (codes "i")) ∷ [])))
        ∷ print (name (codes "x")) ∷ []) ≡ record { text = codes "5\n"; end = done } }
    ensures from_below { ran (loop (codes "i") (some_tree (neg (number 2))) (number 1)
        (line_trees (numbered 2 (print (name (codes "i")) ∷ []))) ∷ [])
        ≡ record { text = codes "-2\n-1\n0\n"; end = done } }
    ensures no_turn { ran (bind (codes "i") (number 7)
        ∷ loop (codes "i") (some_tree (number 3)) (number 3)
        (line_trees (numbered 3 (print (name (codes "zz")) ∷ [])))
        ∷ print (name (codes "i")) ∷ [])
        ≡ record { text = codes "7\n"; end = done } }
    ensures bound_first { ran (bind (codes "n") (number 2)
        ∷ loop (codes "i") no_tree (name (codes "n")) (line_trees (numbered 3
        (print (name (codes "i")) ∷ bind (codes "n") (number 9)
        ∷ bind (codes "i") (number 8) ∷ [])))
        ∷ print (name (codes "i")) ∷ [])
        ≡ record { text = codes "0\n1\n8\n"; end = done } }
    ensures nested { ran (loop (codes "i") no_tree (number 2) (line_trees (numbered 2
        (loop (codes "j") no_tree (name (codes "i")) (line_trees (numbered 3
        (print (arith Add (name (codes "i")) (name (codes "j"))) ∷ []))) ∷ []))) ∷ [])
        ≡ record { text = codes "1\n"; end = done } }
    ensures fault_in_turn { ran (loop (codes "i") no_tree (number 3) (line_trees (numbered 2
        (print (arith FloorDiv (number 6) (arith Sub (number 1) (name (codes "i")))) ∷ []))) ∷ [])
        ≡ record { text = codes "6\n"; end = fault_at 2 Divisor } }
{}

/// Faults of a `for` line, and the limit of statements.
pub fn loop_faults_by_example()
    ensures array_bound { (ran (loop (codes "i") no_tree (full (one (number 1)) (number 3) None)
        no_lines ∷ [])).end ≡ fault_at 1 TypeKind }
    ensures truth_bound { (ran (loop (codes "i") no_tree (truth true) no_lines ∷ [])).end
        ≡ fault_at 1 TypeKind }
    ensures name_first { (ran (loop (codes "i") (some_tree (truth true)) (name (codes "zz"))
        no_lines ∷ [])).end ≡ fault_at 1 Name }
    ensures bounds_range { (ran (loop (codes "i") no_tree (arith Add (number 18446744073709551615)
        (number 1)) no_lines ∷ [])).end ≡ fault_at 1 Range }
    ensures last_statement { run_lines
        (line_trees (numbered 1 (bind (codes "x") (name (codes "zz")) ∷ [])))
        (counted_already 99999) ≡ record
        { state = start; count = 100000; text = []; end = fault_at 1 Name } }
    ensures too_many { run_lines (line_trees
        (numbered 1 (bind (codes "x") (name (codes "zz")) ∷ []))) (counted_already 100000)
        ≡ record { state = start; count = 100000; text = []; end = fault_at 1 Limit } }
    ensures in_turn { (run_lines (line_trees
        (numbered 1 (loop (codes "i") no_tree (number 3)
        (line_trees (numbered 2 (print (name (codes "i")) ∷ []))) ∷ [])))
        (counted_already 99997)).text ≡ codes "0\n1\n" }
    ensures in_turn_end { (run_lines
        (line_trees (numbered 1 (loop (codes "i") no_tree (number 3)
        (line_trees (numbered 2 (print (name (codes "i")) ∷ []))) ∷ [])))
        (counted_already 99997)).end ≡ fault_at 2 Limit }
    ensures for_line { (run_lines (line_trees (numbered 1 (loop (codes "i") no_tree (truth true)
        no_lines ∷ []))) (counted_already 100000)).end ≡ fault_at 1 Limit }
    ensures empty_loops { (run_lines (line_trees (numbered 1
        (loop (codes "i") no_tree (number 0) no_lines ∷ loop (codes "i") no_tree (number 0) no_lines
        ∷ []))) (counted_already 99998)).count ≡ 100000 }
    ensures first_bound { (ran (loop (codes "i") (some_tree (name (codes "zz"))) no_quotient
        no_lines ∷ [])).end ≡ fault_at 1 Name }
    ensures second_bound { (ran (loop (codes "i") (some_tree no_quotient) (name (codes "zz"))
        no_lines ∷ [])).end ≡ fault_at 1 Divisor }
{}
