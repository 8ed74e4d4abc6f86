//! What a statement does.
ghost use Rattle.std.specs.Prelude.{◌≡◌, [], ◌∷◌, ◌++◌, None, Some, codes, map, negsuc, pos, true};
ghost use Rattle.std.specs.FinMap.{get};
ghost use Rattle.lg_elem.specs.declared.dtype.DType.TheVariants.{Int64, Int8};
ghost use Rattle.lg_tree.specs.declared.kinds.Arith.TheVariants.{Add, FloorDiv, Rem, Sub};
ghost use Rattle.lg_tree.specs.Tree.{apply, arith, bind, ellipsis, name, new_axis, number, one, print, truth, zeros};
ghost use Rattle.lg_meaning.specs.declared.fault.FaultKind.TheVariants.{Divisor, Name, Power, Shape};
ghost use Rattle.lg_meaning.specs.Weak.{integer};
ghost use Rattle.lg_meaning.specs.Memory.{array as array_bound, weak as weak_bound, whole_view, writable};
ghost use Rattle.lg_meaning.specs.Step.{step};
ghost use Rattle.lg_meaning.specs.Run.{start};
ghost use Rattle.lg_meaning.specs.Examples.{a_bound, a_stands, a_view, both_bound, by_zero, cut, indexed_by, no_quotient, ones_of, picks, to_below, vector};

/// What one statement does to the state: a name is bound, bound anew, or nothing changes where
/// there is a static fault; with a fault of an element the state is the one after the statement.
pub fn steps_by_example()
    ensures bound { step (bind (codes "b") (name (codes "a"))) (a_bound (pos 7))
        ≡ record { state = both_bound; text = []; fault = None } }
    ensures bound_anew { get
        (step (bind (codes "a") (ones_of 2 Int8)) (a_bound (pos 7))).state.names
        (codes "a") ≡ Some (array_bound (whole_view 1 (vector Int8 2))) }
    ensures new_root { (step (bind (codes "a") (ones_of 2 Int8)) (a_bound (pos 7))).state.memory
        ≡ (a_bound (pos 7)).memory
        ++ record { dtype = Int8; shape = 2 ∷ []; numbers = pos 1 ∷ pos 1 ∷ [] } ∷ [] }
    ensures weak { get (step (bind (codes "a") (number 3)) (a_bound (pos 7))).state.names
        (codes "a") ≡ Some (weak_bound (integer (pos 3))) }
    ensures printed { step (print (name (codes "a"))) (a_bound (pos 7))
        ≡ record { state = a_bound (pos 7); text = codes "[7]\n"; fault = None } }
    ensures printed_weak { (step (print (truth true)) start).text ≡ codes "True\n" }
    ensures faulted { step (bind (codes "a") (name (codes "b"))) (a_bound (pos 7))
        ≡ record { state = a_bound (pos 7); text = []; fault = Some Name } }
    ensures print_faulted { step (print (arith Add (ones_of 2 Int8) (ones_of 3 Int8)))
        (a_bound (pos 7)) ≡ record { state = a_bound (pos 7); text = []; fault = Some Shape } }
    ensures divided { (step (bind (codes "b") (arith FloorDiv (name (codes "a")) (arith Sub
        (name (codes "a")) (name (codes "a"))))) (a_bound (pos 7))).fault ≡ Some Divisor }
    ensures zero_kept { (step (bind (codes "b") (arith FloorDiv (name (codes "a")) (arith Sub
        (name (codes "a")) (name (codes "a"))))) (a_bound (pos 7))).state.memory
        ≡ (a_bound (pos 7)).memory
        ++ record { dtype = Int64; shape = 1 ∷ []; numbers = pos 0 ∷ [] } ∷ [] }
    ensures nothing_printed { (step (print (arith Rem (name (codes "a")) (zeros (one (number 1))
        None))) (a_bound (pos 7))).text ≡ [] }
    ensures printed_great { (step (print (number 18446744073709551615)) start).text
        ≡ codes "18446744073709551615\n" }
    ensures print_divided { step (print by_zero) start
        ≡ record { state = start; text = []; fault = Some Divisor } }
    ensures view_bound { (step (bind (codes "b")
        (indexed_by (name (codes "a")) (new_axis ∷ picks (negsuc 0) ∷ ellipsis ∷ [])))
        (a_stands (3 ∷ []) (map pos (7 ∷ 8 ∷ 9 ∷ [])))).state.memory
        ≡ (a_stands (3 ∷ []) (map pos (7 ∷ 8 ∷ 9 ∷ []))).memory }
    ensures view_named { get (step (bind (codes "b")
        (indexed_by (name (codes "a")) (new_axis ∷ picks (negsuc 0) ∷ ellipsis ∷ [])))
        (a_stands (3 ∷ []) (map pos (7 ∷ 8 ∷ 9 ∷ [])))).state.names (codes "b")
        ≡ Some (array_bound (a_view (1 ∷ []) writable (2 ∷ []))) }
    ensures element_bound { (step (bind (codes "b")
        (indexed_by (name (codes "a")) (picks (pos 1) ∷ [])))
        (a_stands (3 ∷ []) (map pos (7 ∷ 8 ∷ 9 ∷ [])))).state.memory
        ≡ (a_stands (3 ∷ []) (map pos (7 ∷ 8 ∷ 9 ∷ []))).memory
        ++ record { dtype = Int64; shape = []; numbers = pos 8 ∷ [] } ∷ [] }
    ensures new_view { (step (bind (codes "b")
        (indexed_by (arith Add (name (codes "a")) (number 1)) (cut (Some (pos 1)) None ∷ [])))
        (a_stands (3 ∷ []) (map pos (7 ∷ 8 ∷ 9 ∷ [])))).state.memory
        ≡ (a_stands (3 ∷ []) (map pos (7 ∷ 8 ∷ 9 ∷ []))).memory
        ++ record { dtype = Int64; shape = 2 ∷ []; numbers = map pos (9 ∷ 10 ∷ []) } ∷ [] }
    ensures no_operation { (step (print (apply (codes "mix") no_quotient (number 1))) start).fault
        ≡ Some Name }
    ensures left_to_right { step (print (arith Add to_below by_zero)) start
        ≡ record { state = start; text = []; fault = Some Power } }
{}
