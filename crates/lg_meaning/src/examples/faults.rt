//! The order of faults.
ghost use Rattle.std.specs.Prelude.{◌≡◌, [], ◌∷◌, Err, None, Ok, Some, codes, negsuc, pos, true};
ghost use Rattle.lg_elem.specs.declared.dtype.DType.TheVariants.{Bool, Int64, Int8, UInt64};
ghost use Rattle.lg_shape.specs.Shapes.{joined_shape};
ghost use Rattle.lg_tree.specs.declared.kinds.Arith.TheVariants.{Add, FloorDiv, Shl};
ghost use Rattle.lg_tree.specs.Tree.{arange, arith, array, choose, full, list, name, neg, number, one, some_tree, truth, zeros};
ghost use Rattle.lg_meaning.specs.declared.fault.FaultKind.TheVariants.{Divisor, Limit, Name, Range, Shape, TypeKind};
ghost use Rattle.lg_meaning.specs.Memory.{writable};
ghost use Rattle.lg_meaning.specs.Static.{array_value, elementwise, made};
ghost use Rattle.lg_meaning.specs.Creation.{shaped};
ghost use Rattle.lg_meaning.specs.Expressions.{static_of};
ghost use Rattle.lg_meaning.specs.Run.{start};
ghost use Rattle.lg_meaning.specs.Examples.{a_vector, known, leaves, no_quotient, one_scalar, ones_of};

/// The first static fault: those of the parts from left to right, then type, range, shape, limit.
pub fn faults_by_example()
    ensures left { static_of (arith Add (name (codes "a")) (arith FloorDiv (number 1) (number 0)))
        start.names ≡ Err Name }
    ensures right { static_of (arith Add (arith FloorDiv (number 1) (number 0)) (name (codes "a")))
        start.names ≡ Err Divisor }
    ensures type_first { static_of (arith Shl (ones_of 2 Bool) (truth true)) start.names
        ≡ Err TypeKind }
    ensures range_first { static_of
        (choose (ones_of 2 Bool) (arith Add (ones_of 3 Int8) (number 1)) (number 300)) start.names
        ≡ Err Range }
    ensures shape { static_of (arith Add (ones_of 2 Int8) (ones_of 3 Int8)) start.names
        ≡ Err Shape }
    ensures type_before_shape { static_of (arith Add (ones_of 2 UInt64) (ones_of 3 Int8))
        start.names ≡ Err TypeKind }
    ensures extent { static_of (zeros (one (truth true)) None) start.names ≡ Err TypeKind }
    ensures negative { static_of (zeros (one (neg (number 1))) None) start.names ≡ Err Shape }
    ensures full_order { static_of (full (one (neg (number 1))) (number 300) (Some Int8))
        start.names ≡ Err Range }
    ensures full_array { static_of (full (one (neg (number 1))) (ones_of 1 Int8) None) start.names
        ≡ Err TypeKind }
    ensures limit { static_of (zeros (one (number 16777217)) None) start.names ≡ Err Limit }
    ensures greatest { static_of (zeros (one (number 16777216)) None) start.names
        ≡ a_vector Int64 16777216 }
    ensures name_in_list { known (array (list (leaves (ones_of 1 Int8 ∷ name (codes "a") ∷ [])))
        None) ≡ Err Name }
    ensures name_by_extent { known (full (one (truth true)) (name (codes "a")) None) ≡ Err Name }
    ensures extent_first { known (full (one no_quotient) (name (codes "a")) None) ≡ Err Divisor }
    ensures condition_first { known (choose no_quotient (name (codes "a")) (number 1))
        ≡ Err Divisor }
    ensures other_last { known (choose (number 1) (name (codes "a")) no_quotient) ≡ Err Name }
    ensures bounds { known (arange (some_tree (name (codes "a"))) no_quotient None) ≡ Err Name }
    ensures full_type { known (full (one (truth true)) (number 300) (Some Int8)) ≡ Err TypeKind }
    ensures scalar_extent { known (zeros (one one_scalar) None) ≡ Err TypeKind }
    ensures elements { made Int8 (4097 ∷ 4096 ∷ []) ≡ Err Limit }
    ensures beside_none { made Int8 (16777217 ∷ 0 ∷ []) ≡ Err Limit }
    ensures spread { elementwise Int8 (joined_shape (4097 ∷ 1 ∷ []) (4096 ∷ [])) ≡ Err Limit }
    ensures before_limit { shaped Int8 (pos 16777217 ∷ negsuc 0 ∷ []) ≡ Err Shape }
    ensures five_axes { shaped Int8 (pos 1 ∷ pos 1 ∷ pos 1 ∷ pos 1 ∷ pos 1 ∷ []) ≡ Err Shape }
    ensures no_axes { shaped Int8 []
        ≡ Ok (array_value (record { dtype = Int8; shape = []; right = writable })) }
{}
