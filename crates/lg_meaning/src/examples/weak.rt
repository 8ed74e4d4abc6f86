//! Weak numbers.
ghost use Rattle.std.specs.Prelude.{◌≡◌, [], ◌∷◌, Err, None, Ok, Some, false, negsuc, pos, true};
ghost use Rattle.lg_elem.specs.declared.dtype.DType.TheVariants.{Bool, Int64};
ghost use Rattle.lg_elem.specs.declared.kinds.Compare.TheVariants.{Eq, Ge, Gt, Le, Lt, Ne};
ghost use Rattle.lg_tree.specs.declared.kinds.Arith.TheVariants.{Add, BitAnd, BitOr, BitXor, FloorDiv, Mul, Pow, Rem, Shl, Shr, Sub};
ghost use Rattle.lg_tree.specs.Tree.{abs, arith, choose, compare, invert, maximum, minimum, neg, number, truth};
ghost use Rattle.lg_meaning.specs.declared.fault.FaultKind.TheVariants.{Divisor, Power, Range, TypeKind};
ghost use Rattle.lg_meaning.specs.Weak.{truth as weak_truth};
ghost use Rattle.lg_meaning.specs.Static.{weak_value};
ghost use Rattle.lg_meaning.specs.Value.{plain};
ghost use Rattle.lg_meaning.specs.Expressions.{static_of};
ghost use Rattle.lg_meaning.specs.Run.{start};
ghost use Rattle.lg_meaning.specs.Examples.{a_scalar, a_weak, known, numbers, value};

/// Arithmetic on weak numbers alone is over whole numbers, in their range.
pub fn weak_numbers_by_example()
    ensures sum { static_of (arith Add (truth true) (truth true)) start.names ≡ a_weak (pos 2) }
    ensures floor { static_of (arith FloorDiv (neg (number 7)) (number 2)) start.names
        ≡ a_weak (negsuc 3) }
    ensures rest { static_of (arith Rem (number 7) (neg (number 2))) start.names
        ≡ a_weak (negsuc 0) }
    ensures product { static_of (arith Mul (number 4294967296) (number 4294967295)) start.names
        ≡ a_weak (pos 18446744069414584320) }
    ensures negative { static_of (neg (truth true)) start.names ≡ a_weak (negsuc 0) }
    ensures greatest { static_of (arith Add (number 18446744073709551614) (number 1)) start.names
        ≡ a_weak (pos 18446744073709551615) }
    ensures above { static_of (arith Add (number 18446744073709551615) (number 1)) start.names
        ≡ Err Range }
    ensures least { static_of (neg (number 9223372036854775808)) start.names
        ≡ a_weak (negsuc 9223372036854775807) }
    ensures below { static_of (neg (number 9223372036854775809)) start.names ≡ Err Range }
    ensures divisor { static_of (arith FloorDiv (number 1) (number 0)) start.names
        ≡ Err Divisor }
    ensures compared { static_of (compare Lt (neg (number 1)) (truth false)) start.names
        ≡ Ok (weak_value (weak_truth true)) }
    ensures scalar { static_of (arith BitAnd (number 1) (number 3)) start.names
        ≡ a_scalar Int64 }
    ensures and { value (arith BitAnd (number 1) (number 3))
        ≡ record { shape = []; numbers = pos 1 ∷ []; fault = None } }
    ensures truths { static_of (arith BitAnd (truth true) (truth false)) start.names
        ≡ a_scalar Bool }
    ensures too_great { static_of (arith BitAnd (number 9223372036854775808) (number 1))
        start.names ≡ Err Range }
    ensures no_shift { static_of (arith Shl (truth true) (truth true)) start.names
        ≡ Err TypeKind }
    ensures difference { known (arith Sub (truth false) (number 7)) ≡ a_weak (negsuc 6) }
    ensures rest_divisor { known (arith Rem (number 1) (truth false)) ≡ Err Divisor }
    ensures truth_rest { known (arith Rem (truth true) (truth true)) ≡ a_weak (pos 0) }
    ensures least_quotient { known (arith FloorDiv (neg (number 9223372036854775808))
        (neg (number 1))) ≡ a_weak (pos 9223372036854775808) }
    ensures power { known (arith Pow (number 2) (number 3)) ≡ a_scalar Int64 }
    ensures power_below { value (arith Pow (number 2) (neg (number 1)))
        ≡ record { shape = []; numbers = pos 0 ∷ []; fault = Some Power } }
    ensures truth_shift { numbers (arith Shl (truth true) (number 1)) ≡ pos 2 ∷ [] }
    ensures both_kinds { known (arith BitAnd (truth true) (number 3)) ≡ a_scalar Int64 }
    ensures inverted { numbers (invert (number 5)) ≡ negsuc 5 ∷ [] }
    ensures inverted_truth { numbers (invert (truth true)) ≡ pos 0 ∷ [] }
    ensures inverted_range { known (invert (number 9223372036854775808)) ≡ Err Range }
    ensures absolute_truth { known (abs (truth true)) ≡ a_scalar Bool }
    ensures apart { known (compare Eq (number 18446744073709551615) (neg (number 1)))
        ≡ Ok (weak_value (weak_truth false)) }
    ensures least_reached { known (arith Sub (neg (number 9223372036854775807)) (number 1))
        ≡ a_weak (negsuc 9223372036854775807) }
    ensures below_least { known (arith Sub (neg (number 9223372036854775808)) (truth true))
        ≡ Err Range }
    ensures truth_quotient { known (arith FloorDiv (truth true) (truth true)) ≡ a_weak (pos 1) }
{}

/// Comparisons of weak numbers are weak truth values; what is no arithmetic makes scalars.
pub fn weak_others_by_example()
    ensures equal { known (compare Eq (number 1) (truth true)) ≡ Ok (weak_value (weak_truth true)) }
    ensures not_equal { known (compare Ne (number 1) (number 1))
        ≡ Ok (weak_value (weak_truth false)) }
    ensures less { known (compare Lt (number 1) (number 1)) ≡ Ok (weak_value (weak_truth false)) }
    ensures at_most { known (compare Le (number 1) (number 1)) ≡ Ok (weak_value (weak_truth true)) }
    ensures greater { known (compare Gt (number 1) (number 1))
        ≡ Ok (weak_value (weak_truth false)) }
    ensures at_least { known (compare Ge (number 1) (number 1))
        ≡ Ok (weak_value (weak_truth true)) }
    ensures no_power { known (arith Pow (truth true) (truth true)) ≡ Err TypeKind }
    ensures no_left_shift { known (arith Shl (truth true) (truth true)) ≡ Err TypeKind }
    ensures no_right_shift { known (arith Shr (truth true) (truth true)) ≡ Err TypeKind }
    ensures either { numbers (arith BitOr (number 5) (number 3)) ≡ pos 7 ∷ [] }
    ensures one_of_two { numbers (arith BitXor (number 5) (number 3)) ≡ pos 6 ∷ [] }
    ensures shifted { numbers (arith Shr (neg (number 7)) (number 1)) ≡ negsuc 3 ∷ [] }
    ensures lesser { value (minimum (truth true) (number 0)) ≡ plain [] (pos 0 ∷ []) }
    ensures greater_range { known (maximum (truth true) (number 9223372036854775808)) ≡ Err Range }
    ensures chosen_truths { known (choose (number 2) (truth true) (truth false)) ≡ a_scalar Bool }
{}
