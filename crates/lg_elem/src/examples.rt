//! Worked examples of the definitions. Each clause is computed by the check, so a definition that
//! says something else is refused, also where the code says the same. The values are NumPy's, and
//! this project's own where a divisor is 0, an exponent is below 0 or a shift is by no place of the
//! type, and in which operations bool has.
ghost use Rattle.std.specs.Prelude.{◌≡◌, ◌*◌, ◌^◌, true, false, pos, negsuc};
ghost use Rattle.lg_elem.specs.declared.dtype.DType.TheVariants.{Bool, Int8, Int16, Int32, Int64, UInt8, UInt16, UInt32, UInt64};
ghost use Rattle.lg_elem.specs.declared.kinds.Unary.TheVariants.{Neg, Invert, Abs};
ghost use Rattle.lg_elem.specs.declared.kinds.Binary.TheVariants.{Add, Sub, Mul, FloorDiv, Rem, Pow, BitAnd, BitOr, BitXor, Shl, Shr, Min, Max};
ghost use Rattle.lg_elem.specs.declared.kinds.Compare.TheVariants.{Eq, Ne, Lt, Le, Gt, Ge};
ghost use Rattle.lg_elem.specs.declared.kinds.Flag.TheVariants.{Clear, Divisor, Power};
ghost use Rattle.lg_elem.specs.Operations.{unary_of, binary_of, compare_of, is_allowed_unary, is_allowed_binary};

/// The negative, the other bits and the absolute value. The least value is its own negative.
pub fn unary_by_example()
    ensures negative { unary_of Neg Int8 (pos 5) ≡ negsuc 4 }
    ensures least_negative { unary_of Neg Int8 (negsuc 127) ≡ negsuc 127 }
    ensures unsigned_negative { unary_of Neg UInt8 (pos 1) ≡ pos 255 }
    ensures inverted { unary_of Invert Int16 (pos 5) ≡ negsuc 5 }
    ensures inverted_below { unary_of Invert Int64 (negsuc 0) ≡ pos 0 }
    ensures inverted_unsigned { unary_of Invert UInt8 (pos 5) ≡ pos 250 }
    ensures inverted_false { unary_of Invert Bool (pos 0) ≡ pos 1 }
    ensures inverted_true { unary_of Invert Bool (pos 1) ≡ pos 0 }
    ensures absolute { unary_of Abs Int32 (negsuc 6) ≡ pos 7 }
    ensures absolute_above { unary_of Abs Int32 (pos 7) ≡ pos 7 }
    ensures least_absolute { unary_of Abs Int64 (negsuc 9223372036854775807)
        ≡ negsuc 9223372036854775807 }
    ensures unsigned_absolute { unary_of Abs UInt8 (pos 200) ≡ pos 200 }
    ensures absolute_true { unary_of Abs Bool (pos 1) ≡ pos 1 }
{}

/// Sums, differences and products, which wrap; for bool the or, and the and.
pub fn sums_by_example()
    ensures sum { binary_of Add Int8 (pos 100) (pos 100) ≡ (negsuc 55, Clear) }
    ensures sum_below { binary_of Add Int64 (negsuc 9223372036854775807) (negsuc 0)
        ≡ (pos 9223372036854775807, Clear) }
    ensures unsigned_sum { binary_of Add UInt8 (pos 200) (pos 100) ≡ (pos 44, Clear) }
    ensures either { binary_of Add Bool (pos 1) (pos 1) ≡ (pos 1, Clear) }
    ensures neither { binary_of Add Bool (pos 0) (pos 0) ≡ (pos 0, Clear) }
    ensures difference { binary_of Sub Int16 (pos 3) (pos 10) ≡ (negsuc 6, Clear) }
    ensures difference_below { binary_of Sub Int8 (negsuc 127) (pos 1) ≡ (pos 127, Clear) }
    ensures unsigned_difference { binary_of Sub UInt32 (pos 0) (pos 1) ≡ (pos 4294967295, Clear) }
    ensures product { binary_of Mul Int8 (pos 100) (negsuc 2) ≡ (negsuc 43, Clear) }
    ensures unsigned_product { binary_of Mul UInt64 (pos 18446744073709551615)
        (pos 18446744073709551615) ≡ (pos 1, Clear) }
    ensures both { binary_of Mul Bool (pos 1) (pos 1) ≡ (pos 1, Clear) }
    ensures not_both { binary_of Mul Bool (pos 1) (pos 0) ≡ (pos 0, Clear) }
{}

/// Quotients, rounded down, and what they leave, with the divisor's sign. By 0 they give 0, and the
/// flag.
pub fn divisions_by_example()
    ensures quotient { binary_of FloorDiv Int8 (pos 7) (pos 2) ≡ (pos 3, Clear) }
    ensures quotient_below { binary_of FloorDiv Int8 (negsuc 6) (pos 2) ≡ (negsuc 3, Clear) }
    ensures quotient_by_below { binary_of FloorDiv Int64 (pos 7) (negsuc 1) ≡ (negsuc 3, Clear) }
    ensures quotient_of_both { binary_of FloorDiv Int32 (negsuc 6) (negsuc 1) ≡ (pos 3, Clear) }
    ensures exact_quotient { binary_of FloorDiv Int16 (negsuc 7) (pos 2) ≡ (negsuc 3, Clear) }
    ensures least_quotient { binary_of FloorDiv Int8 (negsuc 127) (negsuc 0) ≡ (negsuc 127, Clear) }
    ensures unsigned_quotient { binary_of FloorDiv UInt64 (pos 18446744073709551615) (pos 2)
        ≡ (pos 9223372036854775807, Clear) }
    ensures quotient_by_zero { binary_of FloorDiv Int32 (pos 5) (pos 0) ≡ (pos 0, Divisor) }
    ensures rest { binary_of Rem Int8 (pos 7) (pos 3) ≡ (pos 1, Clear) }
    ensures rest_of_below { binary_of Rem Int8 (negsuc 6) (pos 3) ≡ (pos 2, Clear) }
    ensures rest_by_below { binary_of Rem Int64 (pos 7) (negsuc 2) ≡ (negsuc 1, Clear) }
    ensures rest_of_both { binary_of Rem Int16 (negsuc 6) (negsuc 2) ≡ (negsuc 0, Clear) }
    ensures no_rest { binary_of Rem Int32 (negsuc 5) (pos 3) ≡ (pos 0, Clear) }
    ensures least_rest { binary_of Rem Int64 (negsuc 9223372036854775807) (negsuc 0)
        ≡ (pos 0, Clear) }
    ensures unsigned_rest { binary_of Rem UInt8 (pos 200) (pos 7) ≡ (pos 4, Clear) }
    ensures rest_by_zero { binary_of Rem UInt8 (pos 5) (pos 0) ≡ (pos 0, Divisor) }
{}

/// Powers, which wrap. To the 0 they are 1; to a number below 0 they give 0, and the flag.
pub fn powers_by_example()
    ensures power { binary_of Pow Int8 (negsuc 2) (pos 3) ≡ (negsuc 26, Clear) }
    ensures even_power { binary_of Pow Int64 (negsuc 2) (pos 4) ≡ (pos 81, Clear) }
    ensures wrapped_power { binary_of Pow Int8 (pos 2) (pos 7) ≡ (negsuc 127, Clear) }
    ensures unsigned_power { binary_of Pow UInt8 (pos 3) (pos 6) ≡ (pos 217, Clear) }
    ensures to_zero { binary_of Pow Int32 (pos 7) (pos 0) ≡ (pos 1, Clear) }
    ensures zero_to_zero { binary_of Pow UInt64 (pos 0) (pos 0) ≡ (pos 1, Clear) }
    ensures to_below { binary_of Pow Int16 (pos 2) (negsuc 0) ≡ (pos 0, Power) }
    ensures one_to_below { binary_of Pow Int64 (pos 1) (negsuc 2) ≡ (pos 0, Power) }
{}

/// The bits of both, of either and of just one, in two's complement.
pub fn bits_by_example()
    ensures both { binary_of BitAnd UInt8 (pos 12) (pos 10) ≡ (pos 8, Clear) }
    ensures both_below { binary_of BitAnd Int8 (negsuc 3) (pos 6) ≡ (pos 4, Clear) }
    ensures both_of_two_below { binary_of BitAnd Int64 (negsuc 3) (negsuc 5) ≡ (negsuc 7, Clear) }
    ensures both_true { binary_of BitAnd Bool (pos 1) (pos 1) ≡ (pos 1, Clear) }
    ensures both_not_true { binary_of BitAnd Bool (pos 1) (pos 0) ≡ (pos 0, Clear) }
    ensures either { binary_of BitOr UInt16 (pos 12) (pos 10) ≡ (pos 14, Clear) }
    ensures either_below { binary_of BitOr Int32 (negsuc 7) (pos 5) ≡ (negsuc 2, Clear) }
    ensures either_true { binary_of BitOr Bool (pos 1) (pos 1) ≡ (pos 1, Clear) }
    ensures one { binary_of BitXor UInt64 (pos 12) (pos 10) ≡ (pos 6, Clear) }
    ensures one_below { binary_of BitXor Int8 (negsuc 0) (pos 1) ≡ (negsuc 1, Clear) }
    ensures one_not_true { binary_of BitXor Bool (pos 1) (pos 1) ≡ (pos 0, Clear) }
{}

/// Shifts. By a number that is no place of the type they give 0, and `>>` of a number below 0
/// gives -1.
pub fn shifts_by_example()
    ensures left { binary_of Shl Int8 (pos 3) (pos 4) ≡ (pos 48, Clear) }
    ensures left_wraps { binary_of Shl Int8 (pos 3) (pos 6) ≡ (negsuc 63, Clear) }
    ensures left_to_last { binary_of Shl Int64 (pos 1) (pos 63)
        ≡ (negsuc 9223372036854775807, Clear) }
    ensures left_by_none { binary_of Shl UInt32 (pos 7) (pos 0) ≡ (pos 7, Clear) }
    ensures left_by_bits { binary_of Shl Int8 (pos 1) (pos 8) ≡ (pos 0, Clear) }
    ensures left_by_more { binary_of Shl UInt64 (pos 1) (pos 18446744073709551615)
        ≡ (pos 0, Clear) }
    ensures left_by_below { binary_of Shl Int32 (pos 1) (negsuc 0) ≡ (pos 0, Clear) }
    ensures right { binary_of Shr UInt8 (pos 200) (pos 3) ≡ (pos 25, Clear) }
    ensures right_of_below { binary_of Shr Int8 (negsuc 4) (pos 1) ≡ (negsuc 2, Clear) }
    ensures right_to_last { binary_of Shr Int64 (negsuc 9223372036854775807) (pos 63)
        ≡ (negsuc 0, Clear) }
    ensures right_by_bits { binary_of Shr UInt16 (pos 65535) (pos 16) ≡ (pos 0, Clear) }
    ensures right_of_below_by_bits { binary_of Shr Int16 (negsuc 4) (pos 16) ≡ (negsuc 0, Clear) }
    ensures right_by_below { binary_of Shr Int32 (pos 5) (negsuc 0) ≡ (pos 0, Clear) }
    ensures right_of_below_by_below { binary_of Shr Int64 (negsuc 4) (negsuc 2)
        ≡ (negsuc 0, Clear) }
{}

/// The lesser and the greater; for bool the and, and the or.
pub fn extremes_by_example()
    ensures lesser { binary_of Min Int8 (negsuc 4) (pos 3) ≡ (negsuc 4, Clear) }
    ensures unsigned_lesser { binary_of Min UInt64 (pos 18446744073709551615) (pos 3)
        ≡ (pos 3, Clear) }
    ensures lesser_truth { binary_of Min Bool (pos 1) (pos 0) ≡ (pos 0, Clear) }
    ensures greater { binary_of Max Int16 (negsuc 4) (pos 3) ≡ (pos 3, Clear) }
    ensures unsigned_greater { binary_of Max UInt8 (pos 200) (pos 3) ≡ (pos 200, Clear) }
    ensures greater_truth { binary_of Max Bool (pos 1) (pos 0) ≡ (pos 1, Clear) }
{}

/// Comparisons go by the whole numbers, of whatever types they are: the greatest of uint64 is not
/// -1.
pub fn comparisons_by_example()
    ensures equal { compare_of Eq (pos 1) (pos 1) ≡ true }
    ensures greatest_is_not_below { compare_of Eq (pos 18446744073709551615) (negsuc 0) ≡ false }
    ensures unequal { compare_of Ne (pos 18446744073709551615) (negsuc 0) ≡ true }
    ensures not_unequal { compare_of Ne (negsuc 2) (negsuc 2) ≡ false }
    ensures less { compare_of Lt (negsuc 0) (pos 18446744073709551615) ≡ true }
    ensures not_less { compare_of Lt (pos 2) (pos 2) ≡ false }
    ensures at_most { compare_of Le (pos 2) (pos 2) ≡ true }
    ensures not_at_most { compare_of Le (pos 200) (negsuc 55) ≡ false }
    ensures more { compare_of Gt (pos 18446744073709551615) (negsuc 0) ≡ true }
    ensures not_more { compare_of Gt (negsuc 4) (negsuc 3) ≡ false }
    ensures at_least { compare_of Ge (negsuc 3) (negsuc 3) ≡ true }
    ensures not_at_least { compare_of Ge (negsuc 0) (pos 0) ≡ false }
{}

/// Which operations bool has; an integer type has all.
pub fn allowed_by_example()
    ensures integer_negative { is_allowed_unary Neg UInt8 ≡ true }
    ensures negative { is_allowed_unary Neg Bool ≡ false }
    ensures inverted { is_allowed_unary Invert Bool ≡ true }
    ensures absolute { is_allowed_unary Abs Bool ≡ true }
    ensures integer_power { is_allowed_binary Pow UInt64 ≡ true }
    ensures sum { is_allowed_binary Add Bool ≡ true }
    ensures difference { is_allowed_binary Sub Bool ≡ false }
    ensures product { is_allowed_binary Mul Bool ≡ true }
    ensures quotient { is_allowed_binary FloorDiv Bool ≡ false }
    ensures rest { is_allowed_binary Rem Bool ≡ false }
    ensures power { is_allowed_binary Pow Bool ≡ false }
    ensures both { is_allowed_binary BitAnd Bool ≡ true }
    ensures either { is_allowed_binary BitOr Bool ≡ true }
    ensures one { is_allowed_binary BitXor Bool ≡ true }
    ensures left { is_allowed_binary Shl Bool ≡ false }
    ensures right { is_allowed_binary Shr Bool ≡ false }
    ensures lesser { is_allowed_binary Min Bool ≡ true }
    ensures greater { is_allowed_binary Max Bool ≡ true }
{}
