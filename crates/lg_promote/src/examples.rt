//! Worked examples of the definitions. Each clause is computed by the check, so a definition that
//! says something else is refused, also where the code says the same. The values are NumPy's, and
//! this project's own where NumPy has a float: there is no common type then.
ghost use Rattle.std.specs.Prelude.{◌≡◌, true, false, pos, negsuc, Some, None};
ghost use Rattle.lg_elem.specs.declared.dtype.DType.TheVariants.{Bool, Int8, Int16, Int32, Int64, UInt8, UInt16, UInt32, UInt64};
ghost use Rattle.lg_promote.specs.Kinds.{is_same_kind};
ghost use Rattle.lg_promote.specs.Promotion.{common_type};
ghost use Rattle.lg_promote.specs.Literals.{literal_of};

/// The common type.
pub fn promotion_by_example()
    ensures truth { common_type Bool Bool ≡ Some Bool }
    ensures truth_and_least { common_type Bool Int8 ≡ Some Int8 }
    ensures truth_and_greatest { common_type UInt64 Bool ≡ Some UInt64 }
    ensures same { common_type Int32 Int32 ≡ Some Int32 }
    ensures signed { common_type Int8 Int64 ≡ Some Int64 }
    ensures signed_turned { common_type Int32 Int16 ≡ Some Int32 }
    ensures unsigned { common_type UInt16 UInt32 ≡ Some UInt32 }
    ensures unsigned_turned { common_type UInt64 UInt8 ≡ Some UInt64 }
    ensures wider_signed { common_type Int64 UInt32 ≡ Some Int64 }
    ensures wider_signed_turned { common_type UInt8 Int16 ≡ Some Int16 }
    ensures as_wide { common_type Int8 UInt8 ≡ Some Int16 }
    ensures as_wide_turned { common_type UInt32 Int32 ≡ Some Int64 }
    ensures wider_unsigned { common_type Int8 UInt16 ≡ Some Int32 }
    ensures widest_unsigned { common_type Int8 UInt64 ≡ None }
    ensures widest_of_both { common_type UInt64 Int64 ≡ None }
{}

/// The number of a literal.
pub fn literals_by_example()
    ensures fits { literal_of (pos 127) Int8 ≡ Some (pos 127) }
    ensures above { literal_of (pos 128) Int8 ≡ None }
    ensures least { literal_of (negsuc 127) Int8 ≡ Some (negsuc 127) }
    ensures below { literal_of (negsuc 128) Int8 ≡ None }
    ensures greatest { literal_of (pos 18446744073709551615) UInt64
        ≡ Some (pos 18446744073709551615) }
    ensures too_great { literal_of (pos 18446744073709551615) Int64 ≡ None }
    ensures unsigned { literal_of (negsuc 0) UInt32 ≡ None }
    ensures truth { literal_of (pos 2) Bool ≡ Some (pos 1) }
    ensures truth_below { literal_of (negsuc 4) Bool ≡ Some (pos 1) }
    ensures falsehood { literal_of (pos 0) Bool ≡ Some (pos 0) }
{}

/// Going from a type to another of the same kind, as `numpy.can_cast` has it.
pub fn kinds_by_example()
    ensures narrower { is_same_kind Int64 Int8 ≡ true }
    ensures to_signed { is_same_kind UInt64 Int8 ≡ true }
    ensures from_truth { is_same_kind Bool UInt8 ≡ true }
    ensures to_unsigned { is_same_kind Int8 UInt64 ≡ false }
    ensures to_truth { is_same_kind UInt8 Bool ≡ false }
    ensures signed_to_truth { is_same_kind Int64 Bool ≡ false }
    ensures truth { is_same_kind Bool Bool ≡ true }
{}
