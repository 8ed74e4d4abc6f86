//! Worked examples of the definitions. Each clause is computed by the check, so a definition that
//! says another number is refused. The values are NumPy's, and this project's own where a flag is
//! set or a number that the type lacks is wrapped.
ghost use Rattle.std.specs.Prelude.{◌≡◌, [], ◌∷◌, pos, negsuc};
ghost use Rattle.lg_elem.specs.declared.dtype.DType.TheVariants as types;
ghost use Rattle.lg_elem.specs.declared.kinds.Binary.TheVariants as binaries;
ghost use Rattle.lg_elem.specs.declared.kinds.Unary.TheVariants as unaries;
ghost use Rattle.lg_elem.specs.declared.kinds.Compare.TheVariants as orders;
ghost use Rattle.lg_elem.specs.declared.kinds.Flag.TheVariants.{Clear, Divisor, Power};
ghost use Rattle.lg_map.specs.declared.operation.MapOp.TheVariants as ops;
ghost use Rattle.lg_map.specs.declared.operation.Operand.TheVariants.{Constant};
ghost use Rattle.lg_map.specs.Mapping.{first_flag, map_flags, map_value, map_values};

/// What operations on numbers alone give at an index.
pub fn values_by_example()
    ensures difference { map_value (ops.Binary binaries.Sub (Constant (pos 7)) (Constant (pos 2)))
        types.Int8 [] [] ≡ pos 5 }
    ensures wrapped_first { map_value (ops.Binary binaries.FloorDiv (Constant (pos 258))
        (Constant (pos 2))) types.Int8 [] [] ≡ pos 1 }
    ensures negative { map_value (ops.Unary unaries.Neg (Constant (pos 200))) types.UInt8 [] []
        ≡ pos 56 }
    ensures by_value { map_value (ops.Compare orders.Lt (Constant (negsuc 0)) (Constant (pos 255)))
        types.Bool [] [] ≡ pos 1 }
    ensures by_side { map_value (ops.Compare orders.Lt (Constant (pos 255)) (Constant (negsuc 0)))
        types.Bool [] [] ≡ pos 0 }
    ensures first { map_value (ops.Select (Constant (pos 256)) (Constant (pos 3))
        (Constant (pos 4))) types.Int8 [] [] ≡ pos 3 }
    ensures second { map_value (ops.Select (Constant (pos 0)) (Constant (pos 3))
        (Constant (pos 4))) types.Int8 [] [] ≡ pos 4 }
    ensures cast { map_value (ops.Cast (Constant (pos 300))) types.UInt8 [] [] ≡ pos 44 }
    ensures truth { map_value (ops.Cast (Constant (pos 256))) types.Bool [] [] ≡ pos 1 }
    ensures fill { map_value (ops.Fill (pos 255)) types.Int8 [] [] ≡ negsuc 0 }
{}

/// What operations that go by the index give over a rectangle.
pub fn lists_by_example()
    ensures count { map_values (ops.Count (negsuc 1)) types.Int16 [] ((3, 6) ∷ [])
        ≡ pos 1 ∷ pos 2 ∷ pos 3 ∷ [] }
    ensures list { map_values (ops.List (2 ∷ 3 ∷ []) (pos 0 ∷ pos 1 ∷ pos 2 ∷ pos 3 ∷ pos 4
        ∷ pos 5 ∷ [])) types.Int8 [] ((0, 2) ∷ (1, 3) ∷ []) ≡ pos 1 ∷ pos 2 ∷ pos 4 ∷ pos 5 ∷ [] }
{}

/// The flag of an operation over a rectangle.
pub fn flags_by_example()
    ensures divisor { map_flags (ops.Binary binaries.Rem (Constant (pos 1)) (Constant (pos 0)))
        types.Int8 [] ((0, 2) ∷ []) ≡ Divisor }
    ensures wrapped { map_flags (ops.Binary binaries.FloorDiv (Constant (pos 1))
        (Constant (pos 256))) types.Int8 [] ((0, 2) ∷ []) ≡ Divisor }
    ensures power { map_flags (ops.Binary binaries.Pow (Constant (pos 0)) (Constant (negsuc 0)))
        types.Int8 [] ((0, 2) ∷ []) ≡ Power }
    ensures empty { map_flags (ops.Binary binaries.Rem (Constant (pos 1)) (Constant (pos 0)))
        types.Int8 [] ((2, 2) ∷ []) ≡ Clear }
    ensures sum { map_flags (ops.Binary binaries.Add (Constant (pos 1)) (Constant (pos 0)))
        types.Int8 [] ((0, 2) ∷ []) ≡ Clear }
    ensures first { first_flag (Clear ∷ Power ∷ Divisor ∷ []) ≡ Power }
{}
