//! Printed text.
ghost use Rattle.std.specs.Prelude.{◌≡◌, [], ◌∷◌, codes, map, negsuc, pos};
ghost use Rattle.lg_elem.specs.declared.dtype.DType.TheVariants.{Bool, Int64, Int8, UInt64, UInt8};
ghost use Rattle.lg_meaning.specs.Text.{printed};

/// Printed lists.
pub fn texts_by_example()
    ensures nested { printed Int64 (2 ∷ 2 ∷ []) (pos 1 ∷ negsuc 1 ∷ pos 3 ∷ pos 40 ∷ [])
        ≡ codes "[[1, -2], [3, 40]]\n" }
    ensures empty_rows { printed Int8 (2 ∷ 0 ∷ []) [] ≡ codes "[[], []]\n" }
    ensures no_rows { printed UInt8 (0 ∷ 2 ∷ []) [] ≡ codes "[]\n" }
    ensures number { printed Int64 [] (negsuc 6 ∷ []) ≡ codes "-7\n" }
    ensures truths { printed Bool (2 ∷ []) (pos 1 ∷ pos 0 ∷ []) ≡ codes "[True, False]\n" }
    ensures three_axes { printed Bool (1 ∷ 1 ∷ 2 ∷ []) (pos 1 ∷ pos 0 ∷ [])
        ≡ codes "[[[True, False]]]\n" }
    ensures one_truth { printed Bool [] (pos 0 ∷ []) ≡ codes "False\n" }
    ensures four_axes { printed Int64 (1 ∷ 2 ∷ 1 ∷ 2 ∷ []) (map pos (0 ∷ 1 ∷ 2 ∷ 3 ∷ []))
        ≡ codes "[[[[0, 1]], [[2, 3]]]]\n" }
    ensures no_inner { printed Int64 (2 ∷ 0 ∷ 3 ∷ []) [] ≡ codes "[[], []]\n" }
    ensures no_last { printed Bool (1 ∷ 2 ∷ 0 ∷ []) [] ≡ codes "[[[], []]]\n" }
    ensures greatest { printed UInt64 (1 ∷ []) (pos 18446744073709551615 ∷ [])
        ≡ codes "[18446744073709551615]\n" }
    ensures least { printed Int64 [] (negsuc 9223372036854775807 ∷ [])
        ≡ codes "-9223372036854775808\n" }
    ensures truth_grid { printed Bool (2 ∷ 1 ∷ []) (map pos (1 ∷ 0 ∷ []))
        ≡ codes "[[True], [False]]\n" }
{}
