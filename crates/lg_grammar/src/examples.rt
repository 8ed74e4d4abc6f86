//! Worked examples of the definitions. The values are counted by hand. Where bytes are given by
//! number, 9 is a tab, 10 ends a line, 13 is a carriage return, 32 a space, and 97 and 98 letters.

ghost use Rattle.std.specs.Prelude.{◌≡◌, ℕ, codes, List, [], ◌∷◌, ◌++◌};
ghost use Rattle.lg_tree.specs.Heads.{HeadTree, whole};
ghost use Rattle.lg_tree.specs.Tree.{no_lines, more_lines};
ghost use Rattle.lg_grammar.specs.Script.{MAX_DEPTH, lines_of, IsSkipped, IsIndented, HoldsLine, Spells, IsFirstBad};
ghost use Rattle.lg_grammar.specs.Examples.{loads, loop_i, line, spaces};

/// Where lines are cut. A byte 13 that is the last of a line is dropped.
pub fn lines_by_example()
    ensures cut { lines_of (codes "a\n\nb\n") ≡ codes "a" ∷ [] ∷ codes "b" ∷ [] ∷ [] }
    ensures nothing { lines_of [] ≡ [] ∷ [] }
    ensures returns { lines_of (97 ∷ 13 ∷ 10 ∷ 98 ∷ 13 ∷ []) ≡ codes "a" ∷ codes "b" ∷ [] }
    ensures inside { lines_of (97 ∷ 13 ∷ 98 ∷ 10 ∷ []) ≡ (97 ∷ 13 ∷ 98 ∷ []) ∷ [] ∷ [] }
    ensures two { lines_of (97 ∷ 13 ∷ 13 ∷ 10 ∷ []) ≡ (97 ∷ 13 ∷ []) ∷ [] ∷ [] }
{}

/// Which lines are skipped.
pub fn skipped_by_example()
    ensures nothing { IsSkipped [] }
    ensures blanks { IsSkipped (32 ∷ 9 ∷ 32 ∷ []) }
    ensures comment { IsSkipped (codes "# x = load(f)") }
    ensures indented { IsSkipped (codes "     # a") }
    ensures word { IsSkipped (codes "x # a") → ⊥ }
    ensures fault { IsSkipped (codes "?") → ⊥ }
{}

/// In how many blocks a line stands.
pub fn depths_by_example()
    ensures none { IsIndented 0 (codes "x") }
    ensures four { IsIndented 1 (codes "    x") }
    ensures five { (depth : ℕ) → IsIndented depth (codes "     x") → ⊥ }
    ensures tab { (depth : ℕ) → IsIndented depth (9 ∷ 97 ∷ []) → ⊥ }
    ensures tab_behind { (depth : ℕ) → IsIndented depth (spaces 4 ++ 9 ∷ 97 ∷ []) → ⊥ }
    ensures limit { MAX_DEPTH ≡ 16 }
    ensures deepest { HoldsLine (spaces 64 ++ codes "x = load(f)") 16 (whole loads) }
    ensures too_deep { (depth : ℕ) (head : HeadTree)
        → HoldsLine (spaces 68 ++ codes "x = load(f)") depth head → ⊥ }
{}

/// Which scripts bytes spell.
pub fn scripts_by_example()
    ensures nothing { Spells [] [] }
    ensures skipped { Spells (codes "# a\n \n") [] }
    ensures one { Spells (codes "x = load(f)") (line 1 loads ∷ []) }
    ensures returns { Spells (codes "x = load(f)" ++ 13 ∷ 10 ∷ 13 ∷ 10 ∷ codes "x = load(f)\n")
        (line 1 loads ∷ line 3 loads ∷ []) }
    ensures block { Spells
        (codes "for i in range(3):\n    x = load(f)\n# a\n    x = load(f)\nx = load(f)\n")
        (line 1 (loop_i (more_lines 2 loads (more_lines 4 loads no_lines))) ∷ line 5 loads ∷ []) }
{}

/// Which line is the first bad one.
pub fn first_bad_by_example()
    ensures empty_block { IsFirstBad (codes "for i in range(3):\nx = load(f)\n") 2 }
    ensures open_end { IsFirstBad (codes "x = load(f)\nfor i in range(3):\n    # a\n") 2 }
    ensures indented { IsFirstBad (codes "    x = load(f)\nx = load(f)\n") 1 }
    ensures no_block { IsFirstBad (codes "x = load(f)\n\n    x = load(f)\n") 3 }
    ensures two_deeper { IsFirstBad (codes "for i in range(3):\n        x = load(f)\n") 2 }
    ensures fault { IsFirstBad (codes "x = load(f)\n?\n    x = load(f)\n") 2 }
{}
