//! Worked examples of the definitions. Each clause is computed by the check, so a definition that
//! says something else is refused. The values are counted by hand.
ghost use Rattle.std.specs.Prelude.{◌≡◌, Some, None, [], ◌∷◌};
ghost use Rattle.lg_tree.specs.Tree.{no_lines, more_lines};
ghost use Rattle.lg_tree.specs.Heads.{whole};
ghost use Rattle.lg_blocks.specs.Rows.{row, rows_of, IsFull, MayFollow, Follows, last_of, IsClosed, IsOpenAt};
ghost use Rattle.lg_blocks.specs.Renumbering.{line_count, renumbered};
ghost use Rattle.lg_blocks.specs.Laws.{rows_height};
ghost use Rattle.lg_blocks.specs.Examples.{bound, printed, negative, over_i, loop_i, over_j, loop_j, line, nested, dense};

/// The rows of blocks: those of a loop's block follow its own, one deeper.
pub fn rows_by_example()
    ensures none { rows_of 0 no_lines ≡ [] }
    ensures one { rows_of 0 (line 5 bound) ≡ row 5 0 (whole bound) ∷ [] }
    ensures deep { rows_of 2 (line 5 bound) ≡ row 5 2 (whole bound) ∷ [] }
    ensures two { rows_of 0 (more_lines 5 bound (line 7 printed))
        ≡ row 5 0 (whole bound) ∷ row 7 0 (whole printed) ∷ [] }
    ensures block { rows_of 0 (line 5 (loop_i (line 6 printed)))
        ≡ row 5 0 over_i ∷ row 6 1 (whole printed) ∷ [] }
    ensures behind { rows_of 0 (more_lines 5 (loop_i (line 6 printed)) (line 7 bound))
        ≡ row 5 0 over_i ∷ row 6 1 (whole printed) ∷ row 7 0 (whole bound) ∷ [] }
    ensures nested { rows_of 0 nested ≡ row 1 0 (whole bound) ∷ row 3 0 over_i ∷ row 4 1 over_j
        ∷ row 7 2 (whole printed) ∷ row 8 1 (whole negative) ∷ row 9 0 (whole printed) ∷ [] }
{}

/// Which depth a row may have behind another.
pub fn places_by_example()
    ensures first { MayFollow None 0 }
    ensures first_deeper { MayFollow None 1 → ⊥ }
    ensures as_deep { MayFollow (Some (row 5 2 (whole bound))) 2 }
    ensures less_deep { MayFollow (Some (row 5 2 (whole bound))) 0 }
    ensures deeper { MayFollow (Some (row 5 2 (whole bound))) 3 → ⊥ }
    ensures block { MayFollow (Some (row 5 2 over_i)) 3 }
    ensures no_block { MayFollow (Some (row 5 2 over_i)) 2 → ⊥ }
    ensures outside { MayFollow (Some (row 5 2 over_i)) 0 → ⊥ }
    ensures too_deep { MayFollow (Some (row 5 2 over_i)) 4 → ⊥ }
    ensures nested { Follows None (rows_of 0 nested) }
    ensures other { Follows None (row 1 0 over_i ∷ row 2 0 (whole bound) ∷ []) → ⊥ }
{}

/// Each loop has a statement, and the last row is the first line of no loop.
pub fn full_by_example()
    ensures none { IsFull no_lines }
    ensures nested { IsFull nested }
    ensures empty { IsFull (line 5 (loop_i no_lines)) → ⊥ }
    ensures empty_inside { IsFull (line 5 (loop_i (line 6 (loop_j no_lines)))) → ⊥ }
    ensures empty_first { IsFull (more_lines 5 (loop_i no_lines) (line 6 bound)) → ⊥ }
    ensures nothing { IsClosed None }
    ensures closed { IsClosed (Some (row 5 2 (whole bound))) }
    ensures not_closed { IsClosed (Some (row 5 2 over_i)) → ⊥ }
    ensures at_its_line { IsOpenAt 5 (Some (row 5 2 over_i)) }
    ensures other_line { IsOpenAt 4 (Some (row 5 2 over_i)) → ⊥ }
    ensures not_at_line { IsOpenAt 5 (Some (row 5 2 (whole bound))) → ⊥ }
    ensures last { last_of None (rows_of 0 nested) ≡ Some (row 9 0 (whole printed)) }
{}

/// Lines that are numbered in their order.
pub fn renumbered_by_example()
    ensures nested { renumbered 1 nested ≡ dense }
    ensures later { renumbered 4 (line 9 (loop_i (line 12 printed)))
        ≡ line 4 (loop_i (line 5 printed)) }
    ensures count { line_count nested ≡ 6 }
    ensures height { rows_height (rows_of 0 nested) ≡ 1 }
{}
