//! Worked examples of the grammar: what the terminals of a line spell, and lines that spell nothing.
//! The trees are written by hand.
ghost use Rattle.std.specs.Prelude.{◌≡◌, true, Some, None, List, [], ◌∷◌, codes};
ghost use Rattle.lg_elem.specs.declared.dtype.DType.TheVariants.{Bool as Truth, Int8, UInt64};
ghost use Rattle.lg_elem.specs.declared.kinds.Compare.TheVariants.{Lt};
ghost use Rattle.lg_lex.specs.declared.tokens.TokenKind.TheVariants.{Ampersand, At, Bar, Circumflex, Colon, Comma, Dot, DoubleSlash, DoubleStar, DoubleStarEqual, Ellipsis, Equal, EqualEqual, LeftBracket, LeftParenthesis, LeftShift, Less, Minus, Percent, Plus, PlusEqual, RightBracket, RightParenthesis, Tilde};
ghost use Rattle.lg_tree.specs.declared.kinds.Arith.TheVariants.{Add, Sub, FloorDiv, Rem, Pow, BitAnd, BitOr, BitXor, Shl};
ghost use Rattle.lg_tree.specs.declared.kinds.Red.TheVariants.{Sum, Max};
ghost use Rattle.lg_tree.specs.declared.kinds.ScanCall.TheVariants.{CumSum, ArgMax};
ghost use Rattle.lg_tree.specs.Tree.{name, number, neg, invert, arith, matmul, compare, index, full, zeros, arange, array, choose, reduce, take, transpose, stencil, apply, scan, copy, as_type, reshape, no_tree, some_tree, no_trees, more_trees, one, tuple, no_shape, at, slice, new_axis, ellipsis, no_items, more_items, leaf, list, no_lists, more_lists, bind, update, put, update_at, print, load, save, truth, ones, broadcast_to, some_shape, minimum, maximum, abs, flatten};
ghost use Rattle.lg_tree.specs.Heads.{HeadTree, whole, loop_head};
ghost use Rattle.lg_parse.specs.Examples.{nested, negated, negative};
ghost use Rattle.lg_parse.specs.Statements.{SpellsHead, HoldsHead};
ghost use Rattle.lg_parse.specs.Keywords.{keyword_of};
ghost use Rattle.lg_parse.specs.declared.words.Keyword.TheVariants.{Itself, Element, Call};
ghost use Rattle.lg_parse.specs.Terminal.{word, element, function, sign};
ghost use Rattle.lg_parse.specs.Terminal as t;
ghost use Rattle.lg_parse.specs.declared.words.Function.TheVariants.{Abs, Apply, Arange, Array, BroadcastTo, Full, Maximum, Minimum, Ones, Reduce, Scan, Stencil, Take, Transpose, Where, Zeros};
ghost use Rattle.lg_parse.specs.declared.words.Word.TheVariants.{Axis, Dtype, For, In, Load, NewAxis, Print, Range, Save, True, Unused};

/// Which operator binds more tightly, and from which side those of one level group.
pub fn operators_by_example()
    ensures minus_power { SpellsHead (word Print ∷ sign LeftParenthesis ∷ sign Minus ∷ t.number 2 ∷ sign DoubleStar ∷ t.number 2 ∷ sign RightParenthesis ∷ []) (whole (print (neg (arith Pow (number 2) (number 2))))) }
    ensures power_minus { SpellsHead (word Print ∷ sign LeftParenthesis ∷ t.number 2 ∷ sign DoubleStar ∷ sign Minus ∷ t.number 1 ∷ sign RightParenthesis ∷ []) (whole (print (arith Pow (number 2) (neg (number 1))))) }
    ensures powers { SpellsHead (word Print ∷ sign LeftParenthesis ∷ t.name (codes "a") ∷ sign DoubleStar ∷ t.name (codes "b") ∷ sign DoubleStar ∷ t.name (codes "c") ∷ sign RightParenthesis ∷ []) (whole (print (arith Pow (name (codes "a")) (arith Pow (name (codes "b")) (name (codes "c")))))) }
    ensures differences { SpellsHead (word Print ∷ sign LeftParenthesis ∷ t.name (codes "a") ∷ sign Minus ∷ t.name (codes "b") ∷ sign Minus ∷ t.name (codes "c") ∷ sign RightParenthesis ∷ []) (whole (print (arith Sub (arith Sub (name (codes "a")) (name (codes "b"))) (name (codes "c"))))) }
    ensures parentheses { SpellsHead (word Print ∷ sign LeftParenthesis ∷ t.name (codes "a") ∷ sign Minus ∷ sign LeftParenthesis ∷ t.name (codes "b") ∷ sign Minus ∷ t.name (codes "c") ∷ sign RightParenthesis ∷ sign RightParenthesis ∷ []) (whole (print (arith Sub (name (codes "a")) (arith Sub (name (codes "b")) (name (codes "c")))))) }
    ensures product { SpellsHead (word Print ∷ sign LeftParenthesis ∷ t.name (codes "a") ∷ sign Plus ∷ t.name (codes "b") ∷ sign At ∷ t.name (codes "c") ∷ sign RightParenthesis ∷ []) (whole (print (arith Add (name (codes "a")) (matmul (name (codes "b")) (name (codes "c")))))) }
    ensures levels { SpellsHead (word Print ∷ sign LeftParenthesis ∷ t.name (codes "a") ∷ sign Bar ∷ t.name (codes "b") ∷ sign Circumflex ∷ t.name (codes "c") ∷ sign Ampersand ∷ t.name (codes "a") ∷ sign LeftShift ∷ t.name (codes "b") ∷ sign RightParenthesis ∷ []) (whole (print (arith BitOr (name (codes "a")) (arith BitXor (name (codes "b")) (arith BitAnd (name (codes "c")) (arith Shl (name (codes "a")) (name (codes "b")))))))) }
    ensures comparison { SpellsHead (word Print ∷ sign LeftParenthesis ∷ t.name (codes "a") ∷ sign Less ∷ t.name (codes "b") ∷ sign Plus ∷ t.number 1 ∷ sign RightParenthesis ∷ []) (whole (print (compare Lt (name (codes "a")) (arith Add (name (codes "b")) (number 1))))) }
    ensures twice { SpellsHead (word Print ∷ sign LeftParenthesis ∷ sign Tilde ∷ sign Minus ∷ t.name (codes "a") ∷ sign RightParenthesis ∷ []) (whole (print (invert (neg (name (codes "a")))))) }
    ensures one_level { SpellsHead (word Print ∷ sign LeftParenthesis ∷ t.name (codes "a") ∷ sign DoubleSlash ∷ t.name (codes "b") ∷ sign Percent ∷ t.name (codes "c") ∷ sign RightParenthesis ∷ []) (whole (print (arith Rem (arith FloorDiv (name (codes "a")) (name (codes "b"))) (name (codes "c"))))) }
    ensures no_chain { (h : HeadTree) → HoldsHead (word Print ∷ sign LeftParenthesis ∷ t.name (codes "a") ∷ sign Less ∷ t.name (codes "b") ∷ sign Less ∷ t.name (codes "c") ∷ sign RightParenthesis ∷ []) h → ⊥ }
    ensures no_lone { (h : HeadTree) → HoldsHead (word Print ∷ sign LeftParenthesis ∷ t.name (codes "a") ∷ sign Plus ∷ sign RightParenthesis ∷ []) h → ⊥ }
    ensures no_plus { (h : HeadTree) → HoldsHead (word Print ∷ sign LeftParenthesis ∷ sign Plus ∷ t.name (codes "a") ∷ sign RightParenthesis ∷ []) h → ⊥ }
{}

/// The functions, with their types and axes.
pub fn calls_by_example()
    ensures full { SpellsHead (t.name (codes "x") ∷ sign Equal ∷ function Full ∷ sign LeftParenthesis ∷ t.number 3 ∷ sign Comma ∷ t.number 0 ∷ sign Comma ∷ element Int8 ∷ sign RightParenthesis ∷ []) (whole (bind (codes "x") (full (one (number 3)) (number 0) (Some Int8)))) }
    ensures zeros { SpellsHead (t.name (codes "x") ∷ sign Equal ∷ function Zeros ∷ sign LeftParenthesis ∷ t.number 3 ∷ sign Comma ∷ word Dtype ∷ sign Equal ∷ element Truth ∷ sign RightParenthesis ∷ []) (whole (bind (codes "x") (zeros (one (number 3)) (Some Truth)))) }
    ensures arange { SpellsHead (t.name (codes "x") ∷ sign Equal ∷ function Arange ∷ sign LeftParenthesis ∷ t.number 3 ∷ sign RightParenthesis ∷ []) (whole (bind (codes "x") (arange no_tree (number 3) None))) }
    ensures arange_type { SpellsHead (t.name (codes "x") ∷ sign Equal ∷ function Arange ∷ sign LeftParenthesis ∷ t.number 1 ∷ sign Comma ∷ t.number 3 ∷ sign Comma ∷ element Int8 ∷ sign RightParenthesis ∷ []) (whole (bind (codes "x") (arange (some_tree (number 1)) (number 3) (Some Int8)))) }
    ensures choice { SpellsHead (word Print ∷ sign LeftParenthesis ∷ function Where ∷ sign LeftParenthesis ∷ t.name (codes "a") ∷ sign Comma ∷ t.name (codes "b") ∷ sign Comma ∷ t.name (codes "c") ∷ sign RightParenthesis ∷ sign RightParenthesis ∷ []) (whole (print (choose (name (codes "a")) (name (codes "b")) (name (codes "c"))))) }
    ensures sum_axis { SpellsHead (word Print ∷ sign LeftParenthesis ∷ function (Reduce Sum) ∷ sign LeftParenthesis ∷ t.name (codes "x") ∷ sign Comma ∷ word Axis ∷ sign Equal ∷ t.number 0 ∷ sign RightParenthesis ∷ sign RightParenthesis ∷ []) (whole (print (reduce Sum (name (codes "x")) (some_tree (number 0))))) }
    ensures sum_plain { SpellsHead (word Print ∷ sign LeftParenthesis ∷ function (Reduce Sum) ∷ sign LeftParenthesis ∷ t.name (codes "x") ∷ sign Comma ∷ t.number 0 ∷ sign RightParenthesis ∷ sign RightParenthesis ∷ []) (whole (print (reduce Sum (name (codes "x")) (some_tree (number 0))))) }
    ensures take { SpellsHead (word Print ∷ sign LeftParenthesis ∷ function Take ∷ sign LeftParenthesis ∷ t.name (codes "a") ∷ sign Comma ∷ t.name (codes "i") ∷ sign Comma ∷ word Axis ∷ sign Equal ∷ t.number 0 ∷ sign RightParenthesis ∷ sign RightParenthesis ∷ []) (whole (print (take (name (codes "a")) (name (codes "i")) (some_tree (number 0))))) }
    ensures transpose { SpellsHead (word Print ∷ sign LeftParenthesis ∷ function Transpose ∷ sign LeftParenthesis ∷ t.name (codes "a") ∷ sign RightParenthesis ∷ sign RightParenthesis ∷ []) (whole (print (transpose (name (codes "a")) no_shape))) }
    ensures stencil { SpellsHead (word Print ∷ sign LeftParenthesis ∷ function Stencil ∷ sign LeftParenthesis ∷ t.name (codes "a") ∷ sign Comma ∷ sign LeftBracket ∷ t.number 1 ∷ sign Comma ∷ t.number 2 ∷ sign Comma ∷ t.number 1 ∷ sign RightBracket ∷ sign RightParenthesis ∷ sign RightParenthesis ∷ []) (whole (print (stencil (name (codes "a")) (list (more_lists (leaf (number 1)) (more_lists (leaf (number 2)) (more_lists (leaf (number 1)) no_lists))))))) }
    ensures apply { SpellsHead (word Print ∷ sign LeftParenthesis ∷ function Apply ∷ sign LeftParenthesis ∷ t.name (codes "mix") ∷ sign Comma ∷ t.name (codes "a") ∷ sign Comma ∷ t.name (codes "b") ∷ sign RightParenthesis ∷ sign RightParenthesis ∷ []) (whole (print (apply (codes "mix") (name (codes "a")) (name (codes "b"))))) }
    ensures scan { SpellsHead (word Print ∷ sign LeftParenthesis ∷ function (Scan CumSum) ∷ sign LeftParenthesis ∷ t.name (codes "a") ∷ sign Comma ∷ word Axis ∷ sign Equal ∷ t.number 0 ∷ sign RightParenthesis ∷ sign RightParenthesis ∷ []) (whole (print (scan CumSum (name (codes "a")) (some_tree (number 0))))) }
    ensures no_last_comma { (h : HeadTree) → HoldsHead (word Print ∷ sign LeftParenthesis ∷ function Abs ∷ sign LeftParenthesis ∷ t.name (codes "a") ∷ sign Comma ∷ sign RightParenthesis ∷ sign RightParenthesis ∷ []) h → ⊥ }
    ensures no_type_first { (h : HeadTree) → HoldsHead (word Print ∷ sign LeftParenthesis ∷ function Zeros ∷ sign LeftParenthesis ∷ element Int8 ∷ sign RightParenthesis ∷ sign RightParenthesis ∷ []) h → ⊥ }
{}

/// The items of an index.
pub fn indices_by_example()
    ensures slice { SpellsHead (word Print ∷ sign LeftParenthesis ∷ t.name (codes "a") ∷ sign LeftBracket ∷ t.number 1 ∷ sign Colon ∷ t.number 2 ∷ sign RightBracket ∷ sign RightParenthesis ∷ []) (whole (print (index (name (codes "a")) (more_items (slice (some_tree (number 1)) (some_tree (number 2)) no_tree) no_items)))) }
    ensures step { SpellsHead (word Print ∷ sign LeftParenthesis ∷ t.name (codes "a") ∷ sign LeftBracket ∷ sign Colon ∷ sign Colon ∷ t.number 2 ∷ sign RightBracket ∷ sign RightParenthesis ∷ []) (whole (print (index (name (codes "a")) (more_items (slice no_tree no_tree (some_tree (number 2))) no_items)))) }
    ensures all { SpellsHead (word Print ∷ sign LeftParenthesis ∷ t.name (codes "a") ∷ sign LeftBracket ∷ sign Colon ∷ sign RightBracket ∷ sign RightParenthesis ∷ []) (whole (print (index (name (codes "a")) (more_items (slice no_tree no_tree no_tree) no_items)))) }
    ensures mixed { SpellsHead (word Print ∷ sign LeftParenthesis ∷ t.name (codes "a") ∷ sign LeftBracket ∷ word NewAxis ∷ sign Comma ∷ sign Ellipsis ∷ sign Comma ∷ t.number 1 ∷ sign Comma ∷ sign RightBracket ∷ sign RightParenthesis ∷ []) (whole (print (index (name (codes "a")) (more_items new_axis (more_items ellipsis (more_items (at (number 1)) no_items)))))) }
    ensures twice { SpellsHead (word Print ∷ sign LeftParenthesis ∷ t.name (codes "a") ∷ sign LeftBracket ∷ t.number 0 ∷ sign RightBracket ∷ sign LeftBracket ∷ t.number 1 ∷ sign RightBracket ∷ sign RightParenthesis ∷ []) (whole (print (index (index (name (codes "a")) (more_items (at (number 0)) no_items)) (more_items (at (number 1)) no_items)))) }
    ensures open_step { SpellsHead (word Print ∷ sign LeftParenthesis ∷ t.name (codes "a") ∷ sign LeftBracket ∷ t.number 1 ∷ sign Colon ∷ t.number 2 ∷ sign Colon ∷ sign RightBracket ∷ sign RightParenthesis ∷ []) (whole (print (index (name (codes "a")) (more_items (slice (some_tree (number 1)) (some_tree (number 2)) no_tree) no_items)))) }
    ensures bounds { SpellsHead (word Print ∷ sign LeftParenthesis ∷ t.name (codes "a") ∷ sign LeftBracket ∷ t.name (codes "i") ∷ sign Plus ∷ t.number 1 ∷ sign Colon ∷ sign Comma ∷ sign Colon ∷ t.number 2 ∷ sign RightBracket ∷ sign RightParenthesis ∷ []) (whole (print (index (name (codes "a")) (more_items (slice (some_tree (arith Add (name (codes "i")) (number 1))) no_tree no_tree) (more_items (slice no_tree (some_tree (number 2)) no_tree) no_items))))) }
    ensures no_empty { (h : HeadTree) → HoldsHead (word Print ∷ sign LeftParenthesis ∷ t.name (codes "a") ∷ sign LeftBracket ∷ sign RightBracket ∷ sign RightParenthesis ∷ []) h → ⊥ }
    ensures no_two_commas { (h : HeadTree) → HoldsHead (word Print ∷ sign LeftParenthesis ∷ t.name (codes "a") ∷ sign LeftBracket ∷ t.number 1 ∷ sign Comma ∷ sign Comma ∷ sign RightBracket ∷ sign RightParenthesis ∷ []) h → ⊥ }
    ensures no_third_colon { (h : HeadTree) → HoldsHead (word Print ∷ sign LeftParenthesis ∷ t.name (codes "a") ∷ sign LeftBracket ∷ t.number 1 ∷ sign Colon ∷ t.number 2 ∷ sign Colon ∷ t.number 3 ∷ sign Colon ∷ t.number 4 ∷ sign RightBracket ∷ sign RightParenthesis ∷ []) h → ⊥ }
    ensures no_comma_alone { (h : HeadTree) → HoldsHead (word Print ∷ sign LeftParenthesis ∷ t.name (codes "a") ∷ sign LeftBracket ∷ sign Comma ∷ sign RightBracket ∷ sign RightParenthesis ∷ []) h → ⊥ }
{}

/// Shapes and lists.
pub fn shapes_by_example()
    ensures one { SpellsHead (t.name (codes "x") ∷ sign Equal ∷ function Zeros ∷ sign LeftParenthesis ∷ sign LeftParenthesis ∷ t.number 3 ∷ sign RightParenthesis ∷ sign RightParenthesis ∷ []) (whole (bind (codes "x") (zeros (one (number 3)) None))) }
    ensures tuple_of_one { SpellsHead (t.name (codes "x") ∷ sign Equal ∷ function Zeros ∷ sign LeftParenthesis ∷ sign LeftParenthesis ∷ t.number 3 ∷ sign Comma ∷ sign RightParenthesis ∷ sign RightParenthesis ∷ []) (whole (bind (codes "x") (zeros (tuple (more_trees (number 3) no_trees)) None))) }
    ensures empty { SpellsHead (t.name (codes "x") ∷ sign Equal ∷ function Zeros ∷ sign LeftParenthesis ∷ sign LeftParenthesis ∷ sign RightParenthesis ∷ sign RightParenthesis ∷ []) (whole (bind (codes "x") (zeros (tuple no_trees) None))) }
    ensures two { SpellsHead (t.name (codes "x") ∷ sign Equal ∷ function Zeros ∷ sign LeftParenthesis ∷ sign LeftParenthesis ∷ t.number 2 ∷ sign Comma ∷ t.number 3 ∷ sign Comma ∷ sign RightParenthesis ∷ sign RightParenthesis ∷ []) (whole (bind (codes "x") (zeros (tuple (more_trees (number 2) (more_trees (number 3) no_trees))) None))) }
    ensures goes_on { SpellsHead (t.name (codes "x") ∷ sign Equal ∷ function Full ∷ sign LeftParenthesis ∷ sign LeftParenthesis ∷ t.number 3 ∷ sign RightParenthesis ∷ sign Plus ∷ t.number 1 ∷ sign Comma ∷ t.number 0 ∷ sign RightParenthesis ∷ []) (whole (bind (codes "x") (full (one (arith Add (number 3) (number 1))) (number 0) None))) }
    ensures nested { SpellsHead (t.name (codes "x") ∷ sign Equal ∷ function Array ∷ sign LeftParenthesis ∷ sign LeftBracket ∷ sign LeftBracket ∷ t.number 1 ∷ sign Comma ∷ t.number 2 ∷ sign RightBracket ∷ sign Comma ∷ sign LeftBracket ∷ sign RightBracket ∷ sign RightBracket ∷ sign RightParenthesis ∷ []) (whole (bind (codes "x") (array (list (more_lists (list (more_lists (leaf (number 1)) (more_lists (leaf (number 2)) no_lists))) (more_lists (list no_lists) no_lists))) None))) }
    ensures list_comma { SpellsHead (t.name (codes "x") ∷ sign Equal ∷ function Array ∷ sign LeftParenthesis ∷ sign LeftBracket ∷ t.number 1 ∷ sign Comma ∷ sign RightBracket ∷ sign RightParenthesis ∷ []) (whole (bind (codes "x") (array (list (more_lists (leaf (number 1)) no_lists)) None))) }
    ensures no_no_tuple { (h : HeadTree) → HoldsHead (t.name (codes "x") ∷ sign Equal ∷ sign LeftParenthesis ∷ t.number 3 ∷ sign Comma ∷ t.number 4 ∷ sign RightParenthesis ∷ []) h → ⊥ }
    ensures no_comma_alone { (h : HeadTree) → HoldsHead (word Print ∷ sign LeftParenthesis ∷ function Zeros ∷ sign LeftParenthesis ∷ sign LeftParenthesis ∷ sign Comma ∷ sign RightParenthesis ∷ sign RightParenthesis ∷ sign RightParenthesis ∷ []) h → ⊥ }
    ensures no_two_commas { (h : HeadTree) → HoldsHead (word Print ∷ sign LeftParenthesis ∷ function Array ∷ sign LeftParenthesis ∷ sign LeftBracket ∷ t.number 1 ∷ sign Comma ∷ sign Comma ∷ sign RightBracket ∷ sign RightParenthesis ∷ sign RightParenthesis ∷ []) h → ⊥ }
    ensures no_comma { (h : HeadTree) → HoldsHead (word Print ∷ sign LeftParenthesis ∷ function Array ∷ sign LeftParenthesis ∷ sign LeftBracket ∷ t.number 1 ∷ t.number 2 ∷ sign RightBracket ∷ sign RightParenthesis ∷ sign RightParenthesis ∷ []) h → ⊥ }
{}

/// Methods, which are read as the calls.
pub fn methods_by_example()
    ensures several { SpellsHead (word Print ∷ sign LeftParenthesis ∷ t.name (codes "x") ∷ sign Dot ∷ t.name (codes "reshape") ∷ sign LeftParenthesis ∷ t.number 2 ∷ sign Comma ∷ t.number 3 ∷ sign RightParenthesis ∷ sign RightParenthesis ∷ []) (whole (print (reshape (name (codes "x")) (tuple (more_trees (number 2) (more_trees (number 3) no_trees)))))) }
    ensures a_tuple { SpellsHead (word Print ∷ sign LeftParenthesis ∷ t.name (codes "x") ∷ sign Dot ∷ t.name (codes "reshape") ∷ sign LeftParenthesis ∷ sign LeftParenthesis ∷ t.number 2 ∷ sign Comma ∷ t.number 3 ∷ sign RightParenthesis ∷ sign RightParenthesis ∷ sign RightParenthesis ∷ []) (whole (print (reshape (name (codes "x")) (tuple (more_trees (number 2) (more_trees (number 3) no_trees)))))) }
    ensures one { SpellsHead (word Print ∷ sign LeftParenthesis ∷ t.name (codes "x") ∷ sign Dot ∷ t.name (codes "reshape") ∷ sign LeftParenthesis ∷ t.number 6 ∷ sign RightParenthesis ∷ sign RightParenthesis ∷ []) (whole (print (reshape (name (codes "x")) (one (number 6))))) }
    ensures turned { SpellsHead (word Print ∷ sign LeftParenthesis ∷ t.name (codes "x") ∷ sign Dot ∷ t.name (codes "T") ∷ sign RightParenthesis ∷ []) (whole (print (transpose (name (codes "x")) no_shape))) }
    ensures reversed { SpellsHead (word Print ∷ sign LeftParenthesis ∷ t.name (codes "x") ∷ sign Dot ∷ function Transpose ∷ sign LeftParenthesis ∷ sign RightParenthesis ∷ sign RightParenthesis ∷ []) (whole (print (transpose (name (codes "x")) no_shape))) }
    ensures sum_axis { SpellsHead (word Print ∷ sign LeftParenthesis ∷ t.name (codes "x") ∷ sign Dot ∷ function (Reduce Sum) ∷ sign LeftParenthesis ∷ word Axis ∷ sign Equal ∷ t.number 0 ∷ sign RightParenthesis ∷ sign RightParenthesis ∷ []) (whole (print (reduce Sum (name (codes "x")) (some_tree (number 0))))) }
    ensures sum_plain { SpellsHead (word Print ∷ sign LeftParenthesis ∷ t.name (codes "x") ∷ sign Dot ∷ function (Reduce Sum) ∷ sign LeftParenthesis ∷ t.number 0 ∷ sign RightParenthesis ∷ sign RightParenthesis ∷ []) (whole (print (reduce Sum (name (codes "x")) (some_tree (number 0))))) }
    ensures cast { SpellsHead (word Print ∷ sign LeftParenthesis ∷ t.name (codes "x") ∷ sign Dot ∷ t.name (codes "astype") ∷ sign LeftParenthesis ∷ element Int8 ∷ sign RightParenthesis ∷ sign RightParenthesis ∷ []) (whole (print (as_type (name (codes "x")) Int8))) }
    ensures copy { SpellsHead (word Print ∷ sign LeftParenthesis ∷ t.name (codes "copy") ∷ sign Dot ∷ t.name (codes "copy") ∷ sign LeftParenthesis ∷ sign RightParenthesis ∷ sign RightParenthesis ∷ []) (whole (print (copy (name (codes "copy"))))) }
    ensures flat { SpellsHead (word Print ∷ sign LeftParenthesis ∷ t.name (codes "x") ∷ sign Dot ∷ t.name (codes "flatten") ∷ sign LeftParenthesis ∷ sign RightParenthesis ∷ sign RightParenthesis ∷ []) (whole (print (flatten (name (codes "x"))))) }
    ensures axes { SpellsHead (word Print ∷ sign LeftParenthesis ∷ t.name (codes "x") ∷ sign Dot ∷ function Transpose ∷ sign LeftParenthesis ∷ t.number 1 ∷ sign Comma ∷ t.number 0 ∷ sign RightParenthesis ∷ sign RightParenthesis ∷ []) (whole (print (transpose (name (codes "x")) (some_shape (tuple (more_trees (number 1) (more_trees (number 0) no_trees))))))) }
    ensures sum_of_all { SpellsHead (word Print ∷ sign LeftParenthesis ∷ t.name (codes "x") ∷ sign Dot ∷ function (Reduce Sum) ∷ sign LeftParenthesis ∷ sign RightParenthesis ∷ sign RightParenthesis ∷ []) (whole (print (reduce Sum (name (codes "x")) no_tree))) }
    ensures no_last_comma { (h : HeadTree) → HoldsHead (word Print ∷ sign LeftParenthesis ∷ t.name (codes "x") ∷ sign Dot ∷ t.name (codes "reshape") ∷ sign LeftParenthesis ∷ t.number 2 ∷ sign Comma ∷ t.number 3 ∷ sign Comma ∷ sign RightParenthesis ∷ sign RightParenthesis ∷ []) h → ⊥ }
{}

/// The lines of statements.
pub fn heads_by_example()
    ensures update { SpellsHead (t.name (codes "a") ∷ sign PlusEqual ∷ t.number 1 ∷ []) (whole (update (codes "a") Add (number 1))) }
    ensures put { SpellsHead (t.name (codes "a") ∷ sign LeftBracket ∷ t.number 0 ∷ sign RightBracket ∷ sign Equal ∷ t.number 1 ∷ []) (whole (put (codes "a") (more_items (at (number 0)) no_items) (number 1))) }
    ensures update_at { SpellsHead (t.name (codes "a") ∷ sign LeftBracket ∷ t.number 0 ∷ sign RightBracket ∷ sign PlusEqual ∷ t.number 1 ∷ []) (whole (update_at (codes "a") (more_items (at (number 0)) no_items) Add (number 1))) }
    ensures loop_to { SpellsHead (word For ∷ t.name (codes "i") ∷ word In ∷ word Range ∷ sign LeftParenthesis ∷ t.number 3 ∷ sign RightParenthesis ∷ sign Colon ∷ []) (loop_head (codes "i") no_tree (number 3)) }
    ensures loop_from { SpellsHead (word For ∷ t.name (codes "i") ∷ word In ∷ word Range ∷ sign LeftParenthesis ∷ t.number 1 ∷ sign Comma ∷ t.name (codes "n") ∷ sign RightParenthesis ∷ sign Colon ∷ []) (loop_head (codes "i") (some_tree (number 1)) (name (codes "n"))) }
    ensures load { SpellsHead (t.name (codes "a") ∷ sign Equal ∷ word Load ∷ sign LeftParenthesis ∷ t.name (codes "k") ∷ sign RightParenthesis ∷ []) (whole (load (codes "a") (codes "k"))) }
    ensures save { SpellsHead (word Save ∷ sign LeftParenthesis ∷ t.name (codes "k") ∷ sign Comma ∷ t.name (codes "a") ∷ sign RightParenthesis ∷ []) (whole (save (codes "k") (name (codes "a")))) }
    ensures power { SpellsHead (t.name (codes "a") ∷ sign DoubleStarEqual ∷ t.number 2 ∷ []) (whole (update (codes "a") Pow (number 2))) }
    ensures save_sum { SpellsHead (word Save ∷ sign LeftParenthesis ∷ t.name (codes "k") ∷ sign Comma ∷ t.name (codes "a") ∷ sign Plus ∷ t.name (codes "b") ∷ sign RightParenthesis ∷ []) (whole (save (codes "k") (arith Add (name (codes "a")) (name (codes "b"))))) }
    ensures no_no_colon { (h : HeadTree) → HoldsHead (word For ∷ t.name (codes "i") ∷ word In ∷ word Range ∷ sign LeftParenthesis ∷ t.number 3 ∷ sign RightParenthesis ∷ []) h → ⊥ }
    ensures no_behind { (h : HeadTree) → HoldsHead (t.name (codes "a") ∷ sign Equal ∷ t.name (codes "b") ∷ t.name (codes "c") ∷ []) h → ⊥ }
{}

/// What stands between operators: truth values, parentheses, and what is behind an operand.
pub fn operands_by_example()
    ensures truth { SpellsHead (word Print ∷ sign LeftParenthesis ∷ word True ∷ sign RightParenthesis ∷ []) (whole (print (truth true))) }
    ensures base { SpellsHead (word Print ∷ sign LeftParenthesis ∷ sign LeftParenthesis ∷ t.name (codes "a") ∷ sign Plus ∷ t.name (codes "b") ∷ sign RightParenthesis ∷ sign LeftBracket ∷ t.number 0 ∷ sign RightBracket ∷ sign RightParenthesis ∷ []) (whole (print (index (arith Add (name (codes "a")) (name (codes "b"))) (more_items (at (number 0)) no_items)))) }
    ensures raised_index { SpellsHead (word Print ∷ sign LeftParenthesis ∷ t.name (codes "a") ∷ sign LeftBracket ∷ t.number 0 ∷ sign RightBracket ∷ sign DoubleStar ∷ t.name (codes "b") ∷ sign RightParenthesis ∷ []) (whole (print (arith Pow (index (name (codes "a")) (more_items (at (number 0)) no_items)) (name (codes "b"))))) }
    ensures negative_method { SpellsHead (word Print ∷ sign LeftParenthesis ∷ sign Minus ∷ t.name (codes "a") ∷ sign Dot ∷ t.name (codes "T") ∷ sign RightParenthesis ∷ []) (whole (print (neg (transpose (name (codes "a")) no_shape)))) }
    ensures no_axis_here { (h : HeadTree) → HoldsHead (word Print ∷ sign LeftParenthesis ∷ word NewAxis ∷ sign RightParenthesis ∷ []) h → ⊥ }
    ensures no_type_alone { (h : HeadTree) → HoldsHead (word Print ∷ sign LeftParenthesis ∷ element Int8 ∷ sign RightParenthesis ∷ []) h → ⊥ }
    ensures no_function_alone { (h : HeadTree) → HoldsHead (word Print ∷ sign LeftParenthesis ∷ function (Reduce Sum) ∷ sign RightParenthesis ∷ []) h → ⊥ }
    ensures no_parentheses { (h : HeadTree) → HoldsHead (word Print ∷ sign LeftParenthesis ∷ sign LeftParenthesis ∷ sign RightParenthesis ∷ sign RightParenthesis ∷ []) h → ⊥ }
    ensures no_close { (h : HeadTree) → HoldsHead (word Print ∷ sign LeftParenthesis ∷ sign LeftParenthesis ∷ t.name (codes "a") ∷ sign RightParenthesis ∷ []) h → ⊥ }
    ensures no_keyword_as_name { (h : HeadTree) → HoldsHead (word Print ∷ sign LeftParenthesis ∷ t.name (codes "a") ∷ sign Plus ∷ word Unused ∷ sign RightParenthesis ∷ []) h → ⊥ }
{}

/// The other functions, and parts that are left out.
pub fn other_calls_by_example()
    ensures plain_full { SpellsHead (t.name (codes "x") ∷ sign Equal ∷ function Full ∷ sign LeftParenthesis ∷ t.number 3 ∷ sign Comma ∷ t.number 0 ∷ sign RightParenthesis ∷ []) (whole (bind (codes "x") (full (one (number 3)) (number 0) None))) }
    ensures ones { SpellsHead (t.name (codes "x") ∷ sign Equal ∷ function Ones ∷ sign LeftParenthesis ∷ sign LeftParenthesis ∷ t.number 2 ∷ sign Comma ∷ t.number 3 ∷ sign RightParenthesis ∷ sign Comma ∷ element Int8 ∷ sign RightParenthesis ∷ []) (whole (bind (codes "x") (ones (tuple (more_trees (number 2) (more_trees (number 3) no_trees))) (Some Int8)))) }
    ensures arange_to_type { SpellsHead (t.name (codes "x") ∷ sign Equal ∷ function Arange ∷ sign LeftParenthesis ∷ t.number 3 ∷ sign Comma ∷ word Dtype ∷ sign Equal ∷ element Int8 ∷ sign RightParenthesis ∷ []) (whole (bind (codes "x") (arange no_tree (number 3) (Some Int8)))) }
    ensures array_type { SpellsHead (t.name (codes "x") ∷ sign Equal ∷ function Array ∷ sign LeftParenthesis ∷ sign LeftBracket ∷ t.number 1 ∷ sign RightBracket ∷ sign Comma ∷ element Int8 ∷ sign RightParenthesis ∷ []) (whole (bind (codes "x") (array (list (more_lists (leaf (number 1)) no_lists)) (Some Int8)))) }
    ensures absolute { SpellsHead (word Print ∷ sign LeftParenthesis ∷ function Abs ∷ sign LeftParenthesis ∷ t.name (codes "a") ∷ sign RightParenthesis ∷ sign RightParenthesis ∷ []) (whole (print (abs (name (codes "a"))))) }
    ensures lesser { SpellsHead (word Print ∷ sign LeftParenthesis ∷ function Minimum ∷ sign LeftParenthesis ∷ t.name (codes "a") ∷ sign Comma ∷ t.name (codes "b") ∷ sign RightParenthesis ∷ sign RightParenthesis ∷ []) (whole (print (minimum (name (codes "a")) (name (codes "b"))))) }
    ensures greater { SpellsHead (word Print ∷ sign LeftParenthesis ∷ function Maximum ∷ sign LeftParenthesis ∷ t.name (codes "a") ∷ sign Comma ∷ t.name (codes "b") ∷ sign RightParenthesis ∷ sign RightParenthesis ∷ []) (whole (print (maximum (name (codes "a")) (name (codes "b"))))) }
    ensures sum { SpellsHead (word Print ∷ sign LeftParenthesis ∷ function (Reduce Sum) ∷ sign LeftParenthesis ∷ t.name (codes "a") ∷ sign RightParenthesis ∷ sign RightParenthesis ∷ []) (whole (print (reduce Sum (name (codes "a")) no_tree))) }
    ensures take_flat { SpellsHead (word Print ∷ sign LeftParenthesis ∷ function Take ∷ sign LeftParenthesis ∷ t.name (codes "a") ∷ sign Comma ∷ t.name (codes "i") ∷ sign RightParenthesis ∷ sign RightParenthesis ∷ []) (whole (print (take (name (codes "a")) (name (codes "i")) no_tree))) }
    ensures transpose_axes { SpellsHead (word Print ∷ sign LeftParenthesis ∷ function Transpose ∷ sign LeftParenthesis ∷ t.name (codes "a") ∷ sign Comma ∷ sign LeftParenthesis ∷ t.number 1 ∷ sign Comma ∷ t.number 0 ∷ sign RightParenthesis ∷ sign RightParenthesis ∷ sign RightParenthesis ∷ []) (whole (print (transpose (name (codes "a")) (some_shape (tuple (more_trees (number 1) (more_trees (number 0) no_trees))))))) }
    ensures broadcast { SpellsHead (word Print ∷ sign LeftParenthesis ∷ function BroadcastTo ∷ sign LeftParenthesis ∷ t.name (codes "a") ∷ sign Comma ∷ t.number 3 ∷ sign RightParenthesis ∷ sign RightParenthesis ∷ []) (whole (print (broadcast_to (name (codes "a")) (one (number 3))))) }
    ensures scan_flat { SpellsHead (word Print ∷ sign LeftParenthesis ∷ function (Scan CumSum) ∷ sign LeftParenthesis ∷ t.name (codes "a") ∷ sign RightParenthesis ∷ sign RightParenthesis ∷ []) (whole (print (scan CumSum (name (codes "a")) no_tree))) }
{}

/// Calls with a part too few, too many, or of another form.
pub fn no_calls_by_example()
    ensures no_value { (h : HeadTree) → HoldsHead (word Print ∷ sign LeftParenthesis ∷ function Full ∷ sign LeftParenthesis ∷ t.number 3 ∷ sign RightParenthesis ∷ sign RightParenthesis ∷ []) h → ⊥ }
    ensures no_two_extents { (h : HeadTree) → HoldsHead (word Print ∷ sign LeftParenthesis ∷ function Zeros ∷ sign LeftParenthesis ∷ t.number 2 ∷ sign Comma ∷ t.number 3 ∷ sign RightParenthesis ∷ sign RightParenthesis ∷ []) h → ⊥ }
    ensures no_step { (h : HeadTree) → HoldsHead (word Print ∷ sign LeftParenthesis ∷ function Arange ∷ sign LeftParenthesis ∷ t.number 1 ∷ sign Comma ∷ t.number 2 ∷ sign Comma ∷ t.number 3 ∷ sign RightParenthesis ∷ sign RightParenthesis ∷ []) h → ⊥ }
    ensures no_list { (h : HeadTree) → HoldsHead (word Print ∷ sign LeftParenthesis ∷ function Array ∷ sign LeftParenthesis ∷ t.number 1 ∷ sign RightParenthesis ∷ sign RightParenthesis ∷ []) h → ⊥ }
    ensures no_second { (h : HeadTree) → HoldsHead (word Print ∷ sign LeftParenthesis ∷ function Minimum ∷ sign LeftParenthesis ∷ t.name (codes "a") ∷ sign RightParenthesis ∷ sign RightParenthesis ∷ []) h → ⊥ }
    ensures no_third { (h : HeadTree) → HoldsHead (word Print ∷ sign LeftParenthesis ∷ function Where ∷ sign LeftParenthesis ∷ t.name (codes "a") ∷ sign Comma ∷ t.name (codes "b") ∷ sign RightParenthesis ∷ sign RightParenthesis ∷ []) h → ⊥ }
    ensures no_operand { (h : HeadTree) → HoldsHead (word Print ∷ sign LeftParenthesis ∷ function (Reduce Sum) ∷ sign LeftParenthesis ∷ word Axis ∷ sign Equal ∷ t.number 0 ∷ sign RightParenthesis ∷ sign RightParenthesis ∷ []) h → ⊥ }
    ensures no_equal { (h : HeadTree) → HoldsHead (word Print ∷ sign LeftParenthesis ∷ function (Reduce Sum) ∷ sign LeftParenthesis ∷ t.name (codes "a") ∷ sign Comma ∷ word Axis ∷ t.number 0 ∷ sign RightParenthesis ∷ sign RightParenthesis ∷ []) h → ⊥ }
    ensures no_indices { (h : HeadTree) → HoldsHead (word Print ∷ sign LeftParenthesis ∷ function Take ∷ sign LeftParenthesis ∷ t.name (codes "a") ∷ sign RightParenthesis ∷ sign RightParenthesis ∷ []) h → ⊥ }
    ensures no_two_axes { (h : HeadTree) → HoldsHead (word Print ∷ sign LeftParenthesis ∷ function Transpose ∷ sign LeftParenthesis ∷ t.name (codes "a") ∷ sign Comma ∷ t.number 1 ∷ sign Comma ∷ t.number 0 ∷ sign RightParenthesis ∷ sign RightParenthesis ∷ []) h → ⊥ }
    ensures no_shape { (h : HeadTree) → HoldsHead (word Print ∷ sign LeftParenthesis ∷ function BroadcastTo ∷ sign LeftParenthesis ∷ t.name (codes "a") ∷ sign RightParenthesis ∷ sign RightParenthesis ∷ []) h → ⊥ }
    ensures no_weights { (h : HeadTree) → HoldsHead (word Print ∷ sign LeftParenthesis ∷ function Stencil ∷ sign LeftParenthesis ∷ t.name (codes "a") ∷ sign Comma ∷ t.number 1 ∷ sign RightParenthesis ∷ sign RightParenthesis ∷ []) h → ⊥ }
    ensures no_name { (h : HeadTree) → HoldsHead (word Print ∷ sign LeftParenthesis ∷ function Apply ∷ sign LeftParenthesis ∷ t.number 1 ∷ sign Comma ∷ t.name (codes "a") ∷ sign Comma ∷ t.name (codes "b") ∷ sign RightParenthesis ∷ sign RightParenthesis ∷ []) h → ⊥ }
    ensures no_third_axis { (h : HeadTree) → HoldsHead (word Print ∷ sign LeftParenthesis ∷ function (Scan CumSum) ∷ sign LeftParenthesis ∷ t.name (codes "a") ∷ sign Comma ∷ t.number 0 ∷ sign Comma ∷ t.number 1 ∷ sign RightParenthesis ∷ sign RightParenthesis ∷ []) h → ⊥ }
    ensures no_equal_type { (h : HeadTree) → HoldsHead (word Print ∷ sign LeftParenthesis ∷ function Zeros ∷ sign LeftParenthesis ∷ t.number 3 ∷ sign Comma ∷ word Dtype ∷ element Int8 ∷ sign RightParenthesis ∷ sign RightParenthesis ∷ []) h → ⊥ }
    ensures no_comma_behind { (h : HeadTree) → HoldsHead (word Print ∷ sign LeftParenthesis ∷ function Zeros ∷ sign LeftParenthesis ∷ t.number 3 ∷ sign Comma ∷ element Int8 ∷ sign Comma ∷ sign RightParenthesis ∷ sign RightParenthesis ∷ []) h → ⊥ }
{}

/// Methods with another form, and words that are no methods.
pub fn no_methods_by_example()
    ensures no_call_of_turned { (h : HeadTree) → HoldsHead (word Print ∷ sign LeftParenthesis ∷ t.name (codes "x") ∷ sign Dot ∷ t.name (codes "T") ∷ sign LeftParenthesis ∷ sign RightParenthesis ∷ sign RightParenthesis ∷ []) h → ⊥ }
    ensures no_copy_without_call { (h : HeadTree) → HoldsHead (word Print ∷ sign LeftParenthesis ∷ t.name (codes "x") ∷ sign Dot ∷ t.name (codes "copy") ∷ sign RightParenthesis ∷ []) h → ⊥ }
    ensures no_named_type { (h : HeadTree) → HoldsHead (word Print ∷ sign LeftParenthesis ∷ t.name (codes "x") ∷ sign Dot ∷ t.name (codes "astype") ∷ sign LeftParenthesis ∷ word Dtype ∷ sign Equal ∷ element Int8 ∷ sign RightParenthesis ∷ sign RightParenthesis ∷ []) h → ⊥ }
    ensures no_extents { (h : HeadTree) → HoldsHead (word Print ∷ sign LeftParenthesis ∷ t.name (codes "x") ∷ sign Dot ∷ t.name (codes "reshape") ∷ sign LeftParenthesis ∷ sign RightParenthesis ∷ sign RightParenthesis ∷ []) h → ⊥ }
    ensures no_two_axes { (h : HeadTree) → HoldsHead (word Print ∷ sign LeftParenthesis ∷ t.name (codes "x") ∷ sign Dot ∷ function (Reduce Sum) ∷ sign LeftParenthesis ∷ t.number 0 ∷ sign Comma ∷ t.number 1 ∷ sign RightParenthesis ∷ sign RightParenthesis ∷ []) h → ⊥ }
    ensures no_take { (h : HeadTree) → HoldsHead (word Print ∷ sign LeftParenthesis ∷ t.name (codes "x") ∷ sign Dot ∷ function Take ∷ sign LeftParenthesis ∷ t.name (codes "i") ∷ sign RightParenthesis ∷ sign RightParenthesis ∷ []) h → ⊥ }
    ensures no_other { (h : HeadTree) → HoldsHead (word Print ∷ sign LeftParenthesis ∷ t.name (codes "x") ∷ sign Dot ∷ t.name (codes "t") ∷ sign RightParenthesis ∷ []) h → ⊥ }
    ensures no_number { (h : HeadTree) → HoldsHead (word Print ∷ sign LeftParenthesis ∷ t.name (codes "x") ∷ sign Dot ∷ t.number 0 ∷ sign RightParenthesis ∷ []) h → ⊥ }
{}

/// Lines that are no statements.
pub fn no_heads_by_example()
    ensures no_keyword { (h : HeadTree) → HoldsHead (word Unused ∷ sign Equal ∷ t.number 1 ∷ []) h → ⊥ }
    ensures no_function { (h : HeadTree) → HoldsHead (function (Reduce Sum) ∷ sign Equal ∷ t.number 1 ∷ []) h → ⊥ }
    ensures no_type { (h : HeadTree) → HoldsHead (element Int8 ∷ sign Equal ∷ t.number 1 ∷ []) h → ⊥ }
    ensures no_comparison { (h : HeadTree) → HoldsHead (t.name (codes "a") ∷ sign EqualEqual ∷ t.number 1 ∷ []) h → ⊥ }
    ensures no_expression { (h : HeadTree) → HoldsHead (t.name (codes "a") ∷ sign Plus ∷ t.number 1 ∷ []) h → ⊥ }
    ensures no_empty_index { (h : HeadTree) → HoldsHead (t.name (codes "a") ∷ sign LeftBracket ∷ sign RightBracket ∷ sign Equal ∷ t.number 1 ∷ []) h → ⊥ }
    ensures no_index_alone { (h : HeadTree) → HoldsHead (t.name (codes "a") ∷ sign LeftBracket ∷ t.number 0 ∷ sign RightBracket ∷ []) h → ⊥ }
    ensures no_second_index { (h : HeadTree) → HoldsHead (t.name (codes "a") ∷ sign LeftBracket ∷ t.number 0 ∷ sign RightBracket ∷ sign LeftBracket ∷ t.number 1 ∷ sign RightBracket ∷ sign Equal ∷ t.number 2 ∷ []) h → ⊥ }
    ensures no_print_of_two { (h : HeadTree) → HoldsHead (word Print ∷ sign LeftParenthesis ∷ t.name (codes "a") ∷ sign Comma ∷ t.name (codes "b") ∷ sign RightParenthesis ∷ []) h → ⊥ }
    ensures no_print_of_none { (h : HeadTree) → HoldsHead (word Print ∷ sign LeftParenthesis ∷ sign RightParenthesis ∷ []) h → ⊥ }
    ensures no_bound { (h : HeadTree) → HoldsHead (word For ∷ t.name (codes "i") ∷ word In ∷ word Range ∷ sign LeftParenthesis ∷ sign RightParenthesis ∷ sign Colon ∷ []) h → ⊥ }
    ensures no_third_bound { (h : HeadTree) → HoldsHead (word For ∷ t.name (codes "i") ∷ word In ∷ word Range ∷ sign LeftParenthesis ∷ t.number 1 ∷ sign Comma ∷ t.number 2 ∷ sign Comma ∷ t.number 3 ∷ sign RightParenthesis ∷ sign Colon ∷ []) h → ⊥ }
    ensures no_range { (h : HeadTree) → HoldsHead (word For ∷ t.name (codes "i") ∷ word In ∷ t.name (codes "a") ∷ sign Colon ∷ []) h → ⊥ }
    ensures no_number_as_file { (h : HeadTree) → HoldsHead (t.name (codes "a") ∷ sign Equal ∷ word Load ∷ sign LeftParenthesis ∷ t.number 1 ∷ sign RightParenthesis ∷ []) h → ⊥ }
    ensures no_sum_of_load { (h : HeadTree) → HoldsHead (t.name (codes "a") ∷ sign Equal ∷ word Load ∷ sign LeftParenthesis ∷ t.name (codes "k") ∷ sign RightParenthesis ∷ sign Plus ∷ t.number 1 ∷ []) h → ⊥ }
    ensures no_file { (h : HeadTree) → HoldsHead (word Save ∷ sign LeftParenthesis ∷ t.name (codes "a") ∷ sign RightParenthesis ∷ []) h → ⊥ }
    ensures no_second_line { (h : HeadTree) → HoldsHead (word Print ∷ sign LeftParenthesis ∷ t.name (codes "a") ∷ sign RightParenthesis ∷ word Print ∷ sign LeftParenthesis ∷ t.name (codes "b") ∷ sign RightParenthesis ∷ []) h → ⊥ }
{}

/// How deep brackets nest, and how high a tree may be.
pub fn limits_by_example()
    ensures deepest { HoldsHead (nested 64) (whole (print (number 1))) }
    ensures too_deep { (h : HeadTree) → HoldsHead (nested 65) h → ⊥ }
    ensures highest { HoldsHead (negated 200) (whole (print (negative 200))) }
    ensures too_high { (h : HeadTree) → HoldsHead (negated 201) h → ⊥ }
{}

/// Words that are reserved, and words that are not.
pub fn words_by_example()
    ensures keyword { keyword_of (codes "lambda") ≡ Some (Itself Unused) }
    ensures last_keyword { keyword_of (codes "yield") ≡ Some (Itself Unused) }
    ensures none { keyword_of (codes "None") ≡ Some (Itself NewAxis) }
    ensures range { keyword_of (codes "range") ≡ Some (Itself Range) }
    ensures element_type { keyword_of (codes "uint64") ≡ Some (Element UInt64) }
    ensures reduction { keyword_of (codes "max") ≡ Some (Call (Reduce Max)) }
    ensures last_function { keyword_of (codes "argmax") ≡ Some (Call (Scan ArgMax)) }
    ensures method { keyword_of (codes "reshape") ≡ None }
    ensures turned { keyword_of (codes "T") ≡ None }
    ensures beginning { keyword_of (codes "for_") ≡ None }
    ensures capital { keyword_of (codes "For") ≡ None }
    ensures float { keyword_of (codes "float64") ≡ None }
{}
