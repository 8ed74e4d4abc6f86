//! Worked examples of canonical text. Each clause is computed by the check, so a definition that
//! writes something else is refused. The texts are written by hand, by the rules of the language.
ghost use Rattle.std.specs.Prelude.{◌≡◌, codes, Some, None, true, false, [], ◌∷◌, ◌++◌};
ghost use Rattle.lg_elem.specs.declared.dtype.DType.TheVariants.{Bool as Truth, Int8, Int16, Int32, Int64, UInt8, UInt16, UInt32, UInt64};
ghost use Rattle.lg_elem.specs.declared.kinds.Compare.TheVariants.{Eq, Ne, Lt, Le, Gt, Ge};
ghost use Rattle.lg_tree.specs.declared.kinds.Arith.TheVariants.{Add, Sub, Mul, FloorDiv, Rem, Pow, BitAnd, BitOr, BitXor, Shl, Shr};
ghost use Rattle.lg_tree.specs.declared.kinds.Red.TheVariants.{Sum, Prod, Min, Max, Any, All};
ghost use Rattle.lg_tree.specs.declared.kinds.ScanCall.TheVariants.{CumSum, CumProd, ArgMin, ArgMax};
ghost use Rattle.lg_tree.specs.Tree.{number, truth, name, neg, invert, arith, matmul, compare, index, full, zeros, ones, arange, array, abs, minimum, maximum, choose, reduce, take, transpose, broadcast_to, stencil, copy, flatten, as_type, reshape, apply, scan, no_tree, some_tree, no_trees, more_trees, one, tuple, no_shape, some_shape, at, slice, new_axis, ellipsis, no_items, more_items, leaf, list, no_lists, more_lists, bind, update, put, update_at, print, loop, load, save, no_lines, more_lines};
ghost use Rattle.lg_text.specs.Text.{text, head_text, lines_text, script_text};
ghost use Rattle.lg_text.specs.Examples.{a, b, c, i, j, plus, whole, item, two_items, lone, pair, list_of_one, list_of_two};

/// Numbers, truth values, names, and operators in front of an operand. An operand stands in
/// parentheses exactly where it is an operator with its operands.
pub fn literals_by_example()
    ensures zero { text (number 0) ≡ codes "0" }
    ensures greatest { text (number 18446744073709551615) ≡ codes "18446744073709551615" }
    ensures yes { text (truth true) ≡ codes "True" }
    ensures no_truth { text (truth false) ≡ codes "False" }
    ensures word { text (name (codes "x_1")) ≡ codes "x_1" }
    ensures negative { text (neg a) ≡ codes "-a" }
    ensures negative_number { text (neg (number 1)) ≡ codes "-1" }
    ensures twice { text (neg (neg a)) ≡ codes "-(-a)" }
    ensures negative_sum { text (neg (plus a b)) ≡ codes "-(a + b)" }
    ensures negative_power { text (neg (arith Pow a (number 2))) ≡ codes "-(a ** 2)" }
    ensures negative_product { text (neg (matmul a b)) ≡ codes "-(a @ b)" }
    ensures negative_comparison { text (neg (compare Lt a b)) ≡ codes "-(a < b)" }
    ensures negative_call { text (neg (abs a)) ≡ codes "-abs(a)" }
    ensures negative_place { text (neg (index a (item (at (number 0))))) ≡ codes "-a[0]" }
    ensures negative_copy { text (neg (copy a)) ≡ codes "-a.copy()" }
    ensures inverted { text (invert a) ≡ codes "~a" }
    ensures inverted_twice { text (invert (invert a)) ≡ codes "~(~a)" }
    ensures inverted_negative { text (invert (neg a)) ≡ codes "~(-a)" }
{}

/// Operators between two operands: one space on each side, and parentheses around each operand that
/// is an operator with its operands.
pub fn operations_by_example()
    ensures add { text (arith Add a b) ≡ codes "a + b" }
    ensures sub { text (arith Sub a b) ≡ codes "a - b" }
    ensures mul { text (arith Mul a b) ≡ codes "a * b" }
    ensures floor_div { text (arith FloorDiv a b) ≡ codes "a // b" }
    ensures rem { text (arith Rem a b) ≡ codes "a % b" }
    ensures pow { text (arith Pow a b) ≡ codes "a ** b" }
    ensures bit_and { text (arith BitAnd a b) ≡ codes "a & b" }
    ensures bit_or { text (arith BitOr a b) ≡ codes "a | b" }
    ensures bit_xor { text (arith BitXor a b) ≡ codes "a ^ b" }
    ensures shl { text (arith Shl a b) ≡ codes "a << b" }
    ensures shr { text (arith Shr a b) ≡ codes "a >> b" }
    ensures matmul { text (matmul a b) ≡ codes "a @ b" }
    ensures eq { text (compare Eq a b) ≡ codes "a == b" }
    ensures ne { text (compare Ne a b) ≡ codes "a != b" }
    ensures lt { text (compare Lt a b) ≡ codes "a < b" }
    ensures le { text (compare Le a b) ≡ codes "a <= b" }
    ensures gt { text (compare Gt a b) ≡ codes "a > b" }
    ensures ge { text (compare Ge a b) ≡ codes "a >= b" }
    ensures left { text (plus (plus a b) c) ≡ codes "(a + b) + c" }
    ensures right { text (plus a (plus b c)) ≡ codes "a + (b + c)" }
    ensures tighter { text (plus (arith Mul a b) c) ≡ codes "(a * b) + c" }
    ensures negative_left { text (plus (neg a) b) ≡ codes "(-a) + b" }
    ensures negative_right { text (plus a (neg (number 1))) ≡ codes "a + (-1)" }
    ensures negative_base { text (arith Pow (neg a) b) ≡ codes "(-a) ** b" }
    ensures left_power { text (arith Pow (arith Pow a b) c) ≡ codes "(a ** b) ** c" }
    ensures right_power { text (arith Pow a (arith Pow b c)) ≡ codes "a ** (b ** c)" }
    ensures negative_exponent { text (arith Pow a (neg (number 1))) ≡ codes "a ** (-1)" }
    ensures inverted_operand { text (matmul (invert a) b) ≡ codes "(~a) @ b" }
    ensures product_operand { text (matmul a (matmul b c)) ≡ codes "a @ (b @ c)" }
    ensures comparisons { text (compare Eq (compare Lt a b) (truth true))
        ≡ codes "(a < b) == True" }
    ensures compared_sum { text (compare Lt (plus a b) c) ≡ codes "(a + b) < c" }
    ensures calls { text (plus (abs a) (minimum a b)) ≡ codes "abs(a) + minimum(a, b)" }
    ensures places { text (plus (index a (item (at (number 0)))) (copy b))
        ≡ codes "a[0] + b.copy()" }
{}

/// Indices: the colons of a slice bring no spaces, an absent step has no colon of its own, and what
/// stands between them has no parentheses of its own.
pub fn indices_by_example()
    ensures place { text (index a (item (at (number 0)))) ≡ codes "a[0]" }
    ensures places { text (index a (two_items (at i) (at j))) ≡ codes "a[i, j]" }
    ensures negative_place { text (index a (item (at (neg (number 1))))) ≡ codes "a[-1]" }
    ensures whole { text (index a (item whole)) ≡ codes "a[:]" }
    ensures start { text (index a (item (slice (some_tree (number 1)) no_tree no_tree)))
        ≡ codes "a[1:]" }
    ensures stop { text (index a (item (slice no_tree (some_tree (number 2)) no_tree)))
        ≡ codes "a[:2]" }
    ensures bounds { text (index a (item (slice (some_tree (number 1)) (some_tree (number 2))
        no_tree))) ≡ codes "a[1:2]" }
    ensures step { text (index a (item (slice no_tree no_tree (some_tree (number 2)))))
        ≡ codes "a[::2]" }
    ensures start_step { text (index a (item (slice (some_tree (number 1)) no_tree (some_tree
        (number 2))))) ≡ codes "a[1::2]" }
    ensures stop_step { text (index a (item (slice no_tree (some_tree (number 2)) (some_tree (number
        3))))) ≡ codes "a[:2:3]" }
    ensures all_parts { text (index a (item (slice (some_tree (number 1)) (some_tree (number 2))
        (some_tree (neg (number 1)))))) ≡ codes "a[1:2:-1]" }
    ensures sums { text (index a (two_items (slice (some_tree (plus i (number 1))) no_tree no_tree)
        (slice no_tree (some_tree (number 2)) no_tree))) ≡ codes "a[i + 1:, :2]" }
    ensures inner { text (index a (two_items (slice (some_tree (number 1)) (some_tree (neg (number 1)))
        no_tree) (slice no_tree (some_tree (neg (number 2))) no_tree))) ≡ codes "a[1:-1, :-2]" }
    ensures new_axis { text (index a (item new_axis)) ≡ codes "a[None]" }
    ensures ellipsis { text (index a (item ellipsis)) ≡ codes "a[...]" }
    ensures mixed { text (index a (more_items ellipsis (more_items new_axis (more_items (at (number
        1)) (more_items whole no_items))))) ≡ codes "a[..., None, 1, :]" }
    ensures of_sum { text (index (plus a b) (item (at (number 0)))) ≡ codes "(a + b)[0]" }
    ensures of_negative { text (index (neg a) (item (at (number 0)))) ≡ codes "(-a)[0]" }
    ensures of_inverted { text (index (invert a) (item (at (number 0)))) ≡ codes "(~a)[0]" }
    ensures of_product { text (index (matmul a b) (item (at (number 0)))) ≡ codes "(a @ b)[0]" }
    ensures of_comparison { text (index (compare Lt a b) (item (at (number 0))))
        ≡ codes "(a < b)[0]" }
    ensures of_place { text (index (index a (item (at (number 0)))) (item (at (number 1))))
        ≡ codes "a[0][1]" }
    ensures of_number { text (index (number 3) (item ellipsis)) ≡ codes "3[...]" }
    ensures of_truth { text (index (truth true) (item ellipsis)) ≡ codes "True[...]" }
    ensures of_call { text (index (abs a) (item (at (number 0)))) ≡ codes "abs(a)[0]" }
    ensures of_copy { text (index (copy a) (item (at (number 0)))) ≡ codes "a.copy()[0]" }
{}

/// Calls that make arrays: types without `dtype=`, one extent as it is, several in parentheses, and a
/// lone one in parentheses with a comma.
pub fn makers_by_example()
    ensures full { text (full (one (number 3)) (number 7) None) ≡ codes "full(3, 7)" }
    ensures no_extents { text (full (tuple no_trees) (number 7) None) ≡ codes "full((), 7)" }
    ensures lone_extent { text (full (lone (number 3)) (number 7) None) ≡ codes "full((3,), 7)" }
    ensures two_extents { text (full (pair (number 3) (number 4)) (number 7) (Some Int8))
        ≡ codes "full((3, 4), 7, int8)" }
    ensures three_extents { text (full (tuple (more_trees (number 3) (more_trees (number 4)
        (more_trees (number 5) no_trees)))) (truth true) (Some Truth)) ≡
        codes "full((3, 4, 5), True, bool)" }
    ensures sums { text (full (one (plus i (number 1))) (neg (number 1)) None)
        ≡ codes "full(i + 1, -1)" }
    ensures members_of_extents { text (zeros (pair (plus i (number 1)) (neg (number 1))) None)
        ≡ codes "zeros((i + 1, -1))" }
    ensures zeros { text (zeros (one (number 3)) None) ≡ codes "zeros(3)" }
    ensures typed_zeros { text (zeros (pair (number 2) (number 3)) (Some UInt16))
        ≡ codes "zeros((2, 3), uint16)" }
    ensures ones { text (ones (one (number 3)) None) ≡ codes "ones(3)" }
    ensures typed_ones { text (ones (one (number 3)) (Some Int16)) ≡ codes "ones(3, int16)" }
    ensures arange { text (arange no_tree (number 3) None) ≡ codes "arange(3)" }
    ensures typed_arange { text (arange no_tree (number 3) (Some Int32))
        ≡ codes "arange(3, int32)" }
    ensures range { text (arange (some_tree (number 1)) (number 3) None) ≡ codes "arange(1, 3)" }
    ensures typed_range { text (arange (some_tree (number 1)) (number 3) (Some UInt64))
        ≡ codes "arange(1, 3, uint64)" }
    ensures empty_array { text (array (list no_lists) None) ≡ codes "array([])" }
    ensures lone_number { text (array (list_of_one (leaf (number 1))) None) ≡ codes "array([1])" }
    ensures numbers { text (array (list (more_lists (leaf (number 1)) (more_lists (leaf (number 2))
        (more_lists (leaf (number 3)) no_lists)))) (Some UInt8)) ≡ codes "array([1, 2, 3], uint8)" }
    ensures rows { text (array (list_of_two (list_of_two (leaf (number 1)) (leaf (number 2)))
        (list_of_two (leaf (number 3)) (leaf (number 4)))) None) ≡ codes "array([[1, 2], [3, 4]])" }
    ensures empty_rows { text (array (list_of_two (list no_lists) (list no_lists)) None)
        ≡ codes "array([[], []])" }
    ensures members { text (array (list_of_two (leaf (plus a b)) (leaf (neg (number 1)))) None)
        ≡ codes "array([a + b, -1])" }
{}

/// Calls that compute with elements: axes with `axis=`, and no parentheses around a member.
pub fn computations_by_example()
    ensures abs { text (abs (neg a)) ≡ codes "abs(-a)" }
    ensures minimum { text (minimum a b) ≡ codes "minimum(a, b)" }
    ensures maximum { text (maximum (plus a b) c) ≡ codes "maximum(a + b, c)" }
    ensures choose { text (choose (compare Lt a b) a (neg b)) ≡ codes "where(a < b, a, -b)" }
    ensures sum_all { text (reduce Sum a no_tree) ≡ codes "sum(a)" }
    ensures prod_all { text (reduce Prod a no_tree) ≡ codes "prod(a)" }
    ensures min_all { text (reduce Min a no_tree) ≡ codes "min(a)" }
    ensures max_all { text (reduce Max a no_tree) ≡ codes "max(a)" }
    ensures any_all { text (reduce Any a no_tree) ≡ codes "any(a)" }
    ensures all_all { text (reduce All a no_tree) ≡ codes "all(a)" }
    ensures sum_axis { text (reduce Sum a (some_tree (number 0))) ≡ codes "sum(a, axis=0)" }
    ensures max_axis { text (reduce Max (plus a b) (some_tree (neg (number 1))))
        ≡ codes "max(a + b, axis=-1)" }
    ensures take { text (take a i no_tree) ≡ codes "take(a, i)" }
    ensures take_axis { text (take a (plus i (number 1)) (some_tree (number 1)))
        ≡ codes "take(a, i + 1, axis=1)" }
    ensures stencil { text (stencil a (list (more_lists (leaf (number 1)) (more_lists (leaf (neg
        (number 2))) (more_lists (leaf (number 1)) no_lists))))) ≡ codes "stencil(a, [1, -2, 1])" }
    ensures stencil_rows { text (stencil (plus a b) (list_of_one (list_of_one (leaf (number 1)))))
        ≡ codes "stencil(a + b, [[1]])" }
    ensures apply { text (apply (codes "mix") a (neg b)) ≡ codes "apply(mix, a, -b)" }
    ensures cumsum { text (scan CumSum a no_tree) ≡ codes "cumsum(a)" }
    ensures cumprod { text (scan CumProd a no_tree) ≡ codes "cumprod(a)" }
    ensures argmin { text (scan ArgMin a no_tree) ≡ codes "argmin(a)" }
    ensures argmax { text (scan ArgMax a no_tree) ≡ codes "argmax(a)" }
    ensures scan_axis { text (scan CumSum a (some_tree (number 0))) ≡ codes "cumsum(a, axis=0)" }
{}

/// Calls and methods that give an array another form: the base of a method stands in parentheses
/// exactly where it is an operator with its operands.
pub fn changes_by_example()
    ensures reversed { text (transpose a no_shape) ≡ codes "transpose(a)" }
    ensures axis { text (transpose a (some_shape (one (number 0)))) ≡ codes "transpose(a, 0)" }
    ensures axes { text (transpose (plus a b) (some_shape (pair (number 1) (number 0))))
        ≡ codes "transpose(a + b, (1, 0))" }
    ensures lone_axis { text (transpose a (some_shape (lone (number 0))))
        ≡ codes "transpose(a, (0,))" }
    ensures no_axes { text (transpose a (some_shape (tuple no_trees))) ≡ codes "transpose(a, ())" }
    ensures broadcast { text (broadcast_to a (one (number 3))) ≡ codes "broadcast_to(a, 3)" }
    ensures broadcast_both { text (broadcast_to (neg a) (pair (number 2) (number 3)))
        ≡ codes "broadcast_to(-a, (2, 3))" }
    ensures copy { text (copy a) ≡ codes "a.copy()" }
    ensures copy_sum { text (copy (plus a b)) ≡ codes "(a + b).copy()" }
    ensures copy_negative { text (copy (neg a)) ≡ codes "(-a).copy()" }
    ensures copy_inverted { text (copy (invert a)) ≡ codes "(~a).copy()" }
    ensures copy_product { text (copy (matmul a b)) ≡ codes "(a @ b).copy()" }
    ensures copy_comparison { text (copy (compare Eq a b)) ≡ codes "(a == b).copy()" }
    ensures copy_number { text (copy (number 3)) ≡ codes "3.copy()" }
    ensures copy_truth { text (copy (truth true)) ≡ codes "True.copy()" }
    ensures copy_place { text (copy (index a (item (at (number 0))))) ≡ codes "a[0].copy()" }
    ensures copy_call { text (copy (abs a)) ≡ codes "abs(a).copy()" }
    ensures copy_copy { text (copy (copy a)) ≡ codes "a.copy().copy()" }
    ensures flatten { text (flatten a) ≡ codes "a.flatten()" }
    ensures flatten_sum { text (flatten (plus a b)) ≡ codes "(a + b).flatten()" }
    ensures as_bool { text (as_type a Truth) ≡ codes "a.astype(bool)" }
    ensures as_int8 { text (as_type a Int8) ≡ codes "a.astype(int8)" }
    ensures as_int16 { text (as_type a Int16) ≡ codes "a.astype(int16)" }
    ensures as_int32 { text (as_type a Int32) ≡ codes "a.astype(int32)" }
    ensures as_int64 { text (as_type a Int64) ≡ codes "a.astype(int64)" }
    ensures as_uint8 { text (as_type a UInt8) ≡ codes "a.astype(uint8)" }
    ensures as_uint16 { text (as_type a UInt16) ≡ codes "a.astype(uint16)" }
    ensures as_uint32 { text (as_type a UInt32) ≡ codes "a.astype(uint32)" }
    ensures as_uint64 { text (as_type a UInt64) ≡ codes "a.astype(uint64)" }
    ensures as_type_sum { text (as_type (plus a b) Int8) ≡ codes "(a + b).astype(int8)" }
    ensures reshape { text (reshape a (one (neg (number 1)))) ≡ codes "a.reshape(-1)" }
    ensures reshape_both { text (reshape a (pair (number 2) (number 3)))
        ≡ codes "a.reshape((2, 3))" }
    ensures reshape_lone { text (reshape a (lone (number 3))) ≡ codes "a.reshape((3,))" }
    ensures reshape_none { text (reshape a (tuple no_trees)) ≡ codes "a.reshape(())" }
    ensures reshape_call { text (reshape (arange no_tree (number 4) None) (pair (number 2) (number
        2))) ≡ codes "arange(4).reshape((2, 2))" }
    ensures reshape_sum { text (reshape (plus a b) (one (number 4))) ≡ codes "(a + b).reshape(4)" }
{}

/// Statements, without their indentation: one space on each side of `=` and of an assigning operator,
/// and no parentheses around the whole of an expression.
pub fn statements_by_example()
    ensures bind { head_text (bind (codes "x") (plus a b)) ≡ codes "x = a + b" }
    ensures update_add { head_text (update (codes "x") Add (number 1)) ≡ codes "x += 1" }
    ensures update_sub { head_text (update (codes "x") Sub (number 1)) ≡ codes "x -= 1" }
    ensures update_mul { head_text (update (codes "x") Mul (number 1)) ≡ codes "x *= 1" }
    ensures update_floor_div { head_text (update (codes "x") FloorDiv (number 1))
        ≡ codes "x //= 1" }
    ensures update_rem { head_text (update (codes "x") Rem (number 1)) ≡ codes "x %= 1" }
    ensures update_pow { head_text (update (codes "x") Pow (number 1)) ≡ codes "x **= 1" }
    ensures update_bit_and { head_text (update (codes "x") BitAnd (number 1)) ≡ codes "x &= 1" }
    ensures update_bit_or { head_text (update (codes "x") BitOr (number 1)) ≡ codes "x |= 1" }
    ensures update_bit_xor { head_text (update (codes "x") BitXor (number 1)) ≡ codes "x ^= 1" }
    ensures update_shl { head_text (update (codes "x") Shl (number 1)) ≡ codes "x <<= 1" }
    ensures update_shr { head_text (update (codes "x") Shr (number 1)) ≡ codes "x >>= 1" }
    ensures update_sum { head_text (update (codes "x") Add (plus a b)) ≡ codes "x += a + b" }
    ensures put { head_text (put (codes "x") (item (at (number 0))) (neg a)) ≡ codes "x[0] = -a" }
    ensures put_slices { head_text (put (codes "x") (two_items (slice (some_tree (number 1)) no_tree
        no_tree) whole) (plus a b)) ≡ codes "x[1:, :] = a + b" }
    ensures update_at { head_text (update_at (codes "x") (item ellipsis) FloorDiv (number 5))
        ≡ codes "x[...] //= 5" }
    ensures update_places { head_text (update_at (codes "x") (two_items (at i) (at j)) Shl (plus a
        b)) ≡ codes "x[i, j] <<= a + b" }
    ensures print { head_text (print (plus a b)) ≡ codes "print(a + b)" }
    ensures loop_to { head_text (loop (codes "i") no_tree (number 3) no_lines)
        ≡ codes "for i in range(3):" }
    ensures loop_from { head_text (loop (codes "i") (some_tree (neg (number 1))) (plus a (number 1))
        no_lines) ≡ codes "for i in range(-1, a + 1):" }
    ensures load { head_text (load (codes "x") (codes "k")) ≡ codes "x = load(k)" }
    ensures save { head_text (save (codes "k") (plus a b)) ≡ codes "save(k, a + b)" }
{}

/// Lines: four spaces for each level of blocks, each line ended by byte 10, and the lines of a block
/// behind the line of its loop. The numbers of lines leave no trace.
pub fn lines_by_example()
    ensures empty { script_text [] ≡ [] }
    ensures lone { script_text (record { number = 7; statement = print (number 1) } ∷ [])
        ≡ codes "print(1)" ++ 10 ∷ [] }
    ensures both { script_text (record { number = 1; statement = print (number 1) }
        ∷ record { number = 3; statement = print (number 2) } ∷ [])
        ≡ codes "print(1)" ++ 10 ∷ (codes "print(2)" ++ 10 ∷ []) }
    ensures indented { lines_text 1 (more_lines 1 (print (number 1)) no_lines)
        ≡ codes "    print(1)" ++ 10 ∷ [] }
    ensures deeper { lines_text 2 (more_lines 1 (print (number 1)) no_lines)
        ≡ codes "        print(1)" ++ 10 ∷ [] }
    ensures block { script_text (record {
      number = 1;
      statement = loop (codes "i") no_tree (number 2)
          (more_lines 2 (print (number 1)) (more_lines 3 (print (number 2)) no_lines));
    }
        ∷ record { number = 4; statement = print (number 3) } ∷ [])
        ≡ codes "for i in range(2):" ++ 10 ∷ (codes "    print(1)" ++ 10 ∷
        (codes "    print(2)" ++ 10 ∷ (codes "print(3)" ++ 10 ∷ []))) }
    ensures target { script_text (record {
      number = 1;
      statement = bind (codes "x") (plus (number 1)
          (arith Mul (number 2) a));
    } ∷ record {
      number = 3;
      statement = loop (codes "i") no_tree
          (number 2) (more_lines 4 (put (codes "x") (item (at i)) (neg (number 1))) no_lines);
    } ∷ [])
        ≡ codes "x = 1 + (2 * a)" ++ 10 ∷ (codes "for i in range(2):" ++ 10 ∷
        (codes "    x[i] = -1" ++ 10 ∷ [])) }
    ensures nested { script_text (record {
      number = 1;
      statement = loop (codes "i") no_tree (number 2)
          (more_lines 2 (loop (codes "j") no_tree (number 3) (more_lines 3 (print (number 1)) no_lines))
          (more_lines 4 (print (number 2)) no_lines));
    } ∷ [])
        ≡ codes "for i in range(2):" ++ 10 ∷ (codes "    for j in range(3):" ++ 10 ∷
        (codes "        print(1)" ++ 10 ∷ (codes "    print(2)" ++ 10 ∷ []))) }
{}
