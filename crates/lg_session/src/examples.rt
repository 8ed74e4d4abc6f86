//! Worked examples of the definitions. Each clause is computed by the check.
ghost use Rattle.std.specs.Prelude.{◌≡◌, codes, None, Some, true, false, [], ◌∷◌};
ghost use Rattle.lg_elem.specs.declared.dtype.DType.TheVariants.{Int8};
ghost use Rattle.lg_tree.specs.declared.kinds.Arith.TheVariants.{Add};
ghost use Rattle.lg_tree.specs.Tree.{number, name, neg, arith, matmul, zeros, arange, array, choose, index, transpose, broadcast_to, copy, flatten, as_type, reshape, some_tree, no_tree, no_trees, more_trees, one, tuple, no_shape, some_shape, at, slice, new_axis, ellipsis, no_items, more_items, leaf, list, no_lists, more_lists, bind, update, put, update_at, print, loop, load, no_lines, more_lines};
ghost use Rattle.lg_session.specs.Built.{is_built_tree, is_built, first_unbuilt};

/// Which forms a session evaluates so far: each part has to be one of them, wherever it stands.
pub fn built_by_example()
    ensures sum { is_built_tree (arith Add (name (codes "a")) (number 1)) ≡ true }
    ensures product { is_built_tree (matmul (name (codes "a")) (number 1)) ≡ false }
    ensures inside { is_built_tree (neg (matmul (number 1) (number 1))) ≡ false }
    ensures left { is_built_tree (arith Add (matmul (number 1) (number 1)) (number 1)) ≡ false }
    ensures right { is_built_tree (arith Add (number 1) (matmul (number 1) (number 1))) ≡ false }
    ensures third { is_built_tree (choose (number 1) (number 1)
        (matmul (number 1) (number 1))) ≡ false }
    ensures bound { is_built_tree (arange (some_tree (matmul (number 1) (number 1)))
        (number 4) None) ≡ false }
    ensures extents { is_built_tree (zeros (tuple (more_trees (number 2)
        (more_trees (number 3) no_trees))) None) ≡ true }
    ensures extent { is_built_tree (zeros (tuple (more_trees (number 2)
        (more_trees (matmul (number 3) (number 3)) no_trees))) None) ≡ false }
    ensures nested { is_built_tree (array (list (more_lists
        (list (more_lists (leaf (number 1)) no_lists)) no_lists)) None) ≡ true }
    ensures member { is_built_tree (array (list (more_lists
        (list (more_lists (leaf (matmul (number 1) (number 1))) no_lists)) no_lists)) None)
        ≡ false }
    ensures items { is_built_tree (index (name (codes "a")) (more_items (at (number 0))
        (more_items (slice no_tree (some_tree (number 4)) (some_tree (neg (number 1))))
        (more_items new_axis (more_items ellipsis no_items))))) ≡ true }
    ensures place { is_built_tree (index (name (codes "a")) (more_items new_axis
        (more_items (at (matmul (number 0) (number 0))) no_items))) ≡ false }
    ensures stop { is_built_tree (index (name (codes "a")) (more_items
        (slice no_tree (some_tree (matmul (number 4) (number 4))) no_tree) no_items)) ≡ false }
    ensures step { is_built_tree (index (name (codes "a")) (more_items
        (slice no_tree no_tree (some_tree (matmul (number 2) (number 2)))) no_items)) ≡ false }
    ensures indexed { is_built_tree (index (matmul (name (codes "a")) (number 1))
        (more_items (at (number 0)) no_items)) ≡ false }
    ensures turned { is_built_tree (transpose (name (codes "a")) no_shape) ≡ true }
    ensures axes { is_built_tree (transpose (name (codes "a"))
        (some_shape (tuple (more_trees (number 1) (more_trees (number 0) no_trees))))) ≡ true }
    ensures axis { is_built_tree (transpose (name (codes "a"))
        (some_shape (tuple (more_trees (number 1)
        (more_trees (matmul (number 0) (number 0)) no_trees))))) ≡ false }
    ensures repeated { is_built_tree (broadcast_to (name (codes "a"))
        (tuple (more_trees (number 2) (more_trees (number 3) no_trees)))) ≡ true }
    ensures repeated_extent { is_built_tree (broadcast_to (name (codes "a"))
        (one (matmul (number 2) (number 2)))) ≡ false }
    ensures repeated_product { is_built_tree (broadcast_to (matmul (name (codes "a")) (number 1))
        (one (number 2))) ≡ false }
    ensures copies { is_built_tree (copy (flatten (as_type (name (codes "a")) Int8))) ≡ true }
    ensures copied { is_built_tree (copy (matmul (number 1) (number 1))) ≡ false }
    ensures flattened { is_built_tree (flatten (matmul (number 1) (number 1))) ≡ false }
    ensures typed { is_built_tree (as_type (matmul (number 1) (number 1)) Int8) ≡ false }
    ensures reshaped { is_built_tree (reshape (name (codes "a"))
        (tuple (more_trees (number 2) (more_trees (neg (number 1)) no_trees)))) ≡ true }
    ensures reshaped_part { is_built_tree (reshape (matmul (number 1) (number 1))
        (one (number 2))) ≡ false }
    ensures reshaped_extent { is_built_tree (reshape (name (codes "a"))
        (one (matmul (number 2) (number 2)))) ≡ false }
    ensures written { is_built (put (codes "a") (more_items (at (number 0)) no_items) (number 1))
        ≡ true }
    ensures written_place { is_built (put (codes "a")
        (more_items (at (matmul (number 0) (number 0))) no_items) (number 1)) ≡ false }
    ensures updated { is_built (update (codes "a") Add (number 1)) ≡ true }
    ensures updated_part { is_built (update_at (codes "a") (more_items ellipsis no_items) Add
        (matmul (number 1) (number 1))) ≡ false }
    ensures bound_name { is_built (bind (codes "a") (number 1)) ≡ true }
    ensures file { is_built (load (codes "a") (codes "b")) ≡ false }
    ensures none { first_unbuilt (record { number = 2; statement = print (number 1) } ∷ [])
        ≡ None }
    ensures in_block { first_unbuilt (record { number = 2; statement = print (number 1) }
        ∷ record {
          number = 4;
          statement = loop (codes "k") no_tree (number 2)
              (more_lines 5 (print (matmul (number 1) (number 1))) no_lines);
        }
        ∷ record { number = 6; statement = print (matmul (number 1) (number 1)) } ∷ []) ≡ Some 5 }
    ensures at_bounds { first_unbuilt (record {
      number = 4;
      statement = loop (codes "k") (some_tree (matmul (number 0) (number 0))) (number 2)
          (more_lines 5 (print (matmul (number 1) (number 1))) no_lines);
    } ∷ []) ≡ Some 4 }
    ensures behind_block { first_unbuilt (record {
      number = 4;
      statement = loop (codes "k") no_tree (number 2)
          (more_lines 5 (print (number 1)) no_lines);
    }
        ∷ record { number = 6; statement = load (codes "a") (codes "b") } ∷ []) ≡ Some 6 }
    ensures built_block { first_unbuilt (record {
      number = 4;
      statement = loop (codes "k") no_tree (number 2)
          (more_lines 5 (print (number 1)) no_lines);
    } ∷ []) ≡ None }
{}
