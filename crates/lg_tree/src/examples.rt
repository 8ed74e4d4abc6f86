//! Worked examples of the definitions. Each clause is computed by the check, so a definition that
//! says something else is refused. The values are counted by hand.
ghost use Rattle.std.specs.Prelude.{◌≡◌, codes, None, true, [], ◌∷◌};
ghost use Rattle.lg_elem.specs.declared.dtype.DType.TheVariants.{Int8};
ghost use Rattle.lg_elem.specs.declared.kinds.Compare.TheVariants.{Lt};
ghost use Rattle.lg_tree.specs.declared.kinds.Arith.TheVariants.{Add};
ghost use Rattle.lg_tree.specs.declared.kinds.Red.TheVariants.{Sum};
ghost use Rattle.lg_tree.specs.declared.kinds.ScanCall.TheVariants.{CumSum};
ghost use Rattle.lg_tree.specs.Tree.{number, truth, name, neg, invert, arith, matmul, compare, index, full, zeros, ones, arange, array, abs, minimum, maximum, choose, reduce, take, transpose, broadcast_to, stencil, copy, flatten, as_type, reshape, apply, scan, no_tree, some_tree, no_trees, more_trees, one, tuple, no_shape, some_shape, at, slice, new_axis, ellipsis, no_items, more_items, leaf, list, no_lists, more_lists, bind, update, put, update_at, print, loop, load, save, no_lines, more_lines, line_trees};
ghost use Rattle.lg_tree.specs.Measures.{height, item_height, statement_height, nodes, item_nodes, statement_nodes, line_nodes};

/// How high a tree is: a number, a truth value or a name has height 0, and any other node is one
/// higher than its highest part.
pub fn heights_by_example()
    ensures number { height (number 7) ≡ 0 }
    ensures truth { height (truth true) ≡ 0 }
    ensures name { height (name (codes "a")) ≡ 0 }
    ensures neg { height (neg (neg (number 7))) ≡ 2 }
    ensures invert { height (invert (number 7)) ≡ 1 }
    ensures sum { height (arith Add (name (codes "a")) (name (codes "b"))) ≡ 1 }
    ensures left { height (arith Add (arith Add (neg (number 1)) (number 2)) (number 3)) ≡ 3 }
    ensures right { height (arith Add (number 3) (neg (number 1))) ≡ 2 }
    ensures compared { height (compare Lt (number 1) (neg (number 2))) ≡ 2 }
    ensures full { height (full (one (number 3)) (neg (number 7)) None) ≡ 2 }
    ensures extent { height (full (one (neg (neg (number 3)))) (number 7) None) ≡ 3 }
    ensures zeros { height (zeros (one (number 3)) None) ≡ 1 }
    ensures ones { height (ones (one (neg (number 3))) None) ≡ 2 }
    ensures arange { height (arange no_tree (number 3) None) ≡ 1 }
    ensures range { height (arange (some_tree (neg (number 2))) (number 3) None) ≡ 2 }
    ensures empty { height (array (list no_lists) None) ≡ 2 }
    ensures array { height (array (list (more_lists (leaf (number 1)) no_lists)) None) ≡ 2 }
    ensures nested { height (array (list (more_lists (leaf (number 1))
        (more_lists (list no_lists) no_lists))) None) ≡ 3 }
    ensures abs { height (abs (neg (number 1))) ≡ 2 }
    ensures minimum { height (minimum (number 1) (neg (number 1))) ≡ 2 }
    ensures maximum { height (maximum (neg (number 1)) (number 1)) ≡ 2 }
    ensures condition { height (choose (neg (number 0)) (number 1) (number 2)) ≡ 2 }
    ensures chosen { height (choose (number 0) (neg (number 1)) (number 2)) ≡ 2 }
    ensures otherwise { height (choose (number 0) (number 1) (neg (number 2))) ≡ 2 }
    ensures product { height (matmul (number 1) (neg (number 1))) ≡ 2 }
    ensures factor { height (matmul (neg (number 1)) (number 1)) ≡ 2 }
    ensures place { height (index (number 1) (more_items (at (number 0)) no_items)) ≡ 2 }
    ensures indexed { height (index (neg (neg (number 1))) (more_items (at (number 0)) no_items))
        ≡ 3 }
    ensures whole { height (index (number 1)
        (more_items (slice no_tree no_tree no_tree) no_items)) ≡ 1 }
    ensures second { height (index (number 1)
        (more_items ellipsis (more_items (at (neg (number 0))) no_items))) ≡ 3 }
    ensures reduced { height (reduce Sum (neg (number 1)) no_tree) ≡ 2 }
    ensures axis { height (reduce Sum (number 1) (some_tree (neg (number 1)))) ≡ 2 }
    ensures taken { height (take (neg (number 1)) (number 1) no_tree) ≡ 2 }
    ensures indices { height (take (number 1) (neg (number 1)) no_tree) ≡ 2 }
    ensures along { height (take (number 1) (number 1) (some_tree (neg (number 1)))) ≡ 2 }
    ensures reversed { height (transpose (number 1) no_shape) ≡ 1 }
    ensures axes { height (transpose (number 1) (some_shape (tuple no_trees))) ≡ 2 }
    ensures transposed { height (transpose (neg (neg (number 1))) (some_shape (one (number 0))))
        ≡ 3 }
    ensures broadcast { height (broadcast_to (neg (number 1)) (one (number 3))) ≡ 2 }
    ensures tuple { height (broadcast_to (number 1) (tuple
        (more_trees (number 3) (more_trees (neg (number 3)) no_trees)))) ≡ 3 }
    ensures weights { height (stencil (number 1) (list no_lists)) ≡ 2 }
    ensures stencil { height (stencil (neg (neg (number 1))) (list no_lists)) ≡ 3 }
    ensures copy { height (copy (neg (number 1))) ≡ 2 }
    ensures flat { height (flatten (neg (number 1))) ≡ 2 }
    ensures as_type { height (as_type (neg (number 1)) Int8) ≡ 2 }
    ensures reshape { height (reshape (neg (neg (number 1))) (one (number 1))) ≡ 3 }
    ensures extents { height (reshape (number 1) (tuple no_trees)) ≡ 2 }
    ensures applied { height (apply (codes "mix") (number 1) (neg (number 1))) ≡ 2 }
    ensures operand { height (apply (codes "mix") (neg (number 1)) (number 1)) ≡ 2 }
    ensures scanned { height (scan CumSum (neg (number 1)) no_tree) ≡ 2 }
    ensures scan_axis { height (scan CumSum (number 1) (some_tree (neg (number 1)))) ≡ 2 }
{}

/// How high an item of an index is: an item without parts is no node.
pub fn items_by_example()
    ensures place { item_height (at (number 0)) ≡ 1 }
    ensures whole { item_height (slice no_tree no_tree no_tree) ≡ 0 }
    ensures start { item_height (slice (some_tree (number 1)) no_tree no_tree) ≡ 1 }
    ensures stop { item_height (slice no_tree (some_tree (neg (number 1))) no_tree) ≡ 2 }
    ensures step { item_height (slice (some_tree (number 1)) no_tree
        (some_tree (neg (neg (number 1))))) ≡ 3 }
    ensures new_axis { item_height new_axis ≡ 0 }
    ensures ellipsis { item_height ellipsis ≡ 0 }
    ensures place_nodes { item_nodes (at (number 0)) ≡ 2 }
    ensures no_nodes { item_nodes (slice no_tree no_tree no_tree) ≡ 0 }
    ensures one_node { item_nodes (slice no_tree (some_tree (number 1)) no_tree) ≡ 2 }
    ensures slice_nodes { item_nodes (slice (some_tree (number 1)) (some_tree (neg (number 1)))
        (some_tree (number 1))) ≡ 5 }
    ensures no_axis_nodes { item_nodes new_axis ≡ 0 }
    ensures no_ellipsis_nodes { item_nodes ellipsis ≡ 0 }
{}

/// How high a statement is: as its highest tree, those of a loop's lines among them.
pub fn statement_heights_by_example()
    ensures bound { statement_height (bind (codes "a") (neg (number 1))) ≡ 1 }
    ensures updated { statement_height (update (codes "a") Add (neg (number 1))) ≡ 1 }
    ensures target { statement_height (put (codes "a")
        (more_items (at (neg (number 0))) no_items) (number 1)) ≡ 2 }
    ensures written { statement_height (put (codes "a")
        (more_items (at (number 0)) no_items) (neg (neg (number 1)))) ≡ 2 }
    ensures update_target { statement_height (update_at (codes "a")
        (more_items (at (neg (number 0))) no_items) Add (number 1)) ≡ 2 }
    ensures update_value { statement_height (update_at (codes "a")
        (more_items ellipsis no_items) Add (neg (neg (number 1)))) ≡ 2 }
    ensures printed { statement_height (print (number 1)) ≡ 0 }
    ensures to { statement_height (loop (codes "i") no_tree (neg (number 1)) no_lines) ≡ 1 }
    ensures from { statement_height (loop (codes "i") (some_tree (neg (number 1))) (number 1)
        no_lines) ≡ 1 }
    ensures body { statement_height (loop (codes "i") no_tree (number 1)
        (more_lines 2 (print (number 1)) (more_lines 3 (print (neg (number 1))) no_lines))) ≡ 1 }
    ensures loaded { statement_height (load (codes "a") (codes "k")) ≡ 0 }
    ensures saved { statement_height (save (codes "k") (neg (number 1))) ≡ 1 }
{}

/// How many nodes a tree has: numbers, truth values and names are nodes, and so are operations,
/// calls and lists.
pub fn nodes_by_example()
    ensures number { nodes (number 7) ≡ 1 }
    ensures truth { nodes (truth true) ≡ 1 }
    ensures name { nodes (name (codes "abc")) ≡ 1 }
    ensures neg { nodes (neg (number 7)) ≡ 2 }
    ensures invert { nodes (invert (number 7)) ≡ 2 }
    ensures sum { nodes (arith Add (neg (number 1)) (name (codes "a"))) ≡ 4 }
    ensures compared { nodes (compare Lt (number 1) (neg (number 2))) ≡ 4 }
    ensures full { nodes (full (one (neg (number 3))) (number 7) None) ≡ 4 }
    ensures zeros { nodes (zeros (one (number 3)) None) ≡ 2 }
    ensures ones { nodes (ones (one (number 3)) None) ≡ 2 }
    ensures arange { nodes (arange no_tree (number 3) None) ≡ 2 }
    ensures range { nodes (arange (some_tree (neg (number 2))) (number 3) None) ≡ 4 }
    ensures empty { nodes (array (list no_lists) None) ≡ 2 }
    ensures nested { nodes (array (list (more_lists (leaf (neg (number 1)))
        (more_lists (list no_lists) no_lists))) None) ≡ 5 }
    ensures abs { nodes (abs (number 1)) ≡ 2 }
    ensures minimum { nodes (minimum (number 1) (neg (number 1))) ≡ 4 }
    ensures maximum { nodes (maximum (number 1) (neg (number 1))) ≡ 4 }
    ensures chosen { nodes (choose (number 0) (neg (number 1)) (number 2)) ≡ 5 }
    ensures product { nodes (matmul (number 1) (neg (number 1))) ≡ 4 }
    ensures indexed { nodes (index (number 1) (more_items (at (number 0))
        (more_items ellipsis (more_items (at (number 0)) no_items)))) ≡ 6 }
    ensures reduced { nodes (reduce Sum (number 1) no_tree) ≡ 2 }
    ensures axis { nodes (reduce Sum (number 1) (some_tree (neg (number 1)))) ≡ 4 }
    ensures taken { nodes (take (number 1) (neg (number 1)) (some_tree (number 1))) ≡ 5 }
    ensures reversed { nodes (transpose (number 1) no_shape) ≡ 2 }
    ensures transposed { nodes (transpose (number 1) (some_shape (tuple
        (more_trees (number 0) no_trees)))) ≡ 4 }
    ensures broadcast { nodes (broadcast_to (number 1) (tuple
        (more_trees (number 3) (more_trees (neg (number 3)) no_trees)))) ≡ 6 }
    ensures stencil { nodes (stencil (number 1) (list no_lists)) ≡ 3 }
    ensures copy { nodes (copy (number 1)) ≡ 2 }
    ensures flat { nodes (flatten (number 1)) ≡ 2 }
    ensures as_type { nodes (as_type (number 1) Int8) ≡ 2 }
    ensures reshape { nodes (reshape (number 1) (tuple no_trees)) ≡ 3 }
    ensures applied { nodes (apply (codes "mix") (number 1) (neg (number 1))) ≡ 4 }
    ensures scanned { nodes (scan CumSum (number 1) (some_tree (neg (number 1)))) ≡ 4 }
{}

/// How many nodes the trees of a statement have.
pub fn statement_nodes_by_example()
    ensures bound { line_nodes (record { number = 9; statement = bind (codes "a") (number 1) })
        ≡ 1 }
    ensures printed { line_nodes (record { number = 9; statement = print (neg (number 1)) }) ≡ 2 }
    ensures updated { statement_nodes (update (codes "a") Add (neg (number 1))) ≡ 2 }
    ensures put { statement_nodes (put (codes "a") (more_items (at (number 0)) no_items)
        (neg (number 1))) ≡ 4 }
    ensures updated_at { statement_nodes (update_at (codes "a")
        (more_items (at (number 0)) no_items) Add (neg (number 1))) ≡ 4 }
    ensures empty { statement_nodes (loop (codes "i") no_tree (number 1) no_lines) ≡ 1 }
    ensures body { statement_nodes (loop (codes "i") (some_tree (number 1)) (neg (number 1))
        (more_lines 2 (print (number 1)) (more_lines 3 (print (neg (number 1))) no_lines))) ≡ 6 }
    ensures loaded { statement_nodes (load (codes "a") (codes "k")) ≡ 0 }
    ensures saved { statement_nodes (save (codes "k") (neg (number 1))) ≡ 2 }
    ensures lines { statement_nodes (loop (codes "i") no_tree (number 1) (line_trees
        (record { number = 5; statement = print (number 1) } ∷ []))) ≡ 2 }
{}
