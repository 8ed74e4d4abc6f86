//! Worked examples of the definitions. Each clause is computed by the check, so a definition that
//! says something else is refused. The values are NumPy's, and this project's own in the steps of
//! slices, the limit of axes and the order of faults.
ghost use Rattle.std.specs.Prelude.{◌≡◌, [], ◌∷◌, pos, negsuc, Some, None};
ghost use Rattle.lg_shape.specs.Indexing.{indexed, index_fault};
ghost use Rattle.lg_shape.specs.Views.{whole_layout, stepped, all_stepped};
ghost use Rattle.lg_shape.specs.declared.step.Step.TheVariants.{Promote, Project, Slice as Cut, Transpose, Delinearize};
ghost use Rattle.lg_shape.specs.declared.index.IndexItem.TheVariants.{At, Slice, NewAxis, Ellipsis};
ghost use Rattle.lg_shape.specs.declared.index.IndexFault.TheVariants.{TwoEllipses, TooMany, OutOfRange, Step, TooManyAxes};

/// What an index picks of a whole root, whose places are counted in row-major order.
pub fn indices_by_example()
    ensures element { indexed (whole_layout (3 ∷ [])) (At (negsuc 0) ∷ [])
        ≡ record { shape = []; places = 2 ∷ [] } }
    ensures block { indexed (whole_layout (4 ∷ 4 ∷ []))
        (Slice (Some (pos 1)) (Some (pos 3)) None ∷ Slice None (Some (negsuc 1)) None ∷ [])
        ≡ record { shape = 2 ∷ 2 ∷ []; places = 4 ∷ 5 ∷ 8 ∷ 9 ∷ [] } }
    ensures column { indexed (whole_layout (2 ∷ 3 ∷ [])) (Ellipsis ∷ At (pos 1) ∷ [])
        ≡ record { shape = 2 ∷ []; places = 1 ∷ 4 ∷ [] } }
    ensures added { indexed (whole_layout (2 ∷ 3 ∷ [])) (At (pos 1) ∷ NewAxis ∷ [])
        ≡ record { shape = 1 ∷ 3 ∷ []; places = 3 ∷ 4 ∷ 5 ∷ [] } }
    ensures none { indexed (whole_layout (4 ∷ []))
        (Slice (Some (pos 10)) (Some (negsuc 9)) None ∷ [])
        ≡ record { shape = 0 ∷ []; places = [] } }
{}

/// What each kind of step makes of a whole root, and steps in a row.
pub fn steps_by_example()
    ensures promoted { stepped (Promote 1 2) (whole_layout (3 ∷ []))
        ≡ record { shape = 3 ∷ 2 ∷ []; places = 0 ∷ 0 ∷ 1 ∷ 1 ∷ 2 ∷ 2 ∷ [] } }
    ensures projected { stepped (Project 0 1) (whole_layout (2 ∷ 3 ∷ []))
        ≡ record { shape = 3 ∷ []; places = 3 ∷ 4 ∷ 5 ∷ [] } }
    ensures sliced { stepped (Cut 1 1 2 (pos 1)) (whole_layout (2 ∷ 3 ∷ []))
        ≡ record { shape = 2 ∷ 2 ∷ []; places = 1 ∷ 2 ∷ 4 ∷ 5 ∷ [] } }
    ensures spread { stepped (Cut 0 1 2 (pos 3)) (whole_layout (6 ∷ []))
        ≡ record { shape = 2 ∷ []; places = 1 ∷ 4 ∷ [] } }
    ensures reversed { stepped (Cut 0 3 2 (negsuc 1)) (whole_layout (4 ∷ []))
        ≡ record { shape = 2 ∷ []; places = 3 ∷ 1 ∷ [] } }
    ensures transposed { stepped (Transpose (1 ∷ 0 ∷ 0 ∷ 0 ∷ [])) (whole_layout (2 ∷ 3 ∷ []))
        ≡ record { shape = 3 ∷ 2 ∷ []; places = 0 ∷ 3 ∷ 1 ∷ 4 ∷ 2 ∷ 5 ∷ [] } }
    ensures turned { stepped (Transpose (2 ∷ 0 ∷ 1 ∷ 0 ∷ [])) (whole_layout (1 ∷ 2 ∷ 3 ∷ []))
        ≡ record { shape = 3 ∷ 1 ∷ 2 ∷ []; places = 0 ∷ 3 ∷ 1 ∷ 4 ∷ 2 ∷ 5 ∷ [] } }
    ensures split { stepped (Delinearize (2 ∷ 3 ∷ [])) (whole_layout (6 ∷ []))
        ≡ record { shape = 2 ∷ 3 ∷ []; places = 0 ∷ 1 ∷ 2 ∷ 3 ∷ 4 ∷ 5 ∷ [] } }
    ensures in_a_row { all_stepped (Cut 0 1 2 (pos 1) ∷ Project 1 2 ∷ Promote 0 1 ∷ [])
        (whole_layout (3 ∷ 3 ∷ [])) ≡ record { shape = 1 ∷ 2 ∷ []; places = 5 ∷ 8 ∷ [] } }
{}

/// The first fault of an index.
pub fn faults_by_example()
    ensures fine { index_fault (2 ∷ 2 ∷ 2 ∷ 2 ∷ []) (NewAxis ∷ At (negsuc 1) ∷ []) ≡ None }
    ensures axes { index_fault (2 ∷ 2 ∷ 2 ∷ 2 ∷ []) (NewAxis ∷ []) ≡ Some TooManyAxes }
    ensures ellipses { index_fault [] (Ellipsis ∷ At (pos 0) ∷ Ellipsis ∷ []) ≡ Some TwoEllipses }
    ensures many { index_fault (3 ∷ []) (At (pos 7) ∷ At (pos 0) ∷ []) ≡ Some TooMany }
    ensures range { index_fault (3 ∷ 4 ∷ []) (NewAxis ∷ At (pos 3) ∷ At (pos 9) ∷ [])
        ≡ Some (OutOfRange 1) }
    ensures step { index_fault (3 ∷ []) (Ellipsis ∷ Slice None None (Some (pos 2)) ∷ [])
        ≡ Some (Step 1) }
{}
