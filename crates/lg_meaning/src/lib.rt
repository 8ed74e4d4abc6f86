//! What a script means: the definitions that every other way of running it is held to, and the
//! faults that a statement can have.
#![tactic(auto)]

mod examples;
mod fault;

pub use examples::{
    array_scripts_by_example, axes_by_example, broadcasting_by_example, comparisons_by_example,
    conditions_by_example, copies_by_example, element_scripts_by_example,
    empty_reductions_by_example, faults_by_example, index_faults_by_example,
    index_kinds_by_example, indices_by_example, lists_by_example, loop_faults_by_example,
    loops_by_example, making_by_example, operators_by_example, places_by_example,
    product_kinds_by_example, products_by_example, put_faults_by_example, puts_by_example,
    reduced_types_by_example, reduction_kinds_by_example, reductions_by_example,
    repeats_by_example, reshapes_by_example, runs_by_example, shared_runs_by_example,
    sharing_by_example, stencil_kinds_by_example, stencils_by_example, steps_by_example,
    take_kinds_by_example, takes_by_example, takes_out_of_range_by_example, texts_by_example,
    transposes_by_example, truths_by_example, types_by_example, update_faults_by_example,
    updates_by_example, values_by_example, weak_numbers_by_example, weak_others_by_example,
    wrapping_by_example,
};
pub use fault::FaultKind;
