//! Worked examples of the definitions. Each clause is computed by the check, so a definition that
//! says something else is refused. The values are NumPy's and Python's, and this project's own
//! where the definition says so, as in the range of weak numbers, which operations keep them weak,
//! the rights of arrays, `stencil`, the order of faults, and the 0 in the place of an element with
//! a fault.
mod assignments;
mod copies;
mod creation;
mod faults;
mod indices;
mod loops;
mod operators;
mod products;
mod reductions;
mod runs;
mod scripts;
mod shapes;
mod stencils;
mod steps;
mod taking;
mod texts;
mod views;
mod weak;

pub use assignments::{
    put_faults_by_example, puts_by_example, shared_runs_by_example, update_faults_by_example,
    updates_by_example,
};
pub use copies::{copies_by_example, reshapes_by_example};
pub use creation::{axes_by_example, lists_by_example, making_by_example};
pub use faults::faults_by_example;
pub use indices::{index_faults_by_example, index_kinds_by_example, indices_by_example};
pub use loops::{loop_faults_by_example, loops_by_example};
pub use operators::{
    comparisons_by_example, conditions_by_example, operators_by_example, truths_by_example,
    types_by_example, values_by_example,
};
pub use products::{product_kinds_by_example, products_by_example};
pub use reductions::{
    empty_reductions_by_example, reduced_types_by_example, reduction_kinds_by_example,
    reductions_by_example,
};
pub use runs::runs_by_example;
pub use scripts::{array_scripts_by_example, element_scripts_by_example};
pub use shapes::{broadcasting_by_example, places_by_example, wrapping_by_example};
pub use stencils::{stencil_kinds_by_example, stencils_by_example};
pub use steps::steps_by_example;
pub use taking::{take_kinds_by_example, takes_by_example, takes_out_of_range_by_example};
pub use texts::texts_by_example;
pub use views::{repeats_by_example, sharing_by_example, transposes_by_example};
pub use weak::{weak_numbers_by_example, weak_others_by_example};
