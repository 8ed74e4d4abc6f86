//! Operations on arrays and weak numbers, each evaluated at once, tile after tile.
#![tactic(auto)]

mod copies;
mod elementwise;
mod end;
mod filling;
mod gathering;
mod lending;
mod limits;
mod making;
mod parts;
mod reshaping;
mod rules;
mod scalar;
mod tiling;
mod values;
mod weak;
mod written;

pub use copies::{rule_of_copy, rule_of_flatten};
pub use elementwise::{as_type, binary, choose, compare, unary};
pub use end::EvaluateEnd;
pub use filling::{is_writable, rule_of_update, taken, taken_fresh};
pub use gathering::{gather, is_whole};
pub use making::{counted, full, listed, ones, zeros};
pub use reshaping::{in_shape, rule_of_reshape};
pub use rules::shape_in;
pub use scalar::scalar_array;
pub use values::{Fresh, Operand, Weak};
pub use weak::{weak_arith, weak_compare, weak_negative};
pub use written::{is_shape, shape_within};

#[cfg(test)]
mod tests;
