//! The evaluation of scripts: a session keeps the arrays that names stand for, and evaluates one
//! statement after another.
#![tactic(auto)]

mod axes;
mod built;
mod copying;
mod evaluation;
mod examples;
mod forms;
mod lists;
mod loops;
mod names;
mod repeating;
mod roots;
mod session;
mod text;
mod turning;
mod value;
mod viewing;
mod views;
mod weak_values;
mod writing;

pub use built::{first_unbuilt, is_built};
pub use examples::built_by_example;
pub use lg_tile::{Room, Spares};
pub use loops::Turns;
pub use session::{Session, Stop, StopEnd};
