//! Rules of lowering for functions that become procedures: their calls are taken out of expressions.
#![tactic(auto)]

mod conditional_values;
mod conditions;
mod first_values;
mod procedures;
mod results;
mod short_circuits;
mod tested_calls;

pub use conditions::lower_conditions;
pub use first_values::{is_evaluated, lower_first_values};
pub use procedures::lower_procedures;
pub use results::{is_quiet, take_out_calls};
pub use tested_calls::lower_tested_calls;
