//! Rules of lowering for whole units: packages, their clauses and names, tasks, lines of text and interrupts.
#![tactic(auto)]

mod clashes;
mod completions;
mod interrupts;
mod messages;
mod moves;
mod prefixes;
mod suspensions;
mod task_types;
mod texts;
mod unit_clauses;
mod units;

pub use clashes::lower_clashes;
pub use completions::lower_completions;
pub use interrupts::{attach, is_attachment, lower_channels};
pub use messages::{lower_occurrence, lower_raise};
pub use moves::lower_moves;
pub use suspensions::lower_suspensions;
pub use task_types::lower_task_types;
pub use texts::lower_texts;
pub use units::lower_units;
