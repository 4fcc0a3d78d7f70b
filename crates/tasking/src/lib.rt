//! Tasking: who runs, protected actions and virtual time (RM 9.5, 9.6, D.2, D.3), over any keepers of ready and sleeping tasks.
#![tactic(auto)]

mod action_kinds;
mod effects;
pub mod laws;
mod pause;
mod reports;
mod tasking;

pub use pause::{Pause, Tables};
pub use protected::Refusal;
pub use reports::{Ended, Ending, Outcome, Place};
pub use tasking::{ACTORS, Attached, Tasking};
