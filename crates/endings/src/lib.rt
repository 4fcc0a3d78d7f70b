//! How runs come to their ends: where the exception came from that stopped one, and who runs or waits at the end of another.
#![tactic(auto)]

mod last_steps;
mod sources;
mod world_at_end;

pub use last_steps::LastStep;
pub use sources::raised_from;
pub use world_at_end::{LastWorld, Running, Waiting, last_world};
