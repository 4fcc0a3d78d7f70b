//! Searching the schedules of a set for one under which an image stops, waits forever or writes a line.
#![tactic(auto)]

mod beginning;
mod crossing;
mod following;
mod moment;
mod one;
mod parting;
mod path;
mod progress;
mod reporting;
mod sight;
mod table;
mod whole;
mod world;

pub use one::Answer;
pub use progress::Progress;
pub use reporting::report;
pub use sight::{Finding, Wanted};
pub use whole::{Searched, search};
