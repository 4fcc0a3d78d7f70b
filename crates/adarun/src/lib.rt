//! The compiler and runtime: from a source text to its image, to the timed lines of its run, and the program's work over any files and streams.
#![tactic(auto)]

mod code_told;
mod compilation;
mod exploring;
mod files;
mod format_command;
mod going;
mod inputs;
mod last_reports;
pub mod laws;
mod lower_command;
mod measure_command;
mod messages;
mod naming;
mod operations;
mod origins;
mod program;
mod progress;
mod reporting;
mod rules;
mod search_command;
mod timed;
mod views;

pub use compilation::compile;
pub use exploring::{SearchFault, SearchOutcome, search};
pub use files::{FileStore, ReadError, WriteError};
pub use going::{GoFault, go};
pub use program::{Status, drive};
pub use progress::Stopwatch;
pub use rules::text_faults;
pub use searching::{Progress, Wanted};
pub use timed::{Ending, go_until};
