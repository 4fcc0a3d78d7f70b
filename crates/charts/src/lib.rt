//! Charts of runs: when each task runs, waits, is preempted and late, and when each object is used, over virtual time (docs/FORMATS.md, "Charts").
#![tactic(auto)]

mod cell;
mod charting;
mod last_time;
mod rows;
mod scale;
mod signs;
mod table;
mod text;

pub use charting::chart;
