//! What is said of a place of a file: where it is, the rule that is broken there, and its line with a mark.
#![tactic(auto)]

mod marked;
mod pieces;
mod reports;

pub use reports::{put_place_report, put_schedule_report, put_source_report};
