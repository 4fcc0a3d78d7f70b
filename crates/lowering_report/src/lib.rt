//! What is said of a text of whole Ada that isn't lowered, and of what lowering has left out.
#![tactic(auto)]

mod expected;
mod left_out;
mod reports;

pub use reports::{put_fault_report, put_note_report};
