//! Images from bytes, with full checks.
#![tactic(auto)]

mod code_faults;
mod decoding;
mod fault_order;
pub mod laws;
mod loading;
mod number_ranges;
mod raw_sections;
mod reading;
mod table_faults;

pub use loading::load;
