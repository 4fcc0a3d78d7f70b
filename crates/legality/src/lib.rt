//! All rules of programs in one check (docs/LANGUAGE.md, the faults from 10 to 23).
#![tactic(auto)]

mod checked;
pub mod laws;
mod layouts;
mod like_names;
mod name_ends;

pub use checked::{Checked, check, program_faults};
