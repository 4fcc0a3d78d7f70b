//! Handler tables: which handler takes an exception that is raised at an instruction.
#![tactic(auto)]

mod counting;
mod holding;
pub mod laws;
mod nesting;
mod rows;
mod searching;

pub use counting::Probes;
pub use holding::Holders;
pub use nesting::first_crossing;
pub use rows::{Row, Table, TableFault, build, lookup};
