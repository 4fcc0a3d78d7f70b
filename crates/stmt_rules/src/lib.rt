//! What statements break (docs/LANGUAGE.md, "Rules of statements").
#![tactic(auto)]

mod around;
mod case;
mod handlers;
mod simple;
mod statement;

pub use around::{Around, BodyKind};
pub use statement::{handlers_faults, sequence_faults, statements_faults};
