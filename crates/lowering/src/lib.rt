//! Texts of whole Ada 2012 with what the language of adarun has other words for, in these words: by edits of the text, line for line.
#![tactic(auto)]

mod aspects;
mod cases;
mod endings;
mod fault;
mod functions;
mod labels;
mod literals;
mod lowering;
mod names;
mod numbers;
mod returns;
mod stages;
mod walk;

pub use fault::{Fault, FaultKind, Lowered, Note};
pub use lowering::{ROUNDS, lower};
pub use lowering_text::NoteKind;
