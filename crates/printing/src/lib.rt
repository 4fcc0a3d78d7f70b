//! Source texts in one layout: spaces between tokens, indentation and blank lines, with the line breaks of their authors (docs/FORMATS.md, "Layout").
#![tactic(auto)]

mod construct;
mod formatting;
mod laws;
mod progress;
mod refusal;
mod spacing;
mod symbol;

pub use formatting::format;
pub use laws::{is_stable, keeps_contents};
pub use refusal::Refusal;
