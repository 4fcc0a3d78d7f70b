//! Which variables of a program a dump shows, and which words they are (docs/FORMATS.md, "Value change dumps").
#![tactic(auto)]

mod listing;
mod parts;
mod program;

pub use parts::SHOWN_COMPONENTS;
pub use program::scopes_of;
