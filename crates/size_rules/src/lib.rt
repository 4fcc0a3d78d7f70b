//! What passes the limits of a program (docs/LANGUAGE.md, "Limits").
#![tactic(auto)]

mod bodies;
mod body;
mod declarations;
pub mod laws;
mod passing;
mod program;
mod thing;

pub use program::size_faults;
pub use thing::Kind;
