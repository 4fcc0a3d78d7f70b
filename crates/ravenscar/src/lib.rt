//! The restrictions of the Ravenscar profile (docs/LANGUAGE.md, "Rules of the profile", the faults from 30 to 39 and from 70 to 73).
#![tactic(auto)]

mod accepted;
mod handlers;
pub mod laws;
mod listing;
mod package;
mod pragmas;
mod tasking;

pub use accepted::{Accepted, restrict};
pub use listing::broken_rules;
