//! The restrictions of the Ravenscar profile on what is in bodies (docs/LANGUAGE.md, "Rules of the profile").
#![tactic(auto)]

mod bodies;

pub use bodies::{body_faults, operations_faults};
