//! Which bodies belong to which declarations of a package (docs/LANGUAGE.md, "Rules of bodies").
#![tactic(auto)]

mod bodies;
mod conformance;
mod declared;
mod front;
mod keys;
mod operations;
mod places;

pub use conformance::same_name;
pub use operations::matching_faults;
