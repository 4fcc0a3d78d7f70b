//! The steps of tasks whose work breaks no rule have a meaning, and keep it so.
#![tactic(auto)]

pub mod laws;
