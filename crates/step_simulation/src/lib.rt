//! The law that code of statements meets each step of a task.
#![tactic(auto)]

pub mod laws;
