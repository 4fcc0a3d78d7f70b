//! The runs of accepted programs never come to a step without meaning.
#![tactic(auto)]

pub mod body_laws;
pub mod function_laws;
pub mod program_laws;
pub mod run_laws;
pub mod scope_laws;
pub mod subtype_laws;
