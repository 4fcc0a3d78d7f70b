//! Legal expressions have values of their types, wherever the visible names mean what they denote.
#![tactic(auto)]

pub mod laws;
