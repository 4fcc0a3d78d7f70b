//! Which types don't match at a place of a text that breaks rule 12, and where they are declared; what keeps an expression from being static at the place of a
//! fault 14, and what is wrong with its value at that of a fault 15 (docs/LANGUAGE.md, "Rules of expressions").
#![tactic(auto)]

mod arguments;
mod bodies;
mod conflict;
mod definitions;
mod expected;
mod expressions;
pub mod laws;
mod listed;
mod locals;
mod operators;
mod package;
mod protected;
mod remark;
mod simple;
mod statements;
mod statics;

pub use conflict::{Conflict, Obstacle};
pub use listed::{PlacedRemark, Remarks};
pub use remark::{NamedType, PredefinedType, Remark};
