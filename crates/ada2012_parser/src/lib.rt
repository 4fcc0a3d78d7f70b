//! The parser of texts of whole Ada 2012: from tokens to their tree, or their first fault.
#![tactic(auto)]

mod declaration;
mod expression;
mod fault;
mod left_out;
mod lookahead;
mod parser;
mod parsing;
mod statement;
mod subtype;
mod unit;

pub use fault::{Expected, Fault, FaultKind};
pub use left_out::LeftOut;
pub use parsing::{LEVELS, parse};
