//! The parser of token lists: the tree that they spell, or their fault (docs/LANGUAGE.md, "Grammar").
#![tactic(auto)]

mod declaration;
mod expression;
mod lookahead;
mod parser;
mod parsing;
mod program;
mod refusal;
mod statement;

pub use parsing::{longest_beginning, one_tree, parse};
