//! Edits of a text that keep its lines: what is outside of them stays, byte for byte and line for line.
#![tactic(auto)]

mod edit;
mod edits;
mod laws;
mod places;

pub use ada2012_lexer::Span;
pub use edit::Edit;
pub use edits::Edits;
pub use laws::lines_stay;
pub use places::Places;
