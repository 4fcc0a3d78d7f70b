//! One token that mends a text of a broken grammar: a reserved word in place of an identifier that is like it, or a token that is missing.

mod mending;
mod missing;
mod misspelling;

pub use missing::{Missing, missing_at, missing_text};
pub use misspelling::{Misspelling, misspelling_at};
