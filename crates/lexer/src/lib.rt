//! The tokens that a source text is spelled by (RM 2), and the first fault of a text that is spelled by none.
#![tactic(auto)]

mod characters;
mod delimiter;
mod element;
mod fault;
mod lexing;
mod spelled;
mod token;
mod word;

pub use base::Text;
pub use delimiter::Delimiter;
pub use fault::Fault;
pub use lexing::{spelled_in_order, spelled_once, tokens};
pub use token::{Token, TokenKind};
pub use word::Word;
