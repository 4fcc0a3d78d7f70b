//! The lexical elements of whole Ada 2012 (RM 2): the tokens and comments of a text, or its first fault.
#![tactic(auto)]

mod character;
mod delimiter;
mod element;
mod fault;
mod lexing;
mod literal;
mod numeral;
mod quoted;
mod reserved;
mod token;
mod value;

pub use base::Text;
pub use delimiter::Delimiter;
pub use fault::{Fault, FaultKind};
pub use lexer::Word;
pub use lexing::{TEXT_LIMIT, tokens};
pub use token::{LexicalElements, Span, Token, TokenKind};
