//! Images as bytes and as text.
#![tactic(auto)]

mod encoding;
mod listing;

pub use encoding::{address_of, constant_of, encode, kind_number};
pub use listing::list;
