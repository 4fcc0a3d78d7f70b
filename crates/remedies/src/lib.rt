//! What to write for what Ada has and this language doesn't: what a fault's place is about, by the tokens around it, and the remedy.
#![tactic(auto)]

mod closing;
mod construct;
mod doubt;
mod grammar_rows;
mod likeness;
mod misuse;
mod name;
mod name_rows;
mod opening;
mod openings;
mod recognition;
mod row;
mod rule_rows;
mod spelling;
mod stray;
mod text_tokens;

pub use closing::{closing_of, part_of};
pub use construct::Construct;
pub use doubt::{Doubt, doubtful_from};
pub use likeness::{Like, is_like, like_at, name_of};
pub use misuse::misused_at;
pub use name::{Name, name_text};
pub use opening::{Opened, Opening};
pub use recognition::{construct_at, count_before, unclosed_at};
pub use row::kind_at;
pub use spelling::{of_label, of_number};
pub use stray::of_byte;
pub use text_tokens::TextTokens;
