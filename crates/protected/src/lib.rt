//! Protected objects: open actions, ceilings and queued calls (RM 9.5.1, 9.5.3, D.3).
#![tactic(auto)]

mod objects;
mod refusal;

pub use objects::Objects;
pub use refusal::Refusal;
