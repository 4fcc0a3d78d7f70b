//! Dispatching: the ready tasks in one list for each priority (RM D.2.1, D.2.3).
#![tactic(auto)]

mod list_ready;
mod ready;
mod ring;
mod ring_ready;

pub use list_ready::ListReady;
pub use ready::Ready;
pub use ring_ready::RingReady;
