//! Virtual time: sleeping tasks, and schedules of input values.
#![tactic(auto)]

mod channel_values;
mod delays;
mod faults;
mod heap;
mod heap_delays;
mod list_delays;
pub mod reading;
mod schedule;

pub use base::ScheduleLine;
pub use delays::{Delays, Sleeper};
pub use heap_delays::HeapDelays;
pub use list_delays::ListDelays;
pub use schedule::{Schedule, ScheduleFault};
