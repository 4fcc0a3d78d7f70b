//! Sets of schedules: slots of time with alternatives, the text that describes them, and the schedules of a set in their order.
#![tactic(auto)]

mod choice;
mod count;
mod faults;
mod form;
pub mod laws;
mod part;
mod ranges;
mod set;
mod slot;
mod writing;

pub use choice::Choice;
pub use count::count_text;
pub use faults::ChoicesFault;
pub use part::Part;
pub use set::Choices;
pub use slot::{ALTERNATIVES, Slot};
pub use writing::schedule_text;
