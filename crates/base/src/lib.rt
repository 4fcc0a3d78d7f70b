//! What all crates share: checked arithmetic of the integer base range, the predefined exceptions, the input of a schedule,
//! names, limits and the numbers of faults.
#![tactic(auto)]

pub mod arithmetic;
mod exceptions;
pub mod faults;
pub mod laws;
pub mod limits;
pub mod names;
mod schedule;
mod texts;

pub use arithmetic::Checked;
pub use exceptions::PredefinedException;
pub use schedule::ScheduleLine;
pub use texts::Text;
