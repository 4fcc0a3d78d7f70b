//! The steps of one task: quiet ones, and what the others ask of the kernel.
#![tactic(auto)]

mod acts;
mod asking;
mod blocks;
mod calls;
mod foreseeing;
mod kernel_steps;
pub mod laws;
mod lookups;
mod memory;
mod operations;
mod raising;
mod returns;
mod steps;

pub use acts::{Act, Effect, Given};
pub use asking::{Asking, asking_ahead};
pub use foreseeing::{Cause, Raising, raising_ahead};
pub use lookups::{called, entry, first_place};
pub use memory::Memory;
pub use steps::{Went, go, step};
