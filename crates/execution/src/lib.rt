//! Runs of images: the tasks' frames, the words that they share and the kernel, step by step as code's world goes on.
#![tactic(auto)]

mod contents;
mod encoding;
mod execution_of;
mod frame_use;
mod line;
mod parameters;
mod rooms;
mod serving;
mod settling;
mod state;

pub use contents::Contents;
pub use execution_of::{Advance, Execution};
pub use frame_use::FrameUse;
pub use line::Line;
pub use rooms::Rooms;
pub use task_steps::{Asking, Cause, Raising};
