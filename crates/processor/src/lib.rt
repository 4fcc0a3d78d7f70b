//! What the code of one task does within its frame: decoded operations and the loop that runs them.
#![tactic(auto)]

mod counting;
mod crossing;
mod decoding;
mod digest;
mod header;
mod joining;
pub mod laws;
mod leaping;
mod operation;
mod program;
mod role;
mod row;
mod running;
mod saved;
mod shared;
mod task_state;
mod turning;

pub use counting::Steps;
pub use decoding::decode;
pub use digest::digest_with;
pub use operation::{Operation, Reckoning, Test};
pub use program::Program;
pub use role::Role;
pub use running::{Within, run_within};
pub use saved::SavedTask;
pub use shared::{
    initial_row, object_words, plain_words, restore_words, store_object_words, store_plain_words,
    used_words,
};
pub use task_state::{CALLERS, TaskState};
pub use turning::Stop;
