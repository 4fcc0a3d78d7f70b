//! What may follow the first tokens of a text, so that some program goes on from there.

mod continuation;
mod following;
mod notes;

pub use continuation::{Continuation, EVERY_CONTINUATION, each_is_tried};
pub use following::allowed;
pub use notes::notes_of_place;
