//! The code of parts of statements: what moves, passes and copies back; and where the words of parameters are.
#![tactic(auto)]

pub mod call;
mod choice_rows;
mod exceptions;
mod extent;
mod formals;
mod frame_words;
mod leaving;
mod line;
pub mod moving;
mod storing;
mod turns;

pub use call::{Destination, actuals_of, entry_behind, is_own_entry, operation_of};
pub use choice_rows::{add_rows, choice_number};
pub use exceptions::raised_by;
pub use extent::Extent;
pub use formals::{PlacedFormal, PlacedFormals, place_all, show, take_passed};
pub use frame_words::{FrameWords, behind};
pub use leaving::Leaving;
pub use line::line_of;
pub use moving::{Moved, Source, is_composite, is_moved, names_composite};
pub use storing::{store_operation, stored_at};
pub use turns::Turns;
