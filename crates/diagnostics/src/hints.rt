//! What is reported of a text beside what is reported of its fault's number: what its author needs to mend it.

mod body_faults;
mod calls;
mod conversion;
mod end_names;
mod hinted;
mod mismatched;
mod notes;
mod parsed_text;
mod places;
mod remarks;
mod static_notes;
mod stopped;
mod subjects;

pub use hinted::hints_at;
pub use notes::{explained, notes_at};
pub use parsed_text::ParsedText;
pub use places::{column_after, line_after, line_start, put_place};
pub use remarks::remarks_at;
pub use stopped::{frame_line, instructions_line, rows_line};
