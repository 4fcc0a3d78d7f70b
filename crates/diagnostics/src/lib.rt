//! What is reported of a text beside the number of its fault: the rule that is broken, the other place of a fault that has two, what may follow, the token that
//! mends the text, and what to write instead.
#![tactic(auto)]

mod continuations;
mod counterparts;
mod explanations;
mod hints;
mod repairs;

pub use explanations::explanation;
pub use hints::{
    ParsedText, column_after, explained, frame_line, hints_at, instructions_line, line_after,
    line_start, notes_at, put_place, remarks_at, rows_line,
};
