//! How many bytes of a file decide what becomes of it: one more than the longest source text, schedule, set of schedules or image has that is accepted.
#![tactic(auto)]

ghost use Rattle.std.specs.Prelude.{◌<◌, length};
ghost use Rattle.file_limits.specs.Lengths.{ChoicesEnd, SchedulesEnd, SourcesEnd};
ghost use Rattle.image_format.specs.Bytes.{bytes_of};

use base::limits::{
    CHANNELS, EXCEPTIONS, INSTRUCTIONS, LABEL_LIMIT, LABELS, NAME_LIMIT, OBJECTS, ROWS,
    SCHEDULE_LINES, SUBPROGRAMS, TASKS, TEXT_LIMIT, WORDS,
};
use choices::ALTERNATIVES;
use image::Image;

/// A source text that is taken has fewer bytes (docs/LANGUAGE.md, "Limits").
pub const SOURCE_BYTES: usize = TEXT_LIMIT + 1;

/// The most bytes that a line of a schedule has: a time of 19 digits, a channel of one, a value of 19 with a minus, two spaces and a line feed.
pub const SCHEDULE_LINE_BYTES: usize = 43;
/// A schedule that is taken has fewer bytes (docs/FORMATS.md, "Schedule").
pub const SCHEDULE_BYTES: usize = SCHEDULE_LINES * SCHEDULE_LINE_BYTES + 1;

/// The most bytes that a line of a set of schedules has: three times of 19 digits with two dots and a slash, two spaces, a channel of one digit, a line feed,
/// and as many alternatives as a slot may have, each two values of 19 digits with a minus and two dots between them, with a bar between each two.
pub const CHOICES_LINE_BYTES: usize = 63 + 43 * ALTERNATIVES;
/// A set of schedules that is taken has fewer bytes (docs/FORMATS.md, "Sets of schedules").
pub const CHOICES_BYTES: usize = SCHEDULE_LINES * CHOICES_LINE_BYTES + 1;

/// The most bytes of the names of exceptions and of the labels of an image, with the length of each.
const NAMES_BYTES: usize = EXCEPTIONS * (NAME_LIMIT + 1) + LABELS * (LABEL_LIMIT + 1);
/// The most bytes of the words and the objects of an image.
const DATA_BYTES: usize = 8 * WORDS + 8 * OBJECTS;
/// The most bytes of the tables of an image: subprograms, tasks, rows of handlers and attachments.
const TABLES_BYTES: usize = 13 * SUBPROGRAMS
    + (NAME_LIMIT + 4) * TASKS
    + 8 * ROWS
    + 3 * CHANNELS as usize;
/// An image has fewer bytes (docs/FORMATS.md, "Sections" and "Limits"): of its header 24, of an instruction 13.
pub const IMAGE_BYTES: usize = 24 + NAMES_BYTES + DATA_BYTES + TABLES_BYTES + 13 * INSTRUCTIONS + 1;

/// A text that tokens spell has fewer than `SOURCE_BYTES` bytes.
pub fn sources_end()
    ensures { SourcesEnd }
{}

/// A schedule's text has fewer than `SCHEDULE_BYTES` bytes.
pub fn schedules_end()
    ensures { SchedulesEnd }
{}

/// The text of a set of schedules has fewer than `CHOICES_BYTES` bytes.
pub fn choices_end()
    ensures { ChoicesEnd }
{}

/// The bytes of an image are fewer than `IMAGE_BYTES`.
pub fn image_ends(image: &Image)
    ensures { length (bytes_of image.now) < IMAGE_BYTES }
{
    let _ = image.labels();
}
