//! Lines before they are text.

/// A line of output before it is text: when, by which task, under which label, which value.
#[derive(Clone, Copy, PartialEq, Eq, Debug)]
pub struct Line {
    /// In microseconds.
    pub time: i64,
    /// The task's number in the image.
    pub task: u8,
    /// The label's number in the image.
    pub label: u16,
    pub value: i64,
}
