//! A line of a schedule of input values.

/// One line of a schedule: from `time` (microseconds since the start) on, `channel` has `value`.
#[derive(Clone, Copy, PartialEq, Eq, Debug)]
pub struct ScheduleLine {
    /// In microseconds since the start.
    pub time: i64,
    /// From 1 on.
    pub channel: u8,
    /// What is read from this time on.
    pub value: i64,
}
