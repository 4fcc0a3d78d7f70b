//! The numbers of the rules that a schedule's lines may break (docs/FORMATS.md, "Schedule").

/// The time is before that of the line before.
pub const TIME_GOES_BACK: u8 = 51;
/// The channel is not one of 1 to 8.
pub const UNKNOWN_CHANNEL: u8 = 52;
/// There are lines before it as many as a schedule may have.
pub const TOO_MANY_LINES: u8 = 53;
