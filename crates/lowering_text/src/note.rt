//! What is said of what was changed.

use base::Text;

/// What people should know of a change.
#[derive(Drop, PartialEq, Eq)]
pub enum NoteKind {
    /// The pragma of this name was left out.
    PragmaLeftOut(Text),
    /// The aspect of this name was left out.
    AspectLeftOut(Text),
    /// The interrupt of the first name is the channel whose number is the second one.
    Channel(Text, Text),
    /// The message of a raise statement was left out.
    MessageLeftOut,
    /// A part of a text that is written as a line was left out.
    TextLeftOut,
    /// What had the first name has the second one.
    Renamed(Text, Text),
}
