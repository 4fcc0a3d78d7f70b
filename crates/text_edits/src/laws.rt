//! What holds of all edits of texts.
ghost use Rattle.text_edits.specs.Places.{LinesStay};

/// A byte of an edited text that is no line feed is in the same line as the byte of the text from which it comes.
pub fn lines_stay()
    ensures { LinesStay }
{}
