//! How much of its frames a task uses.

/// What a task or handler has of frames.
#[derive(Clone, Copy)]
pub struct FrameUse {
    /// How many frames are below the one that runs; the last one of a handler never runs (docs/FORMATS.md, "Words and frames").
    pub below: usize,
    /// How many words all its frames have together: their locals, and what is on their operand stacks.
    pub words: usize,
}
