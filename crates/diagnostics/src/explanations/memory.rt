//! What is said where memory was refused.

pub(crate) const MEMORY_REFUSED: &str = "\
60 Memory was refused

The system gave no memory for the program's work, and nothing is said of the text, the image or \
the schedule. No place is reported: the program writes `no memory`, and its exit status is 8; 60 \
is the number that callers of the libraries see.
";
