//! What limits are set on.

use base::limits::{EXCEPTIONS, PREDEFINED_EXCEPTIONS, TASKS};
use lexer::Text;

/// Tasks of a source, main not among them.
pub const DECLARED_TASKS: usize = TASKS - 1;
/// Exceptions of a source, the predefined ones not among them (RM 11.1).
pub const DECLARED_EXCEPTIONS: usize = EXCEPTIONS - PREDEFINED_EXCEPTIONS;

/// What is counted, each kind by itself.
#[derive(Clone, Copy, Debug, PartialEq, Eq)]
pub enum Kind {
    /// A subprogram, or an operation or entry of a protected object.
    Subprogram,
    Task,
    ProtectedObject,
    Exception,
}

/// Something that a limit is set on, and its place.
#[derive(Drop)]
pub(crate) enum Thing {
    Counted(Kind, u32),
    /// A label of a call.
    Label(Text, u32),
    /// An object or a component, and its words.
    Object(u32, u16),
}
