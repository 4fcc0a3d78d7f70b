//! Tasks (RM 9.1).
use crate::Text;

/// A task, or main.
#[derive(Debug, Drop, PartialEq, Eq)]
pub struct Task {
    /// Its name, in upper case.
    pub name: Text,
    /// Its base priority (RM D.1).
    pub priority: u8,
    /// The subprogram that is its body.
    pub subprogram: u16,
}
