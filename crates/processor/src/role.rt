//! How frames come about.

/// How a frame came about, and so what its end is.
#[derive(Clone, Copy, PartialEq, Eq, Debug)]
pub enum Role {
    /// A call within an action or outside of all, or the body of a task.
    Inner,
    /// An external call that opened an action of the object (RM 9.5.1).
    Opened {
        object: u16,
    },
    /// The body of an entry that is run for the queued caller, beside the exception that the task itself raises again when the action has
    /// ended (RM 9.5.3).
    Serving {
        object: u16,
        caller: u8,
        pending: Option<u16>,
    },
}
