//! Why an action may not be opened, or a call not queued.

/// What a call breaks.
#[derive(Clone, Copy, PartialEq, Eq, Debug)]
pub enum Refusal {
    /// The task has an action of the same object open (RM 9.5.1).
    SameObject,
    /// The task's active priority exceeds the ceiling of the object (RM D.3).
    AboveCeiling,
    /// A call waits in the object's queue (RM D.7).
    QueueFull,
}
