//! Which procedures handle interrupts.

/// A protected procedure that is the handler of a channel's interrupts (RM C.3.1): the channel, and the number of the procedure.
#[derive(Clone, Copy, PartialEq, Eq, Debug)]
pub struct Attachment {
    pub channel: u8,
    pub subprogram: u16,
}
