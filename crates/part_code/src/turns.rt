//! The words of the frame that loops over ranges hold (RM 5.5).

/// The words of the frame that a loop over a range holds, those of its parameter and of the parameter's last value, and which way the parameter goes.
#[derive(Clone, Copy, PartialEq, Eq, Debug)]
pub struct Turns {
    pub counter: u16,
    pub limit: u16,
    pub reversed: bool,
}
