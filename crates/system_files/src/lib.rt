//! The files of the system by their names, and its standard input: reading the first bytes of one, and replacing a file whole or not at all.
#![tactic(auto)]

mod calls;
mod replacing;

use crate::calls::{Identity, file_bytes, first_bytes, identified};
use crate::replacing::replace;
use std::cell::Cell;

/// Why a file was not read or replaced.
#[derive(Clone, Copy, PartialEq, Eq, Debug)]
pub enum FileError {
    /// Memory was refused.
    Memory,
    /// Any other cause.
    Other,
}

/// The files of the system, and which of them was read last.
#[derive(Drop)]
pub struct SystemFiles<'a> {
    rt: &'a HostRuntime,
    last_read: Cell<Option<Identity>>,
}

impl<'a> SystemFiles<'a> {
    /// The files of this system, of which none was read.
    pub fn new(rt: &'a HostRuntime) -> SystemFiles<'a> {
        SystemFiles {
            rt,
            last_read: Cell::new(None),
        }
    }

    /// The first bytes of the file of this name, `most` of them at most: its content, where that is no longer.
    ///
    /// # Errors
    /// Memory where memory was refused, and Other for any other cause.
    pub fn read(&self, name: &str, most: usize) -> Result<Vec<u8>, FileError> {
        self.last_read.set(identified(self.rt, name));
        file_bytes(self.rt, name, most as u64)
    }

    /// The next bytes of standard input up to its end, `most` of them at most.
    ///
    /// # Errors
    /// Memory where memory was refused, and Other for any other cause.
    pub fn read_input(&self, most: usize) -> Result<Vec<u8>, FileError> {
        first_bytes(self.rt.alloc(), self.rt.stdin(), most as u64)
    }

    /// Replaces the content of the file of this name, which is made where there is none. A regular file is replaced whole or not at all, by one that is
    /// written beside it as NAME.new; what is no regular file is written to itself, and so is a regular file where that can't be done (README.md).
    ///
    /// # Errors
    /// Memory where memory was refused. Other for any other cause, and where the name is one of the regular file that was read last. A regular file is then
    /// as it was, unless it was written to itself.
    pub fn replace(&self, name: &str, bytes: &[u8]) -> Result<(), FileError> {
        if self.was_read_last(name) {
            return Err(FileError::Other);
        }
        replace(self.rt, name, bytes)
    }

    fn was_read_last(&self, name: &str) -> bool {
        match (self.last_read.get(), identified(self.rt, name)) {
            (Some(read), Some(named)) => read == named,
            _ => false,
        }
    }
}
