//! The streams that the program writes to: once nobody reads standard output, standard error has nothing more to say.
use std::cell::Cell;
use std::io::{self, ErrorKind, Stderr, Stdout, Write};

/// Standard output, which notes where it is a pipe that nobody reads any more.
#[derive(Drop)]
pub(crate) struct Output<'a> {
    stream: Stdout,
    is_unread: &'a Cell<bool>,
}

impl<'a> Output<'a> {
    pub(crate) fn new(stream: Stdout, is_unread: &'a Cell<bool>) -> Output<'a> {
        Output { stream, is_unread }
    }
}

impl<'a> Write for Output<'a> {
    fn write(&mut self, bytes: &[u8]) -> io::Result<usize> {
        match self.stream.write(bytes) {
            Ok(count) => Ok(count),
            Err(error) => {
                self.is_unread.set(error.kind() == ErrorKind::BrokenPipe);
                Err(error)
            }
        }
    }

    fn flush(&mut self) -> io::Result<()> {
        self.stream.flush()
    }
}

/// Standard error, whose reports are dropped where nobody reads standard output any more, as of a program that the system ends there.
#[derive(Drop)]
pub(crate) struct Reports<'a> {
    stream: Stderr,
    is_output_unread: &'a Cell<bool>,
}

impl<'a> Reports<'a> {
    pub(crate) fn new(stream: Stderr, is_output_unread: &'a Cell<bool>) -> Reports<'a> {
        Reports {
            stream,
            is_output_unread,
        }
    }
}

impl<'a> Write for Reports<'a> {
    fn write(&mut self, bytes: &[u8]) -> io::Result<usize> {
        if self.is_output_unread.get() {
            return Ok(bytes.len());
        }
        self.stream.write(bytes)
    }

    fn flush(&mut self) -> io::Result<()> {
        self.stream.flush()
    }
}
