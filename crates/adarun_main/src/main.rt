//! The program: the words of its command line, its files and its streams, handed to `drive`.
#![tactic(auto)]

mod streams;

ghost use Rattle.std.specs.Prelude.{◌≡◌, None};

use adarun::{FileStore, ReadError, Status, Stopwatch, WriteError, drive};
use machine::{Steps, WriterSink};
use std::alloc::Global;
use std::cell::Cell;
use std::env;
use std::io::{self, ErrorKind, IsTerminal};
use std::marker::Brand;
use std::process::ExitCode;
use std::sync::ledger::{Blank, Ledger};
use std::time::Instant;
use streams::{Output, Reports};
use system_files::{FileError, SystemFiles};

/// The files of the system, as the program asks for them.
#[derive(Drop)]
struct Files<'a> {
    system: SystemFiles<'a>,
}

// Why a file was not read, as the program is given it.
fn read_error(error: FileError) -> ReadError {
    match error {
        FileError::Memory => ReadError::Memory,
        FileError::Other => ReadError::Unreadable,
    }
}

impl<'a> FileStore for Files<'a> {
    ghost contents = { λ _ _. None };

    ghost standard_input = { λ _. None };

    fn read(&self, _alloc: Global, name: &str, most: usize) -> Result<Vec<u8>, ReadError> {
        match self.system.read(name, most) {
            Ok(bytes) => Ok(bytes),
            Err(error) => Err(read_error(error)),
        }
    }

    fn read_input(&self, _alloc: Global, most: usize) -> Result<Vec<u8>, ReadError> {
        match self.system.read_input(most) {
            Ok(bytes) => Ok(bytes),
            Err(error) => Err(read_error(error)),
        }
    }

    fn write(&mut self, name: &str, bytes: &[u8]) -> Result<(), WriteError> {
        match self.system.replace(name, bytes) {
            Ok(()) => Ok(()),
            Err(FileError::Memory) => Err(WriteError::Memory),
            Err(FileError::Other) => Err(WriteError::Unwritable),
        }
    }
}

/// The time since the program began, where standard error is a terminal.
#[derive(Drop)]
struct Watch<'a> {
    rt: &'a HostRuntime,
    start: Option<Instant>,
}

impl<'a> Watch<'a> {
    // One that begins now. Without a clock no search reports how far it is.
    fn new(rt: &'a HostRuntime) -> Watch<'a> {
        let start = if rt.stderr().is_terminal() {
            Instant::now(rt).ok()
        } else {
            None
        };
        Watch { rt, start }
    }
}

impl<'a> Stopwatch for Watch<'a> {
    fn seconds(&self) -> Option<u64> {
        let elapsed = self.start?.elapsed(self.rt).ok()?;
        Some(elapsed.as_secs())
    }
}

// The status of the program's work over its streams.
fn status_over<L: Ledger, M: Ledger, N: Ledger>(
    rt: &HostRuntime,
    words: &[&str],
    first: Blank,
    second: Blank,
    third: Blank,
) -> u8
    requires first_name { first.name ≡ L.name }
    requires first_parts { first.parts ≡ L.parts }
    requires first_one { L.parts ≡ 1 }
    requires second_name { second.name ≡ M.name }
    requires second_parts { second.parts ≡ M.parts }
    requires second_one { M.parts ≡ 1 }
    requires third_name { third.name ≡ N.name }
    requires third_parts { third.parts ≡ N.parts }
    requires third_one { N.parts ≡ 1 }
{
    let is_unread = Cell::new(false);
    let mut out = WriterSink::<_, L>::new(Output::new(rt.stdout(), &is_unread), first);
    let mut err = WriterSink::<_, M>::new(Reports::new(rt.stderr(), &is_unread), second);
    let system = SystemFiles::new(rt);
    let mut steps = Steps::<N>::new(rt, third);
    drive(
        rt.alloc(),
        words,
        &mut Files { system },
        &Watch::new(rt),
        &mut out,
        &mut err,
        &mut steps,
    )
}

fn status(rt: &HostRuntime) -> io::Result<u8> {
    let mut texts = Vec::new(rt.alloc());
    for text in env::args(rt)?.skip(1) {
        texts.push(text)?;
    }
    let mut words = Vec::new(rt.alloc());
    for text in &texts {
        words.push(text.as_str())?;
    }
    Ok(status_over::<Brand, Brand, Brand>(
        rt,
        words.as_slice(),
        Blank::new(1),
        Blank::new(1),
        Blank::new(1),
    ))
}

fn main(rt: HostRuntime) -> ExitCode {
    match status(&rt) {
        Ok(status) => ExitCode::from(status),
        Err(error) => match error.kind() {
            ErrorKind::OutOfMemory => {
                let _ = eprintln!(rt; "no memory");
                ExitCode::from(Status::NoMemory as u8)
            }
            _ => {
                let _ = eprintln!(rt; "usage");
                ExitCode::from(Status::Failed as u8)
            }
        },
    }
}
