//! Files and streams in memory, and one call of the program over them.
ghost use Rattle.std.specs.Prelude.{◌≡◌, None};

use adarun::{FileStore, ReadError, Stopwatch, WriteError, drive};
use machine::{MemorySink, Plan, Steps};
use std::alloc::{AllocError, Global};
use std::marker::Brand;
use std::sync::ledger::{Blank, Ledger};

/// A name with the content of the file.
pub(crate) type Entry<'a> = (&'a str, &'a [u8]);

/// Files by their names, of which one named `-` is standard input; a name that isn't there can't be read, and one that begins with '/' can't be written.
#[derive(Drop)]
pub(crate) struct Files<'a> {
    alloc: Global,
    entries: &'a [Entry<'a>],
    written: Option<(String, Vec<u8>)>,
}

impl<'a> FileStore for Files<'a> {
    ghost contents = { λ _ _. None };

    ghost standard_input = { λ _. None };

    fn read(&self, alloc: Global, name: &str, most: usize) -> Result<Vec<u8>, ReadError> {
        for (known, content) in self.entries {
            if *known == name {
                let length = most.min(content.len());
                return content[..length]
                    .to_vec(alloc)
                    .map_err(|_| ReadError::Memory);
            }
        }
        Err(ReadError::Unreadable)
    }

    fn read_input(&self, alloc: Global, most: usize) -> Result<Vec<u8>, ReadError> {
        self.read(alloc, "-", most)
    }

    fn write(&mut self, name: &str, bytes: &[u8]) -> Result<(), WriteError> {
        if name.starts_with('/') {
            return Err(WriteError::Unwritable);
        }
        let name = String::from_str(self.alloc, name).map_err(|_| WriteError::Memory)?;
        let bytes = bytes.to_vec(self.alloc).map_err(|_| WriteError::Memory)?;
        self.written = Some((name, bytes));
        Ok(())
    }
}

/// Nobody waits at a terminal.
#[derive(Clone, Copy)]
struct Nobody;

impl Stopwatch for Nobody {
    fn seconds(&self) -> Option<u64> {
        None
    }
}

/// What a call of the program left: its exit status, the bytes of both streams, and the file that it wrote last.
#[derive(Drop)]
pub(crate) struct Left {
    pub(crate) status: u8,
    pub(crate) written: Option<(String, Vec<u8>)>,
    pub(crate) out: Vec<u8>,
    pub(crate) err: Vec<u8>,
}

/// Calls the program on the words, over the files, where standard output keeps to the plan.
pub(crate) fn call(
    rt: &HostRuntime,
    words: &[&str],
    entries: &[Entry<'_>],
    plan: Plan,
) -> Result<Left, AllocError> {
    call_over::<Brand, Brand, Brand>(
        rt,
        words,
        entries,
        plan,
        Blank::new(1),
        Blank::new(1),
        Blank::new(1),
    )
}

fn call_over<L: Ledger, M: Ledger, N: Ledger>(
    rt: &HostRuntime,
    words: &[&str],
    entries: &[Entry<'_>],
    plan: Plan,
    first: Blank,
    second: Blank,
    third: Blank,
) -> Result<Left, AllocError>
    requires first_name { first.name ≡ L.name }
    requires first_parts { first.parts ≡ L.parts }
    requires first_one { L.parts ≡ 1 }
    requires second_name { second.name ≡ M.name }
    requires second_parts { second.parts ≡ M.parts }
    requires second_one { M.parts ≡ 1 }
    requires third_name { third.name ≡ N.name }
    requires third_parts { third.parts ≡ N.parts }
    requires third_one { N.parts ≡ 1 }
{
    let alloc = rt.alloc();
    let mut out = MemorySink::<L>::new(alloc, 65_536, plan, first)?;
    let mut err = MemorySink::<M>::new(alloc, 4_096, Plan::TakesAll, second)?;
    let mut steps = Steps::<N>::new(rt, third);
    let mut files = Files {
        alloc,
        entries,
        written: None,
    };
    let status = drive(
        alloc, words, &mut files, &Nobody, &mut out, &mut err, &mut steps,
    );
    Ok(Left {
        status,
        written: files.written.take(),
        out: out.bytes().to_vec(alloc)?,
        err: err.bytes().to_vec(alloc)?,
    })
}
