//! Files by their names, and standard input.
ghost use Rattle.std.specs.Prelude.{◌≡◌, ◌≢◌, ℕ, List, Option, IfOk, OnOk};
ghost use Rattle.file_limits.specs.declared.TheConstants.{SOURCE_BYTES};
ghost use Rattle.adarun.specs.Reading.{IsBeginningRead, IsContentRead, with_input};

use file_limits::SOURCE_BYTES;
use std::alloc::Global;

/// Why a file was not read.
#[derive(Clone, Copy, PartialEq, Eq, Debug)]
pub enum ReadError {
    /// Memory was refused.
    Memory,
    /// Any other cause.
    Unreadable,
}

/// Why a file was not written.
#[derive(Clone, Copy, PartialEq, Eq, Debug)]
pub enum WriteError {
    /// Memory was refused.
    Memory,
    /// Any other cause.
    Unwritable,
}

/// Where files and standard input are read, and files are written. Its meaning is the contents of files by their names, and that of standard input, where these
/// are known: not for those of a system.
pub trait FileStore {
    ghost contents: { Self → List ℕ → Option (List ℕ) };

    ghost standard_input: { Self → Option (List ℕ) };

    /// The first bytes of the file of this name, `most` of them at most: its content, where that is no longer.
    ///
    /// # Errors
    /// Memory where memory was refused, and Unreadable for any other cause.
    fn read(&self, alloc: Global, name: &str, most: usize) -> Result<Vec<u8>, ReadError>
        ensures { IfOk result (λ bytes. IsBeginningRead (contents self.now name.now) most bytes.items) };

    /// The first bytes of standard input, `most` of them at most.
    ///
    /// # Errors
    /// Memory where memory was refused, and Unreadable for any other cause.
    fn read_input(&self, alloc: Global, most: usize) -> Result<Vec<u8>, ReadError>
        ensures { IfOk result (λ bytes. IsBeginningRead (standard_input self.now) most bytes.items) };

    /// Replaces the content of the file of this name, which is made where there is none.
    ///
    /// # Errors
    /// Memory where memory was refused, and Unwritable for any other cause; of the content nothing is promised then.
    fn write(&mut self, name: &str, bytes: &[u8]) -> Result<(), WriteError>
        ensures written { OnOk result (IsContentRead (contents self.new name.now) bytes.now) }
        ensures others { (other : List ℕ) → other ≢ name.now → contents self.new other ≡ contents self.old other };
}

/// The first bytes of a source, as many as decide what becomes of it: of standard input by the name `-`, and else of the file of this name.
///
/// # Errors
/// As `FileStore::read`.
pub(crate) fn read_source<F: FileStore>(
    alloc: Global,
    files: &F,
    source: &str,
) -> Result<Vec<u8>, ReadError>
    ensures { IfOk result (λ bytes. IsBeginningRead (with_input (F.standard_input files.now) (F.contents files.now) source.now) SOURCE_BYTES bytes.items) }
{
    if source == "-" {
        files.read_input(alloc, SOURCE_BYTES)
    } else {
        files.read(alloc, source, SOURCE_BYTES)
    }
}
