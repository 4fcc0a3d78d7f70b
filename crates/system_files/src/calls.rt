//! The calls of the system, each with no more of its answer than is asked for.
ghost use Rattle.std.specs.Prelude.{◌≡◌, IfOk, IfSome, take};

use crate::FileError;
use std::alloc::Global;
use std::fs::{self, File, Metadata, OpenOptions};
use std::io::{Error, ErrorKind, Read, Write};
use std::os::fd::AsFd;
use std::os::unix::fs::{MetadataExt, fchown};

/// By what the system distinguishes one regular file from another, whatever names it has.
#[derive(Clone, Copy, PartialEq, Eq)]
pub struct Identity {
    device: u64,
    number: u64,
}

/// What has a name.
#[derive(Drop)]
pub enum Place {
    /// Nothing.
    Nothing,
    /// A regular file.
    File(Metadata),
    /// A link, a folder, a device or a pipe, or what can't be known.
    Other,
}

/// How an error of the system is reported.
pub fn told(error: &Error) -> FileError {
    match error.kind() {
        ErrorKind::OutOfMemory => FileError::Memory,
        _ => FileError::Other,
    }
}

/// The regular file of this name, or to which a link of this name leads.
pub fn identified(rt: &HostRuntime, name: &str) -> Option<Identity> {
    match fs::metadata(rt, name) {
        Ok(found) if found.is_file() => Some(Identity {
            device: found.dev(),
            number: found.ino(),
        }),
        _ => None,
    }
}

/// The first bytes that a reader gives, `most` of them at most.
pub fn first_bytes<R: Read + Drop>(
    alloc: Global,
    reader: R,
    most: u64,
) -> Result<Vec<u8>, FileError>
    ensures { IfOk result (λ bytes. IfSome (R.remaining reader) (λ given. bytes.items ≡ take most given)) }
{
    let mut bytes = Vec::new(alloc);
    match reader.take(most).read_to_end(&mut bytes) {
        Ok(_) => Ok(bytes),
        Err(error) => Err(told(&error)),
    }
}

/// The first bytes of the file of this name, `most` of them at most.
pub fn file_bytes(rt: &HostRuntime, name: &str, most: u64) -> Result<Vec<u8>, FileError> {
    match File::open(rt, name) {
        Ok(file) => first_bytes(rt.alloc(), file, most),
        Err(error) => Err(told(&error)),
    }
}

/// What has this name.
pub fn place_of(rt: &HostRuntime, name: &str) -> Place {
    match fs::symlink_metadata(rt, name) {
        Ok(old) if old.is_file() => Place::File(old),
        Err(error) if error.kind() == ErrorKind::NotFound => Place::Nothing,
        _ => Place::Other,
    }
}

/// Writes to the file of this name itself.
pub fn write_over(rt: &HostRuntime, name: &str, bytes: &[u8]) -> Result<(), FileError> {
    match fs::write(rt, name, bytes) {
        Ok(()) => Ok(()),
        Err(error) => Err(told(&error)),
    }
}

/// Whether the file of this name can be opened to be written.
pub fn opened(rt: &HostRuntime, name: &str) -> Result<(), FileError> {
    match OpenOptions::new().write(true).open(rt, name) {
        Ok(_) => Ok(()),
        Err(error) => Err(told(&error)),
    }
}

/// A file that nothing had the name of, if one can be made.
pub fn made(rt: &HostRuntime, name: &str) -> Option<File> {
    OpenOptions::new()
        .write(true)
        .create_new(true)
        .open(rt, name)
        .ok()
}

/// Gives the file the owner and the group of the old one; whether it has them.
pub fn is_given_owner(file: &File, old: &Metadata) -> bool {
    fchown(file.as_fd(), Some(old.uid()), Some(old.gid())).is_ok()
}

/// Gives the file the permissions of the old one; whether it has them.
pub fn is_given_permissions(file: &File, old: &Metadata) -> bool {
    file.set_permissions(old.permissions()).is_ok()
}

/// Writes to the file, and closes it.
pub fn filled(mut file: File, bytes: &[u8]) -> Result<(), FileError> {
    match file.write_all(bytes) {
        Ok(()) => Ok(()),
        Err(error) => Err(told(&error)),
    }
}

/// Gives the file the second name, whatever had it; whether it has it.
pub fn is_renamed(rt: &HostRuntime, from: &str, to: &str) -> bool {
    fs::rename(rt, from, to).is_ok()
}

/// Removes the file, if that can be done.
pub fn remove(rt: &HostRuntime, name: &str) {
    let _ = fs::remove_file(rt, name);
}
