//! Replacing a file by one that is written beside it.
use crate::FileError;
use crate::calls::{
    Place, filled, is_given_owner, is_given_permissions, is_renamed, made, opened, place_of,
    remove, write_over,
};
use std::fs::{File, Metadata};

/// Replaces a regular file, or makes one, whole or not at all where that can be done; writes to anything else that has the name.
pub fn replace(rt: &HostRuntime, name: &str, bytes: &[u8]) -> Result<(), FileError> {
    match place_of(rt, name) {
        Place::Nothing => replace_by_new(rt, name, None, bytes),
        Place::File(old) => replace_file(rt, name, &old, bytes),
        Place::Other => write_over(rt, name, bytes),
    }
}

fn replace_file(
    rt: &HostRuntime,
    name: &str,
    old: &Metadata,
    bytes: &[u8],
) -> Result<(), FileError> {
    match opened(rt, name) {
        Ok(()) => replace_by_new(rt, name, Some(old), bytes),
        Err(error) => Err(error),
    }
}

fn replace_by_new(
    rt: &HostRuntime,
    name: &str,
    old: Option<&Metadata>,
    bytes: &[u8],
) -> Result<(), FileError> {
    match format!(in rt.alloc(); "{name}.new") {
        Ok(beside) => write_beside(rt, name, beside.as_str(), old, bytes),
        Err(_) => Err(FileError::Memory),
    }
}

// Writes a file of the second name, which then takes the first one; or to the file of the first name itself.
fn write_beside(
    rt: &HostRuntime,
    name: &str,
    beside: &str,
    old: Option<&Metadata>,
    bytes: &[u8],
) -> Result<(), FileError> {
    let Some(file) = made_like(rt, beside, old) else {
        return write_over(rt, name, bytes);
    };
    match filled(file, bytes) {
        Ok(()) => take_name(rt, name, beside, bytes),
        Err(error) => {
            remove(rt, beside);
            Err(error)
        }
    }
}

fn take_name(rt: &HostRuntime, name: &str, beside: &str, bytes: &[u8]) -> Result<(), FileError> {
    if is_renamed(rt, beside, name) {
        return Ok(());
    }
    remove(rt, beside);
    write_over(rt, name, bytes)
}

// A new file with the owner, group and permissions of the old one, where there can be one.
fn made_like(rt: &HostRuntime, name: &str, old: Option<&Metadata>) -> Option<File> {
    let file = made(rt, name)?;
    if is_made_like(&file, old) {
        return Some(file);
    }
    remove(rt, name);
    None
}

fn is_made_like(file: &File, old: Option<&Metadata>) -> bool {
    match old {
        Some(old) => is_given_owner(file, old) && is_given_permissions(file, old),
        None => true,
    }
}
