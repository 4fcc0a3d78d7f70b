//! The reports: the place, the words, and the line with a mark.
ghost use Rattle.std.specs.Prelude.{◌≡◌, ◌++◌, OnOk};
ghost use Rattle.source_report.specs.Reports.{place_report};
ghost use Rattle.lowering_report.specs.Notes.{aspect_words, channel_words, interrupt_words, note_words, old_name_words, pragma_words, renamed_words};

use crate::expected::put_unexpected;
use crate::left_out::put_left_out;
use ada2012_parser::FaultKind as SyntaxFault;
use lowering::{Fault, FaultKind, Note, NoteKind, ROUNDS};
use source_report::put_place_report;
use std::alloc::{AllocError, Global};

fn put_syntax(alloc: Global, out: &mut Vec<u8>, kind: SyntaxFault) -> Result<(), AllocError> {
    match kind {
        SyntaxFault::LeftOut(construct) => put_left_out(alloc, out, construct),
        SyntaxFault::Unexpected(expected) => put_unexpected(out, expected),
        SyntaxFault::TooManyLevels => out.extend_from_slice(b"this opens more than 40 levels"),
        SyntaxFault::Memory => out.extend_from_slice(b"no memory"),
    }
}

// What is wrong, and what to write instead.
fn put_fault(alloc: Global, out: &mut Vec<u8>, kind: FaultKind) -> Result<(), AllocError> {
    match kind {
        FaultKind::Spelling(kind) => {
            let words = format!(in alloc; "{kind}")?;
            out.extend_from_slice(words.as_bytes())
        }
        FaultKind::Syntax(kind) => put_syntax(alloc, out, kind),
        FaultKind::RealNumber => {
            out.extend_from_slice(b"a real number isn't lowered: count the smallest unit")
        }
        FaultKind::NumberOutOfRange => {
            out.extend_from_slice(b"this number has no value in -2**63 .. 2**63 - 1")
        }
        FaultKind::Unfinished => {
            let words = format!(in alloc; "{ROUNDS} rounds of edits don't lower it")?;
            out.extend_from_slice(words.as_bytes())
        }
        FaultKind::Memory => out.extend_from_slice(b"no memory"),
    }
}

/// Adds `FILE:LINE:COLUMN: error: `, what is wrong with a text that isn't lowered, and the line with a mark.
///
/// # Errors
/// Where memory was refused.
pub fn put_fault_report(
    alloc: Global,
    out: &mut Vec<u8>,
    file: &[u8],
    text: &[u8],
    fault: &Fault,
) -> Result<(), AllocError> {
    let mut words = Vec::new(alloc);
    words.extend_from_slice(b"error: ")?;
    put_fault(alloc, &mut words, fault.kind)?;
    put_place_report(out, file, text, fault.place, &words)
}

#[tactic(auto, unfolding(crate::specs::Notes::pragma_words))]
fn put_pragma(out: &mut Vec<u8>, name: &[u8]) -> Result<(), AllocError>
    ensures { OnOk result (out.new.items ≡ out.old.items ++ pragma_words name.now) }
{
    out.extend_from_slice(b"note: pragma ")?;
    out.extend_from_slice(name)?;
    out.extend_from_slice(b" left out")?;
    Ok(())
}

#[tactic(auto, unfolding(crate::specs::Notes::aspect_words))]
fn put_aspect(out: &mut Vec<u8>, name: &[u8]) -> Result<(), AllocError>
    ensures { OnOk result (out.new.items ≡ out.old.items ++ aspect_words name.now) }
{
    out.extend_from_slice(b"note: aspect ")?;
    out.extend_from_slice(name)?;
    out.extend_from_slice(b" left out")?;
    Ok(())
}

#[tactic(auto, unfolding(crate::specs::Notes::interrupt_words))]
fn put_interrupt(out: &mut Vec<u8>, name: &[u8]) -> Result<(), AllocError>
    ensures { OnOk result (out.new.items ≡ out.old.items ++ interrupt_words name.now) }
{
    out.extend_from_slice(b"note: ")?;
    out.extend_from_slice(name)?;
    out.extend_from_slice(b" is channel ")?;
    Ok(())
}

#[tactic(auto, unfolding(crate::specs::Notes::channel_words))]
fn put_channel(out: &mut Vec<u8>, name: &[u8], number: &[u8]) -> Result<(), AllocError>
    ensures { OnOk result (out.new.items ≡ out.old.items ++ channel_words name.now number.now) }
{
    put_interrupt(out, name)?;
    out.extend_from_slice(number)?;
    Ok(())
}

#[tactic(auto, unfolding(crate::specs::Notes::old_name_words))]
fn put_old_name(out: &mut Vec<u8>, name: &[u8]) -> Result<(), AllocError>
    ensures { OnOk result (out.new.items ≡ out.old.items ++ old_name_words name.now) }
{
    out.extend_from_slice(b"note: ")?;
    out.extend_from_slice(name)?;
    out.extend_from_slice(b" is renamed to ")?;
    Ok(())
}

#[tactic(auto, unfolding(crate::specs::Notes::renamed_words))]
fn put_renamed(out: &mut Vec<u8>, name: &[u8], other: &[u8]) -> Result<(), AllocError>
    ensures { OnOk result (out.new.items ≡ out.old.items ++ renamed_words name.now other.now) }
{
    put_old_name(out, name)?;
    out.extend_from_slice(other)?;
    Ok(())
}

// What was changed.
fn put_note(out: &mut Vec<u8>, kind: &NoteKind) -> Result<(), AllocError>
    ensures { OnOk result (out.new.items ≡ out.old.items ++ note_words kind.now) }
{
    match kind {
        NoteKind::PragmaLeftOut(name) => put_pragma(out, name.as_bytes()),
        NoteKind::AspectLeftOut(name) => put_aspect(out, name.as_bytes()),
        NoteKind::Channel(name, number) => put_channel(out, name.as_bytes(), number.as_bytes()),
        NoteKind::MessageLeftOut => {
            out.extend_from_slice(b"note: message of an exception left out")
        }
        NoteKind::TextLeftOut => out.extend_from_slice(b"note: part of a text left out"),
        NoteKind::Renamed(name, other) => put_renamed(out, name.as_bytes(), other.as_bytes()),
    }
}

/// Adds `FILE:LINE:COLUMN: note: `, what was changed, as `pragma NAME left out` with the name in upper case, and the line with a mark.
///
/// # Errors
/// Where memory was refused.
pub fn put_note_report(
    alloc: Global,
    out: &mut Vec<u8>,
    file: &[u8],
    text: &[u8],
    note: &Note,
) -> Result<(), AllocError>
    ensures { OnOk result (out.new.items ≡ out.old.items ++ place_report file.now text.now note.now.place (note_words note.now.kind)) }
{
    let mut words = Vec::new(alloc);
    put_note(&mut words, &note.kind)?;
    put_place_report(out, file, text, note.place, &words)
}
