//! What `lower` does over files and streams.
ghost use Rattle.std.specs.Prelude.{◌≡◌, ◌<◌, IfOk, length};
ghost use Rattle.adarun.specs.Driving.{KeepsSink};
ghost use Rattle.adarun.specs.Lowering.{IsUnlowered, LeavesLowered};
ghost use Rattle.adarun.specs.Reading.{Contents, IsBeginningRead, with_input};
ghost use Rattle.file_limits.specs.declared.TheConstants.{SOURCE_BYTES};
ghost use Rattle.lowering.specs.Lowering.{IsLowered};
ghost use Rattle.text_edits.specs.Edits.{line_feeds};

use crate::files::{FileStore, read_source};
use crate::messages::{cannot_write, no_memory, unread};
use crate::program::Status;
use base::limits::TEXT_LIMIT;
use lowering::{Fault, FaultKind, Lowered, Note, lower};
use lowering_report::{put_fault_report, put_note_report};
use machine::{Sink, write_all};
use std::alloc::{AllocError, Global};

/// Writes what a text of whole Ada 2012 is lowered to (docs/LOWERING.md), and reports what was left out.
pub(crate) fn drive_lower<F: FileStore, O: Sink, E: Sink>(
    alloc: Global,
    files: &F,
    source: &str,
    out: &mut O,
    err: &mut E,
) -> Status
    ensures leaves { LeavesLowered (with_input (F.standard_input files.now) (F.contents files.now)) source.now result (O.bytes out.old) (O.bytes out.new) }
    ensures sink { KeepsSink result (out.new ≡ out.old) (O.failures out.old) (O.failures out.new) }
{
    let text = match read_source(alloc, files, source) {
        Ok(text) => text,
        Err(error) => return unread(err, error, source),
    };
    lower_text(alloc, source, &text, out, err)
}

// Lowers a text that isn't longer than a source may be: of a longer one only a beginning has been read.
fn lower_whole(alloc: Global, text: &[u8]) -> Result<Lowered, Fault>
    ensures by_edits { IfOk result (λ lowered. IsLowered text.now lowered.text.items) }
    ensures lines { IfOk result (λ lowered. line_feeds lowered.text.items ≡ line_feeds text.now) }
    ensures short { IfOk result (λ _. length text.now < SOURCE_BYTES) }
{
    if text.len() > TEXT_LIMIT {
        return Err(Fault {
            kind: FaultKind::Spelling(ada2012_lexer::FaultKind::TextTooLong),
            place: TEXT_LIMIT as u32,
        });
    }
    lower(alloc, text)
}

// The reports of all notes, one after the other.
fn notes_report(
    alloc: Global,
    file: &str,
    text: &[u8],
    notes: &[Note],
) -> Result<Vec<u8>, AllocError> {
    let mut report = Vec::new(alloc);
    for note in notes {
        put_note_report(alloc, &mut report, file.as_bytes(), text, note)?;
    }
    Ok(report)
}

// Reports why a text isn't lowered, or that there is no memory.
fn report_fault<E: Sink>(
    alloc: Global,
    err: &mut E,
    file: &str,
    text: &[u8],
    fault: &Fault,
) -> Status
    ensures { IsUnlowered result }
{
    if fault.kind == FaultKind::Memory {
        return no_memory(err);
    }
    let mut report = Vec::new(alloc);
    match put_fault_report(alloc, &mut report, file.as_bytes(), text, fault) {
        Ok(()) => {
            let _ = write_all(err, &report);
            Status::SourceRefused
        }
        Err(_) => no_memory(err),
    }
}

// Writes what a source that has been read is lowered to, and then the notes.
fn lower_text<O: Sink, E: Sink>(
    alloc: Global,
    source: &str,
    text: &[u8],
    out: &mut O,
    err: &mut E,
) -> Status
    ensures leaves { (contents : Contents) → IsBeginningRead (contents source.now) SOURCE_BYTES text.now
        → LeavesLowered contents source.now result (O.bytes out.old) (O.bytes out.new) }
    ensures sink { KeepsSink result (out.new ≡ out.old) (O.failures out.old) (O.failures out.new) }
{
    let lowered = match lower_whole(alloc, text) {
        Ok(lowered) => lowered,
        Err(fault) => return report_fault(alloc, err, source, text, &fault),
    };
    let notes = match notes_report(alloc, source, text, &lowered.notes) {
        Ok(notes) => notes,
        Err(_) => return no_memory(err),
    };
    match write_all(out, &lowered.text) {
        Ok(()) => {
            let _ = write_all(err, &notes);
            Status::Done
        }
        Err(_) => cannot_write(err),
    }
}
