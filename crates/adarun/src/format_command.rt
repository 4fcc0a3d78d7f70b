//! What `format` does over files and streams.
ghost use Rattle.std.specs.Prelude.{◌≡◌};
ghost use Rattle.adarun.specs.Driving.{KeepsSink};
ghost use Rattle.adarun.specs.Formatting.{LeavesFormat};
ghost use Rattle.adarun.specs.Reading.{Contents, IsBeginningRead, with_input};
ghost use Rattle.file_limits.specs.declared.TheConstants.{SOURCE_BYTES};

use crate::files::{FileStore, read_source};
use crate::messages::{cannot_write, no_memory, report_long_layout, report_source, unread};
use crate::program::Status;
use lexer::tokens;
use machine::{Sink, write_all};
use printing::{Refusal, format};
use std::alloc::Global;

/// Writes the layout of a source (docs/FORMATS.md, "Layout").
pub(crate) fn drive_format<F: FileStore, O: Sink, E: Sink>(
    alloc: Global,
    files: &F,
    source: &str,
    out: &mut O,
    err: &mut E,
) -> Status
    ensures leaves { LeavesFormat (with_input (F.standard_input files.now) (F.contents files.now)) source.now result (O.bytes out.old) (O.bytes out.new) }
    ensures sink { KeepsSink result (out.new ≡ out.old) (O.failures out.old) (O.failures out.new) }
{
    let text = match read_source(alloc, files, source) {
        Ok(text) => text,
        Err(error) => return unread(err, error, source),
    };
    format_text(alloc, source, &text, out, err)
}

// Writes the layout of a source that has been read.
fn format_text<O: Sink, E: Sink>(
    alloc: Global,
    source: &str,
    text: &[u8],
    out: &mut O,
    err: &mut E,
) -> Status
    ensures leaves { (contents : Contents) → IsBeginningRead (contents source.now) SOURCE_BYTES text.now
        → LeavesFormat contents source.now result (O.bytes out.old) (O.bytes out.new) }
    ensures sink { KeepsSink result (out.new ≡ out.old) (O.failures out.old) (O.failures out.new) }
{
    let tokens = match tokens(alloc, text) {
        Ok(tokens) => tokens,
        Err(fault) => return report_source(alloc, err, source, text, &fault),
    };
    let layout = match format(alloc, text, &tokens) {
        Ok(layout) => layout,
        Err(Refusal::TooLong) => return report_long_layout(err),
        Err(Refusal::Memory) => return no_memory(err),
    };
    match write_all(out, &layout) {
        Ok(()) => Status::Done,
        Err(_) => cannot_write(err),
    }
}
