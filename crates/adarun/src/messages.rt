//! The lines that the program reports on standard error, and the exit status that goes with each.
ghost use Rattle.std.specs.Prelude.{◌≡◌, nat_eq, if◌then◌else◌};
ghost use Rattle.base.specs.declared.faults.TheConstants.{MEMORY_REFUSED};
ghost use Rattle.adarun.specs.Driving as driving;

use crate::files::ReadError;
use crate::origins::position;
use crate::program::Status;
use crate::reporting::{outcome_report, schedule_refusal, source_refusal};
use crate::timed::Ending;
use arrayvec::ArrayVec;
use base::faults::MEMORY_REFUSED;
use clock::ScheduleFault;
use image::ImageFault;
use itoa::Buffer;
use lexer::Fault;
use machine::{Cut, Outcome, Sink, SinkError, Steps, write_all};
use std::alloc::Global;
use std::sync::ledger::Ledger;

// The most bytes of a line that is reported in one write.
const LINE_BYTES: usize = 256;

type ReportLine = ArrayVec<u8, LINE_BYTES>;

// Appends a piece of a line, and writes the line before that if there is no room left.
fn put<E: Sink>(err: &mut E, line: &mut ReportLine, piece: &[u8]) -> Result<(), SinkError> {
    if line.try_extend_from_slice(piece).is_ok() {
        return Ok(());
    }
    write_all(err, line.as_slice())?;
    line.clear();
    write_all(err, piece)
}

// Writes the pieces and the end of the line, in one write where they are short; nothing more after a write that fails.
fn write_line<E: Sink>(err: &mut E, pieces: &[&[u8]]) -> Result<(), SinkError> {
    let mut line = ArrayVec::new();
    for piece in pieces {
        put(err, &mut line, piece)?;
    }
    put(err, &mut line, b"\n")?;
    write_all(err, line.as_slice())
}

// Reports a line. That it can't be written is reported nowhere else.
fn tell<E: Sink>(err: &mut E, status: Status, pieces: &[&[u8]]) -> Status
    ensures { result ≡ status }
{
    let _ = write_line(err, pieces);
    status
}

pub(crate) fn usage<E: Sink>(err: &mut E) -> Status
    ensures { result ≡ Status.Failed }
{
    tell(err, Status::Failed, &[b"usage"])
}

pub(crate) fn no_memory<E: Sink>(err: &mut E) -> Status
    ensures { result ≡ Status.NoMemory }
{
    tell(err, Status::NoMemory, &[b"no memory"])
}

pub(crate) fn cannot_write<E: Sink>(err: &mut E) -> Status
    ensures { result ≡ Status.Failed }
{
    tell(err, Status::Failed, &[b"cannot write"])
}

/// Reports that the layout of a source has more bytes than a text may have.
pub(crate) fn report_long_layout<E: Sink>(err: &mut E) -> Status
    ensures { result ≡ Status.Failed }
{
    tell(
        err,
        Status::Failed,
        &[b"the layout has more than 65536 bytes"],
    )
}

pub(crate) fn unread<E: Sink>(err: &mut E, error: ReadError, name: &str) -> Status
    ensures { result ≡ driving.unread error }
{
    match error {
        ReadError::Memory => no_memory(err),
        ReadError::Unreadable => tell(err, Status::Failed, &[b"cannot read ", name.as_bytes()]),
    }
}

pub(crate) fn refuse_source<E: Sink>(err: &mut E, text: &[u8], fault: &Fault) -> Status
    ensures { result ≡ (if nat_eq fault.now.number MEMORY_REFUSED then Status.NoMemory else Status.SourceRefused) }
{
    if fault.number == MEMORY_REFUSED {
        return no_memory(err);
    }
    let place = position(text, fault.place);
    let mut number = Buffer::new();
    let mut lines = Buffer::new();
    let mut columns = Buffer::new();
    let pieces: [&[u8]; 6] = [
        b"fault ",
        number.format(fault.number).as_bytes(),
        b" at ",
        lines.format(place.line).as_bytes(),
        b":",
        columns.format(place.column).as_bytes(),
    ];
    tell(err, Status::SourceRefused, &pieces)
}

/// Reports a source's fault with its rule and its line, or as `refuse_source` where there is no memory for them.
pub(crate) fn report_source<E: Sink>(
    alloc: Global,
    err: &mut E,
    file: &str,
    text: &[u8],
    fault: &Fault,
) -> Status
    ensures { result ≡ (if nat_eq fault.now.number MEMORY_REFUSED then Status.NoMemory else Status.SourceRefused) }
{
    if fault.number == MEMORY_REFUSED {
        return no_memory(err);
    }
    match source_refusal(alloc, file, text, fault) {
        Ok(Some(report)) => {
            let _ = write_all(err, &report);
            Status::SourceRefused
        }
        _ => refuse_source(err, text, fault),
    }
}

/// Writes what is said of how a run came to its end.
pub(crate) fn report_outcome<E: Sink, L: Ledger>(
    alloc: Global,
    err: &mut E,
    file: &str,
    text: &[u8],
    lines: &[u8],
    limit: u64,
    outcome: &Outcome,
    steps: &mut Steps<L>,
) {
    if let Ok(Some(report)) = outcome_report(alloc, file, text, lines, limit, outcome, steps) {
        let _ = write_all(err, &report);
    }
}

/// Writes what is said of how a run up to a time came to its end: of one that the time has cut nothing.
pub(crate) fn report_ending<E: Sink, L: Ledger>(
    alloc: Global,
    err: &mut E,
    file: &str,
    text: &[u8],
    lines: &[u8],
    limit: u64,
    ending: &Ending,
    steps: &mut Steps<L>,
) {
    match ending.cut {
        Cut::Steps => report_outcome(alloc, err, file, text, lines, limit, &ending.outcome, steps),
        Cut::Time => {}
    }
}

/// Writes the line of a fault, `WHAT fault NUMBER at UNIT PLACE`, or that there is no memory where the fault says so.
pub(crate) fn refuse<E: Sink>(
    err: &mut E,
    status: Status,
    what: &str,
    number: u8,
    unit: &str,
    place: u32,
) -> Status
    ensures { result ≡ (if nat_eq number MEMORY_REFUSED then Status.NoMemory else status) }
{
    if number == MEMORY_REFUSED {
        return no_memory(err);
    }
    let mut numbers = Buffer::new();
    let mut places = Buffer::new();
    let pieces: [&[u8]; 7] = [
        what.as_bytes(),
        b" fault ",
        numbers.format(number).as_bytes(),
        b" at ",
        unit.as_bytes(),
        b" ",
        places.format(place).as_bytes(),
    ];
    tell(err, status, &pieces)
}

pub(crate) fn refuse_image<E: Sink>(err: &mut E, fault: &ImageFault) -> Status
    ensures { result ≡ (if nat_eq fault.now.number MEMORY_REFUSED then Status.NoMemory else Status.ImageFault) }
{
    refuse(
        err,
        Status::ImageFault,
        "image",
        fault.number,
        "byte",
        fault.byte,
    )
}

pub(crate) fn refuse_schedule<E: Sink>(err: &mut E, fault: &ScheduleFault) -> Status
    ensures { result ≡ (if nat_eq fault.now.number MEMORY_REFUSED then Status.NoMemory else Status.ScheduleRefused) }
{
    refuse(
        err,
        Status::ScheduleRefused,
        "schedule",
        fault.number,
        "line",
        fault.line,
    )
}

/// Reports a schedule's fault with its rule and its line, or as `refuse_schedule` where there is no memory for them.
pub(crate) fn report_schedule<E: Sink>(
    alloc: Global,
    err: &mut E,
    file: &str,
    lines: &[u8],
    fault: &ScheduleFault,
) -> Status
    ensures { result ≡ (if nat_eq fault.now.number MEMORY_REFUSED then Status.NoMemory else Status.ScheduleRefused) }
{
    if fault.number == MEMORY_REFUSED {
        return no_memory(err);
    }
    match schedule_refusal(alloc, file, lines, fault) {
        Ok(Some(report)) => {
            let _ = write_all(err, &report);
            Status::ScheduleRefused
        }
        _ => refuse_schedule(err, fault),
    }
}
