//! The program's work over any files and streams.
ghost use Rattle.std.specs.Prelude.{◌≡◌, ◌≢◌, ◌<◌, ◌⊎◌, ℕ, IfOk, List, Option, map, option_map};
ghost use Rattle.adarun.specs.Driving as driving;
ghost use Rattle.adarun.specs.Driving.{AnswersStatus, IsFaultPlace, IsWholeTold, KeepsSink, LeavesCheck, LeavesCompile, LeavesExplain, LeavesExplainText, LeavesGo, LeavesList, LeavesRun, LeavesShown, LeavesSimulate, LeavesUntil, input_of};
ghost use Rattle.adarun.specs.Reading.{Contents, IsBeginningRead, with_input};
ghost use Rattle.file_limits.specs.declared.TheConstants.{IMAGE_BYTES, SCHEDULE_BYTES, SOURCE_BYTES};

use crate::code_told::told_of_limit;
use crate::compilation::compile;
use crate::files::{FileStore, ReadError, WriteError, read_source};
use crate::format_command::drive_format;
use crate::going::{GoFault, go};
use crate::lower_command::drive_lower;
use crate::measure_command::drive_measures;
use crate::messages::{
    cannot_write, no_memory, refuse_image, refuse_schedule, refuse_source, report_ending,
    report_outcome, report_schedule, report_source, unread, usage,
};
use crate::progress::Stopwatch;
use crate::reporting::fault_report;
use crate::rules::text_faults;
use crate::search_command::drive_search;
use crate::timed::go_until;
use crate::views::drive_trace;
use base::faults::MEMORY_REFUSED;
use clock::Schedule;
use command_line::{Request, WordsError, request_of};
use diagnostics::{explained, explanation};
use file_limits::{IMAGE_BYTES, SCHEDULE_BYTES, SOURCE_BYTES, image_ends};
use image::ImageFault;
use image_format::{encode, list};
use image_loading::load;
use machine::{Outcome, RunFault, Sink, Steps, run, write_all};
use manual::{MANUAL, VERSION};
use std::alloc::{AllocError, Global};
use std::sync::ledger::Ledger;

/// The program's exit statuses (docs/FORMATS.md, "Exit statuses").
#[derive(Clone, Copy, PartialEq, Eq, Debug)]
pub enum Status {
    Done = 0,
    Failed = 1,
    SourceRefused = 2,
    Unhandled = 3,
    WaitsForever = 4,
    StepLimit = 5,
    ImageFault = 6,
    ScheduleRefused = 7,
    NoMemory = 8,
    LineFound = 9,
}

/// Does what the words, without the program's name, ask for: reads files, writes one of them or to `out`, and where it stops early one line to `err`, or of
/// `simulate` several; `check` writes to `err` alone, which was given the report of every fault of the source under status 2, and nothing under status 0. It
/// answers the exit status. Where a run came to an outcome, `out` was given its text (`go`, `simulate`, `run`), or the view of it that was asked for (`trace`,
/// `measure`); of `measure` of a set what was measured of its runs; of `search` its answer; where an image was listed, its listing; where a fault was
/// explained, its explanation; where a source was formatted, its layout; where one was lowered, what it is lowered to, and `err` its notes; where the manual or
/// the version was asked for, this; and no write to `out` failed under any status but 1. Where a text, an image or a schedule was refused or memory was
/// wanting, nothing was written; where a write to `out` failed, a beginning of what was to be written. `compile` writes the image's file, and nothing to `out`:
/// that file stays as it was unless the bytes of the source's image were there to be written, and no other file changes. The steps of runs, searches and traces
/// are counted, among them those of a second run, by which `simulate` says where an exception came from. `watch` has the seconds that somebody has waited.
pub fn drive<F: FileStore, W: Stopwatch, O: Sink, E: Sink, L: Ledger>(
    alloc: Global,
    words: &[&str],
    files: &mut F,
    watch: &W,
    out: &mut O,
    err: &mut E,
    steps: &mut Steps<L>,
) -> u8
    ensures answers { AnswersStatus (map (λ w. w.now) words.now) (F.standard_input files.old) (F.contents files.old) (F.contents files.new) result
        (O.bytes out.old) (O.bytes out.new) (E.bytes err.old) (E.bytes err.new) }
    ensures source { result ≡ 2 → out.new ≡ out.old }
    ensures schedule { result ≡ 7 → out.new ≡ out.old }
    ensures memory { result ≡ 8 → out.new ≡ out.old }
    ensures failed { result ≡ 1 → (out.new ≡ out.old) ⊎ (O.failures out.old < O.failures out.new) }
    ensures kept { result ≢ 1 → O.failures out.new ≡ O.failures out.old }
{
    let status = match request_of(alloc, words) {
        Ok(Request::Compile { source, image }) => drive_compile(alloc, files, source, image, err),
        Ok(Request::List { image }) => drive_list(alloc, files, image, out, err),
        Ok(
            Request::Run {
                image,
                schedule,
                limit,
            },
        ) => drive_run(alloc, files, image, schedule, limit, out, err, steps),
        Ok(
            Request::Go {
                source,
                schedule,
                limit,
            },
        ) => drive_go(alloc, files, source, schedule, limit, out, err, steps),
        Ok(
            Request::Trace {
                view,
                source,
                schedule,
                limit,
                until,
            },
        ) => drive_trace(
            alloc, files, view, source, schedule, until, limit, out, err, steps,
        ),
        Ok(Request::Explain { number }) => drive_explain(number, out, err),
        Ok(Request::ExplainText { number, source }) => {
            drive_explain_text(alloc, files, number, source, out, err)
        }
        Ok(Request::Check { source }) => drive_check(alloc, files, source, err),
        Ok(Request::Format { source }) => drive_format(alloc, files, source, out, err),
        Ok(Request::Lower { source }) => drive_lower(alloc, files, source, out, err),
        Ok(
            Request::Simulate {
                source,
                schedule,
                limit,
                until,
            },
        ) => drive_simulate(
            alloc, files, source, schedule, until, limit, out, err, steps,
        ),
        Ok(
            Request::MeasureSet {
                source,
                choices,
                until,
                limit,
                is_fields,
            },
        ) => drive_measures(
            alloc, files, is_fields, source, choices, until, limit, out, err, steps,
        ),
        Ok(
            Request::Search {
                source,
                choices,
                until,
                limit,
                wanted,
                part,
                is_quiet,
            },
        ) => drive_search(
            alloc, files, source, choices, until, limit, wanted, part, is_quiet, watch, out, err,
            steps,
        ),
        Ok(Request::Manual) => show(MANUAL, out, err),
        Ok(Request::Version) => show(VERSION, out, err),
        Err(WordsError::Usage) => usage(err),
        Err(WordsError::Memory) => no_memory(err),
    };
    status as u8
}

// The image of a source that is the file itself would take the source's place: it isn't written.
fn drive_compile<F: FileStore, E: Sink>(
    alloc: Global,
    files: &mut F,
    source: &str,
    image: &str,
    err: &mut E,
) -> Status
    ensures leaves { (written : Option (List ℕ)) → LeavesCompile (F.contents files.old) (F.contents files.new) source.now image.now result written written }
    ensures same { source.now ≡ image.now → (result ≡ Status.Failed) × (files.new ≡ files.old) }
{
    if source == image {
        return cannot_write(err);
    }
    compile_to(alloc, files, source, image, err)
}

fn compile_to<F: FileStore, E: Sink>(
    alloc: Global,
    files: &mut F,
    source: &str,
    image: &str,
    err: &mut E,
) -> Status
    ensures { (written : Option (List ℕ)) → LeavesCompile (F.contents files.old) (F.contents files.new) source.now image.now result written written }
{
    let text = match files.read(alloc, source, SOURCE_BYTES) {
        Ok(text) => text,
        Err(error) => return unread(err, error, source),
    };
    compile_text(alloc, files, &text, image, err)
}

// Writes the image's file of a source that has been read.
fn compile_text<F: FileStore, E: Sink>(
    alloc: Global,
    files: &mut F,
    text: &[u8],
    image: &str,
    err: &mut E,
) -> Status
    ensures { (source : List ℕ) (written : Option (List ℕ)) → IsBeginningRead (F.contents files.old source) SOURCE_BYTES text.now
        → LeavesCompile (F.contents files.old) (F.contents files.new) source image.now result written written }
{
    let compiled = match compile(alloc, text) {
        Ok(compiled) => compiled,
        Err(fault) => return refuse_source(err, text, &fault),
    };
    let bytes = match encode(alloc, &compiled) {
        Ok(bytes) => bytes,
        Err(_) => return no_memory(err),
    };
    match files.write(image, &bytes) {
        Ok(()) => Status::Done,
        Err(WriteError::Memory) => no_memory(err),
        Err(WriteError::Unwritable) => cannot_write(err),
    }
}

fn drive_list<F: FileStore, O: Sink, E: Sink>(
    alloc: Global,
    files: &F,
    name: &str,
    out: &mut O,
    err: &mut E,
) -> Status
    ensures leaves { LeavesList (F.contents files.now) name.now result (O.bytes out.old) (O.bytes out.new) }
    ensures sink { KeepsSink result (out.new ≡ out.old) (O.failures out.old) (O.failures out.new) }
{
    let bytes = match files.read(alloc, name, IMAGE_BYTES) {
        Ok(bytes) => bytes,
        Err(error) => return unread(err, error, name),
    };
    list_bytes(alloc, &bytes, out, err)
}

// Lists the image that the bytes of a file are, which have been read.
fn list_bytes<O: Sink, E: Sink>(alloc: Global, bytes: &[u8], out: &mut O, err: &mut E) -> Status
    ensures leaves { (contents : Contents) (name : List ℕ) → IsBeginningRead (contents name) IMAGE_BYTES bytes.now
        → LeavesList contents name result (O.bytes out.old) (O.bytes out.new) }
    ensures sink { KeepsSink result (out.new ≡ out.old) (O.failures out.old) (O.failures out.new) }
{
    let image = match load(alloc, bytes) {
        Ok(image) => image,
        Err(fault) => return refuse_image(err, &fault),
    };
    image_ends(&image);
    let text = match list(alloc, &image) {
        Ok(text) => text,
        Err(_) => return no_memory(err),
    };
    match write_all(out, text.as_bytes()) {
        Ok(()) => Status::Done,
        Err(_) => cannot_write(err),
    }
}

fn drive_run<F: FileStore, O: Sink, E: Sink, L: Ledger>(
    alloc: Global,
    files: &F,
    name: &str,
    schedule: &str,
    limit: u64,
    out: &mut O,
    err: &mut E,
    steps: &mut Steps<L>,
) -> Status
    ensures leaves { LeavesRun (F.contents files.now) name.now schedule.now limit result (O.bytes out.old) (O.bytes out.new) }
    ensures sink { KeepsSink result (out.new ≡ out.old) (O.failures out.old) (O.failures out.new) }
{
    let bytes = match files.read(alloc, name, IMAGE_BYTES) {
        Ok(bytes) => bytes,
        Err(error) => return unread(err, error, name),
    };
    let lines = match files.read(alloc, schedule, SCHEDULE_BYTES) {
        Ok(lines) => lines,
        Err(error) => return unread(err, error, schedule),
    };
    run_bytes(alloc, &bytes, &lines, limit, out, err, steps)
}

// Runs the image that the bytes of a file are under a schedule, both of which have been read.
fn run_bytes<O: Sink, E: Sink, L: Ledger>(
    alloc: Global,
    bytes: &[u8],
    lines: &[u8],
    limit: u64,
    out: &mut O,
    err: &mut E,
    steps: &mut Steps<L>,
) -> Status
    ensures leaves { (contents : Contents) (name schedule : List ℕ) → IsBeginningRead (contents name) IMAGE_BYTES bytes.now
        → IsBeginningRead (contents schedule) SCHEDULE_BYTES lines.now
        → LeavesRun contents name schedule limit result (O.bytes out.old) (O.bytes out.new) }
    ensures sink { KeepsSink result (out.new ≡ out.old) (O.failures out.old) (O.failures out.new) }
{
    let image = match load(alloc, bytes) {
        Ok(image) => image,
        Err(fault) => return refuse_image(err, &fault),
    };
    image_ends(&image);
    let schedule = match Schedule::read(alloc, lines) {
        Ok(schedule) => schedule,
        Err(fault) => return refuse_schedule(err, &fault),
    };
    match run(alloc, &image, &schedule, limit, out, steps) {
        Ok(outcome) => status_of(&outcome),
        Err(RunFault::Memory) => no_memory(err),
        Err(RunFault::Write) => cannot_write(err),
    }
}

fn drive_go<F: FileStore, O: Sink, E: Sink, L: Ledger>(
    alloc: Global,
    files: &F,
    source: &str,
    schedule: &str,
    limit: u64,
    out: &mut O,
    err: &mut E,
    steps: &mut Steps<L>,
) -> Status
    ensures leaves { LeavesGo (F.contents files.now) source.now (F.contents files.now schedule.now) limit result (O.bytes out.old) (O.bytes out.new) }
    ensures sink { KeepsSink result (out.new ≡ out.old) (O.failures out.old) (O.failures out.new) }
{
    let text = match files.read(alloc, source, SOURCE_BYTES) {
        Ok(text) => text,
        Err(error) => return unread(err, error, source),
    };
    let lines = match files.read(alloc, schedule, SCHEDULE_BYTES) {
        Ok(lines) => lines,
        Err(error) => return unread(err, error, schedule),
    };
    match go(alloc, &text, &lines, limit, out, steps) {
        Ok(outcome) => status_of(&outcome),
        Err(GoFault::Source(fault)) => refuse_source(err, &text, &fault),
        Err(GoFault::Schedule(fault)) => refuse_schedule(err, &fault),
        Err(GoFault::Run(RunFault::Memory)) => no_memory(err),
        Err(GoFault::Run(RunFault::Write)) => cannot_write(err),
    }
}

// Reports every fault of the source to standard error.
fn drive_check<F: FileStore, E: Sink>(alloc: Global, files: &F, source: &str, err: &mut E) -> Status
    ensures leaves { LeavesCheck (with_input (F.standard_input files.now) (F.contents files.now)) source.now result (E.bytes err.old) (E.bytes err.new) }
{
    let text = match read_source(alloc, files, source) {
        Ok(text) => text,
        Err(error) => return unread(err, error, source),
    };
    let faults = match text_faults(alloc, &text) {
        Ok(faults) => faults,
        Err(_) => return no_memory(err),
    };
    if faults.is_empty() {
        return Status::Done;
    }
    let report = match fault_report(alloc, source, &text, &faults) {
        Ok(report) => report,
        Err(_) => return no_memory(err),
    };
    match write_all(err, &report) {
        Ok(()) => Status::SourceRefused,
        Err(_) => Status::Failed,
    }
}

// The content of the schedule, which is empty where no file is named.
fn read_schedule<F: FileStore>(
    alloc: Global,
    files: &F,
    schedule: Option<&str>,
) -> Result<Vec<u8>, ReadError>
    ensures { IfOk result (λ bytes. IsBeginningRead (input_of (F.contents files.now) (option_map (λ name. name.now) schedule.entry)) SCHEDULE_BYTES
        bytes.items) }
{
    match schedule {
        Some(name) => files.read(alloc, name, SCHEDULE_BYTES),
        None => Ok(Vec::new(alloc)),
    }
}

// Runs a source, and reports in words what goes wrong.
fn drive_simulate<F: FileStore, O: Sink, E: Sink, L: Ledger>(
    alloc: Global,
    files: &F,
    source: &str,
    schedule: Option<&str>,
    until: Option<i64>,
    limit: u64,
    out: &mut O,
    err: &mut E,
    steps: &mut Steps<L>,
) -> Status
    ensures leaves { LeavesSimulate (with_input (F.standard_input files.now) (F.contents files.now)) source.now
        (input_of (F.contents files.now) (option_map (λ name. name.now) schedule.entry)) until limit result (O.bytes out.old) (O.bytes out.new) }
    ensures sink { KeepsSink result (out.new ≡ out.old) (O.failures out.old) (O.failures out.new) }
{
    match until {
        None => simulate_whole(alloc, files, source, schedule, limit, out, err, steps),
        Some(until) => simulate_until(
            alloc, files, source, schedule, until, limit, out, err, steps,
        ),
    }
}

// As `drive_go`; a refusal is reported in words, with its line. Where standard output takes no more nothing is reported.
fn simulate_whole<F: FileStore, O: Sink, E: Sink, L: Ledger>(
    alloc: Global,
    files: &F,
    source: &str,
    schedule: Option<&str>,
    limit: u64,
    out: &mut O,
    err: &mut E,
    steps: &mut Steps<L>,
) -> Status
    ensures leaves { LeavesGo (with_input (F.standard_input files.now) (F.contents files.now)) source.now
        (input_of (F.contents files.now) (option_map (λ name. name.now) schedule.entry)) limit result (O.bytes out.old) (O.bytes out.new) }
    ensures sink { KeepsSink result (out.new ≡ out.old) (O.failures out.old) (O.failures out.new) }
{
    let named = schedule.unwrap_or("");
    let text = match read_source(alloc, files, source) {
        Ok(text) => text,
        Err(error) => return unread(err, error, source),
    };
    let lines = match read_schedule(alloc, files, schedule) {
        Ok(lines) => lines,
        Err(error) => return unread(err, error, named),
    };
    match go(alloc, &text, &lines, limit, out, steps) {
        Ok(outcome) => {
            report_outcome(alloc, err, source, &text, &lines, limit, &outcome, steps);
            status_of(&outcome)
        }
        Err(GoFault::Source(fault)) => report_source(alloc, err, source, &text, &fault),
        Err(GoFault::Schedule(fault)) => report_schedule(alloc, err, named, &lines, &fault),
        Err(GoFault::Run(RunFault::Memory)) => no_memory(err),
        Err(GoFault::Run(RunFault::Write)) => Status::Failed,
    }
}

// As `simulate_whole`, up to a time.
fn simulate_until<F: FileStore, O: Sink, E: Sink, L: Ledger>(
    alloc: Global,
    files: &F,
    source: &str,
    schedule: Option<&str>,
    until: i64,
    limit: u64,
    out: &mut O,
    err: &mut E,
    steps: &mut Steps<L>,
) -> Status
    ensures leaves { LeavesUntil (with_input (F.standard_input files.now) (F.contents files.now)) source.now
        (input_of (F.contents files.now) (option_map (λ name. name.now) schedule.entry)) until limit result (O.bytes out.old) (O.bytes out.new) }
    ensures sink { KeepsSink result (out.new ≡ out.old) (O.failures out.old) (O.failures out.new) }
{
    let named = schedule.unwrap_or("");
    let text = match read_source(alloc, files, source) {
        Ok(text) => text,
        Err(error) => return unread(err, error, source),
    };
    let lines = match read_schedule(alloc, files, schedule) {
        Ok(lines) => lines,
        Err(error) => return unread(err, error, named),
    };
    match go_until(alloc, &text, &lines, until, limit, out, steps) {
        Ok(ending) => {
            report_ending(alloc, err, source, &text, &lines, limit, &ending, steps);
            status_of(&ending.outcome)
        }
        Err(GoFault::Source(fault)) => report_source(alloc, err, source, &text, &fault),
        Err(GoFault::Schedule(fault)) => report_schedule(alloc, err, named, &lines, &fault),
        Err(GoFault::Run(RunFault::Memory)) => no_memory(err),
        Err(GoFault::Run(RunFault::Write)) => Status::Failed,
    }
}

// A number that no fault has asks for nothing.
fn drive_explain<O: Sink, E: Sink>(number: u64, out: &mut O, err: &mut E) -> Status
    ensures leaves { LeavesExplain number result (O.bytes out.old) (O.bytes out.new) }
    ensures sink { KeepsSink result (out.new ≡ out.old) (O.failures out.old) (O.failures out.new) }
{
    let Some(text) = explanation(number) else {
        return usage(err);
    };
    match write_all(out, text.as_bytes()) {
        Ok(()) => Status::Done,
        Err(_) => cannot_write(err),
    }
}

// Writes a text of the program's own.
fn show<O: Sink, E: Sink>(text: &str, out: &mut O, err: &mut E) -> Status
    ensures leaves { LeavesShown text.now result (O.bytes out.old) (O.bytes out.new) }
    ensures sink { KeepsSink result (out.new ≡ out.old) (O.failures out.old) (O.failures out.new) }
{
    match write_all(out, text.as_bytes()) {
        Ok(()) => Status::Done,
        Err(_) => cannot_write(err),
    }
}

// The place of the text's fault, where that has this number.
fn fault_place(alloc: Global, number: u64, text: &[u8]) -> Result<Option<u32>, AllocError>
    ensures { IfOk result (λ place. IsFaultPlace number text.now place) }
{
    match compile(alloc, text) {
        Ok(_) => Ok(None),
        Err(fault) => {
            if fault.number == MEMORY_REFUSED {
                Err(AllocError)
            } else if u64::from(fault.number) == number {
                Ok(Some(fault.place))
            } else {
                Ok(None)
            }
        }
    }
}

// The explanation with what is told of the text behind it, and behind that what is told of its code.
fn whole_told(alloc: Global, number: u64, text: &[u8]) -> Result<Option<Vec<u8>>, AllocError>
    ensures { IfOk result (λ whole. IsWholeTold number text.now (option_map (λ bytes. bytes.items) whole)) }
{
    let place = fault_place(alloc, number, text)?;
    match explained(alloc, number, place, text)? {
        Some(mut whole) => {
            let code = told_of_limit(alloc, number, place, text)?;
            whole.extend_from_slice(&code)?;
            Ok(Some(whole))
        }
        None => Ok(None),
    }
}

// With what is told of the source behind the explanation.
fn drive_explain_text<F: FileStore, O: Sink, E: Sink>(
    alloc: Global,
    files: &F,
    number: u64,
    source: &str,
    out: &mut O,
    err: &mut E,
) -> Status
    ensures leaves { LeavesExplainText (F.contents files.now) source.now number result (O.bytes out.old) (O.bytes out.new) }
    ensures sink { KeepsSink result (out.new ≡ out.old) (O.failures out.old) (O.failures out.new) }
{
    if explanation(number).is_none() {
        return usage(err);
    }
    let text = match files.read(alloc, source, SOURCE_BYTES) {
        Ok(text) => text,
        Err(error) => return unread(err, error, source),
    };
    let whole = match whole_told(alloc, number, &text) {
        Ok(Some(whole)) => whole,
        Ok(None) => return usage(err),
        Err(_) => return no_memory(err),
    };
    match write_all(out, &whole) {
        Ok(()) => Status::Done,
        Err(_) => cannot_write(err),
    }
}

pub(crate) fn status_of(outcome: &Outcome) -> Status
    ensures is { result ≡ driving.status_of outcome.now }
    ensures source { result ≡ Status.SourceRefused → ⊥ }
    ensures schedule { result ≡ Status.ScheduleRefused → ⊥ }
    ensures memory { result ≡ Status.NoMemory → ⊥ }
    ensures failed { result ≡ Status.Failed → ⊥ }
{
    match outcome {
        Outcome::Ended { .. } => Status::Done,
        Outcome::Unhandled { .. } => Status::Unhandled,
        Outcome::WaitsForever { .. } => Status::WaitsForever,
        Outcome::StepLimit { .. } => Status::StepLimit,
        Outcome::ImageFault { .. } => Status::ImageFault,
    }
}
