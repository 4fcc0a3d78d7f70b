//! What `measure` of a set of schedules does over files and streams.
ghost use Rattle.std.specs.Prelude.{◌≡◌, ◌<◌, ℕ, ℤ, Err, IfOk, List, OnOk};
ghost use Rattle.adarun.specs.Driving.{AreMeasuresBegun, AreMeasuresWritten, KeepsSink, LeavesMeasures, form_of, measured_status};
ghost use Rattle.adarun.specs.Reading.{Contents, IsBeginningRead};
ghost use Rattle.file_limits.specs.declared.TheConstants.{CHOICES_BYTES, SOURCE_BYTES};

use crate::compilation::{Named, compile_named};
use crate::files::FileStore;
use crate::messages::{cannot_write, no_memory, refuse_source, unread};
use crate::naming::names_alone;
use crate::program::Status;
use crate::search_command::refuse_choices;
use choices::Choices;
use file_limits::{CHOICES_BYTES, SOURCE_BYTES};
use machine::{RunFault, Sink, Steps, write_all};
use measuring::Form;
use set_measures::{measure_set, report};
use std::alloc::Global;
use std::sync::ledger::Ledger;

fn form_of(is_fields: bool) -> Form
    ensures { result ≡ form_of is_fields }
{
    if is_fields { Form::Fields } else { Form::Table }
}

// The exit status, by how many runs the limit on steps has cut.
fn status_of(cut: u64) -> Status
    ensures is { result ≡ measured_status cut }
    ensures source { result ≡ Status.SourceRefused → ⊥ }
    ensures schedule { result ≡ Status.ScheduleRefused → ⊥ }
    ensures memory { result ≡ Status.NoMemory → ⊥ }
    ensures failed { result ≡ Status.Failed → ⊥ }
{
    if cut == 0 {
        Status::Done
    } else {
        Status::StepLimit
    }
}

/// Measures the runs of a source on the schedules of a set, each as far as its clock doesn't pass `until` (microseconds since the start), and with at most
/// `limit` steps, and writes what is measured, as fields that are separated by tabs or as a table.
#[inline(never)]
pub(crate) fn drive_measures<F: FileStore, O: Sink, E: Sink, L: Ledger>(
    alloc: Global,
    files: &F,
    is_fields: bool,
    source: &str,
    choices: &str,
    until: i64,
    limit: u64,
    out: &mut O,
    err: &mut E,
    steps: &mut Steps<L>,
) -> Status
    ensures leaves { LeavesMeasures is_fields (F.contents files.now) source.now choices.now until limit result (O.bytes out.old) (O.bytes out.new) }
    ensures sink { KeepsSink result (out.new ≡ out.old) (O.failures out.old) (O.failures out.new) }
{
    let text = match files.read(alloc, source, SOURCE_BYTES) {
        Ok(text) => text,
        Err(error) => return unread(err, error, source),
    };
    let lines = match files.read(alloc, choices, CHOICES_BYTES) {
        Ok(lines) => lines,
        Err(error) => return unread(err, error, choices),
    };
    measure_texts(
        alloc, is_fields, &text, &lines, until, limit, out, err, steps,
    )
}

// Measures the runs of a source on the schedules of a set, both of which have been read.
fn measure_texts<O: Sink, E: Sink, L: Ledger>(
    alloc: Global,
    is_fields: bool,
    text: &[u8],
    lines: &[u8],
    until: i64,
    limit: u64,
    out: &mut O,
    err: &mut E,
    steps: &mut Steps<L>,
) -> Status
    ensures leaves { (contents : Contents) (source choices : List ℕ) → IsBeginningRead (contents source) SOURCE_BYTES text.now
        → IsBeginningRead (contents choices) CHOICES_BYTES lines.now
        → LeavesMeasures is_fields contents source choices until limit result (O.bytes out.old) (O.bytes out.new) }
    ensures sink { KeepsSink result (out.new ≡ out.old) (O.failures out.old) (O.failures out.new) }
{
    let named = match compile_named(alloc, text) {
        Ok(named) => named,
        Err(fault) => return refuse_source(err, text, &fault),
    };
    let choices = match Choices::read(alloc, lines, until) {
        Ok(choices) => choices,
        Err(fault) => return refuse_choices(err, &fault),
    };
    match write_measures(alloc, is_fields, &named, &choices, until, limit, out, steps) {
        Ok(cut) => status_of(cut),
        Err(RunFault::Memory) => no_memory(err),
        Err(RunFault::Write) => cannot_write(err),
    }
}

// Measures the runs of what a source was compiled to, writes that, and answers how many of them the limit on steps has cut.
fn write_measures<O: Sink, L: Ledger>(
    alloc: Global,
    is_fields: bool,
    named: &Named,
    choices: &Choices,
    until: i64,
    limit: u64,
    out: &mut O,
    steps: &mut Steps<L>,
) -> Result<u64, RunFault>
    ensures written { IfOk result (λ cut. AreMeasuresWritten is_fields named.now choices.now until limit cut (O.bytes out.old) (O.bytes out.new)) }
    ensures kept { OnOk result (O.failures out.new ≡ O.failures out.old) }
    ensures memory { result ≡ Err RunFault.Memory → out.new ≡ out.old }
    ensures failed { result ≡ Err RunFault.Write → O.failures out.old < O.failures out.new }
    ensures begins { result ≡ Err RunFault.Write → AreMeasuresBegun is_fields named.now choices.now until limit (O.bytes out.old) (O.bytes out.new) }
{
    let image = &named.image;
    let measures = match measure_set(alloc, image, choices, until, limit, steps) {
        Ok(measures) => measures,
        Err(_) => return Err(RunFault::Memory),
    };
    let Ok(objects) = names_alone(alloc, &named.objects) else {
        return Err(RunFault::Memory);
    };
    let Ok(text) = report(
        alloc,
        form_of(is_fields),
        image,
        &objects,
        choices,
        &measures,
    ) else {
        return Err(RunFault::Memory);
    };
    match write_all(out, &text) {
        Ok(()) => Ok(measures.cut()),
        Err(_) => Err(RunFault::Write),
    }
}
