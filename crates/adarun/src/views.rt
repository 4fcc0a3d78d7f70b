//! The views of a run that the program writes: its trace, its dumps, its chart, its picture and its measures.
ghost use Rattle.std.specs.Prelude.{◌≡◌, ◌<◌, ℕ, Err, IfOk, List, OnOk};
ghost use Rattle.adarun.specs.Driving.{IsViewBegun, IsViewed, KeepsSink, LeavesTrace, text_of};
ghost use Rattle.adarun.specs.Reading.{Contents, IsBeginningRead};
ghost use Rattle.file_limits.specs.declared.TheConstants.{SCHEDULE_BYTES, SOURCE_BYTES};
ghost use Rattle.image.specs.Code.{code};
ghost use Rattle.machine.specs.Stands.{EndsBy};
ghost use Rattle.machine.specs.Written.{AppendsBeginning};
ghost use Rattle.std.specs.Io.KnownBytes.{Appends};

use crate::compilation::{Named, compile_named};
use crate::files::FileStore;
use crate::messages::{cannot_write, no_memory, refuse_schedule, refuse_source, unread};
use crate::naming::names_alone;
use crate::origins::Statements;
use crate::program::{Status, status_of};
use charts::chart;
use clock::Schedule;
use command_line::View;
use file_limits::{SCHEDULE_BYTES, SOURCE_BYTES};
use image::Image;
use lexer::Text;
use machine::{Bound, Outcome, RunFault, Sink, Steps, bound_of};
use measuring::{Form, measure};
use pictures::picture;
use std::alloc::Global;
use std::sync::ledger::Ledger;
use tracing::{Origins, trace};
use waveforms::{Scopes, time_waves, waves};

pub(crate) fn drive_trace<F: FileStore, O: Sink, E: Sink, L: Ledger>(
    alloc: Global,
    files: &F,
    view: View,
    source: &str,
    schedule: &str,
    until: Option<i64>,
    limit: u64,
    out: &mut O,
    err: &mut E,
    steps: &mut Steps<L>,
) -> Status
    ensures leaves { LeavesTrace view (F.contents files.now) source.now schedule.now until limit result (O.bytes out.old) (O.bytes out.new) }
    ensures sink { KeepsSink result (out.new ≡ out.old) (O.failures out.old) (O.failures out.new) }
{
    let text = match files.read(alloc, source, SOURCE_BYTES) {
        Ok(text) => text,
        Err(error) => return unread(err, error, source),
    };
    let lines = match files.read(alloc, schedule, SCHEDULE_BYTES) {
        Ok(lines) => lines,
        Err(error) => return unread(err, error, schedule),
    };
    trace_texts(alloc, view, &text, &lines, until, limit, out, err, steps)
}

// Writes this view of the run of a source under a schedule, both of which have been read.
fn trace_texts<O: Sink, E: Sink, L: Ledger>(
    alloc: Global,
    view: View,
    text: &[u8],
    lines: &[u8],
    until: Option<i64>,
    limit: u64,
    out: &mut O,
    err: &mut E,
    steps: &mut Steps<L>,
) -> Status
    ensures leaves { (contents : Contents) (source schedule : List ℕ) → IsBeginningRead (contents source) SOURCE_BYTES text.now
        → IsBeginningRead (contents schedule) SCHEDULE_BYTES lines.now
        → LeavesTrace view contents source schedule until limit result (O.bytes out.old) (O.bytes out.new) }
    ensures sink { KeepsSink result (out.new ≡ out.old) (O.failures out.old) (O.failures out.new) }
{
    let named = match compile_named(alloc, text) {
        Ok(named) => named,
        Err(fault) => return refuse_source(err, text, &fault),
    };
    let schedule = match Schedule::read(alloc, lines) {
        Ok(schedule) => schedule,
        Err(fault) => return refuse_schedule(err, &fault),
    };
    match write_named(
        alloc, view, text, &named, &schedule, until, limit, out, steps,
    ) {
        Ok(outcome) => status_of(&outcome),
        Err(RunFault::Memory) => no_memory(err),
        Err(RunFault::Write) => cannot_write(err),
    }
}

// Writes this view of a run of what a source was compiled to.
fn write_named<O: Sink, L: Ledger>(
    alloc: Global,
    view: View,
    text: &[u8],
    named: &Named,
    schedule: &Schedule,
    until: Option<i64>,
    limit: u64,
    out: &mut O,
    steps: &mut Steps<L>,
) -> Result<Outcome, RunFault>
    ensures written { IfOk result (IsViewed view text.now named.now schedule.now until limit (O.bytes out.old) (O.bytes out.new)) }
    ensures kept { OnOk result (O.failures out.new ≡ O.failures out.old) }
    ensures memory { result ≡ Err RunFault.Memory → out.new ≡ out.old }
    ensures failed { result ≡ Err RunFault.Write → O.failures out.old < O.failures out.new }
    ensures begins { result ≡ Err RunFault.Write → IsViewBegun view text.now named.now schedule.now until limit (O.bytes out.old) (O.bytes out.new) }
{
    let image = &named.image;
    let bound = match bound_of(alloc, image, schedule, until, limit, steps) {
        Ok(bound) => bound,
        Err(_) => return Err(RunFault::Memory),
    };
    let origins = Statements {
        text,
        image,
        places: &named.places,
        subprograms: &named.subprograms,
    };
    let Ok(objects) = names_alone(alloc, &named.objects) else {
        return Err(RunFault::Memory);
    };
    let scopes = &named.scopes;
    write_view(
        alloc, view, image, &objects, scopes, &origins, schedule, bound, out, steps,
    )
}

// Writes this view of a run; its protected objects have these names, and its dumps these scopes.
fn write_view<P: Origins, O: Sink, L: Ledger>(
    alloc: Global,
    view: View,
    image: &Image,
    objects: &[Text],
    scopes: &Scopes,
    origins: &P,
    schedule: &Schedule,
    bound: Bound,
    out: &mut O,
    steps: &mut Steps<L>,
) -> Result<Outcome, RunFault>
    ensures text { OnOk result (Appends (O.bytes out.old) (O.bytes out.new)
        (text_of view image.now objects.now scopes.now (P.known origins.now) schedule.now bound)) }
    ensures ends { IfOk result (λ outcome. EndsBy outcome (code image.now schedule.now bound.steps)) }
    ensures kept { OnOk result (O.failures out.new ≡ O.failures out.old) }
    ensures memory { result ≡ Err RunFault.Memory → out.new ≡ out.old }
    ensures failed { result ≡ Err RunFault.Write → O.failures out.old < O.failures out.new }
    ensures beginning { AppendsBeginning (O.bytes out.old) (O.bytes out.new)
        (text_of view image.now objects.now scopes.now (P.known origins.now) schedule.now bound) }
{
    match view {
        View::Rows => trace(alloc, image, objects, origins, schedule, bound, out, steps),
        View::Dump => waves(alloc, image, scopes, schedule, bound, out, steps),
        View::TimeDump => time_waves(alloc, image, scopes, schedule, bound, out, steps),
        View::Chart => chart(alloc, image, objects, schedule, bound, out, steps),
        View::Picture => picture(alloc, image, objects, schedule, bound, out, steps),
        View::Measures => measure(
            alloc,
            Form::Table,
            image,
            objects,
            schedule,
            bound,
            out,
            steps,
        ),
        View::MeasuredFields => measure(
            alloc,
            Form::Fields,
            image,
            objects,
            schedule,
            bound,
            out,
            steps,
        ),
    }
}
