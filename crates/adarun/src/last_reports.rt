//! What is said in words of the last world of a run: which tasks wait, and who was running.
ghost use Rattle.std.specs.Prelude.{◌≡◌, ◌≢◌, ◌<◌, ◌≤◌, ◌++◌, Some, IfOk, OnOk, option_map, slice_get};
ghost use Rattle.adarun.specs.LastReports.{HasLimitReport, HasWaitReport, queue_words, report_at, running_report, running_words, still_words, waiting_report, waiting_words};
ghost use Rattle.compiler.specs.stmt_code.specs.Placing.{place_at};
ghost use Rattle.endings.specs.LastSteps.{IsLastWorld};

use crate::compilation::Named;
use crate::inputs::{Inputs, inputs_of};
use crate::naming::ObjectNames;
use endings::{LastWorld, Running, Waiting, last_world};
use itoa::Buffer;
use machine::{Steps, actor_name};
use source_report::put_place_report;
use std::alloc::{AllocError, Global};
use std::sync::ledger::Ledger;

const STILL_WORDS: &[u8] =
    b"the clock has not moved in the last half of the steps: computing takes no virtual time, so a loop that waits for the clock needs a delay until\n";

// Adds the words at a place of the text, or where that isn't known with the file's name alone.
fn put_report(
    out: &mut Vec<u8>,
    file: &str,
    text: &[u8],
    place: Option<u32>,
    words: &[u8],
) -> Result<(), AllocError>
    ensures { OnOk result (out.new.items ≡ out.old.items ++ report_at file.now text.now place words.now) }
{
    let Some(place) = place else {
        out.extend_from_slice(file.as_bytes())?;
        out.extend_from_slice(b": ")?;
        out.extend_from_slice(words)?;
        return out.extend_from_slice(b"\n");
    };
    put_place_report(out, file.as_bytes(), text, place, words)
}

// Adds who was running, at the statement of whose code the next instruction is.
fn put_running(
    alloc: Global,
    out: &mut Vec<u8>,
    file: &str,
    text: &[u8],
    named: &Named,
    running: &Running,
) -> Result<(), AllocError>
    ensures { OnOk result (out.new.items ≡ out.old.items ++ report_at file.now text.now (place_at named.now.places running.now.address)
        (running_words named.now.image running.now)) }
{
    let mut words = Vec::new(alloc);
    words.extend_from_slice(actor_name(&named.image, running.actor).as_slice())?;
    words.extend_from_slice(b" was running here")?;
    let place = named.places.place_of(usize::from(running.address));
    put_report(out, file, text, place, &words)
}

// Adds the entry of an object: OBJECT.ENTRY.
fn put_queue(out: &mut Vec<u8>, names: &ObjectNames) -> Result<(), AllocError>
    ensures { OnOk result (out.new.items ≡ out.old.items ++ queue_words (Some names.now)) }
{
    out.extend_from_slice(names.object.as_bytes())?;
    match &names.entry {
        None => Ok(()),
        Some(entry) => {
            out.extend_from_slice(b".")?;
            out.extend_from_slice(entry.as_bytes())
        }
    }
}

// Adds the entry of the object with this number, or nothing where there is no such object.
fn put_queue_of(out: &mut Vec<u8>, objects: &[ObjectNames], number: u8) -> Result<(), AllocError>
    ensures { OnOk result (out.new.items ≡ out.old.items ++ queue_words (slice_get objects.now number)) }
{
    match objects.get(usize::from(number)) {
        None => Ok(()),
        Some(names) => put_queue(out, names),
    }
}

// The words of a task that waits in a queue.
fn words_of(alloc: Global, named: &Named, waiting: &Waiting) -> Result<Vec<u8>, AllocError>
    ensures { IfOk result (λ words. words.items ≡ waiting_words named.now.image named.now.objects.items waiting.now) }
{
    let mut words = Vec::new(alloc);
    words.extend_from_slice(actor_name(&named.image, waiting.task).as_slice())?;
    words.extend_from_slice(b" waits at ")?;
    put_queue_of(&mut words, &named.objects, waiting.object)?;
    words.extend_from_slice(b" since ")?;
    words.extend_from_slice(Buffer::new().format(waiting.call.time).as_bytes())?;
    Ok(words)
}

// Adds a task that waits in a queue, at the statement that calls the entry.
fn put_waiting(
    alloc: Global,
    out: &mut Vec<u8>,
    file: &str,
    text: &[u8],
    named: &Named,
    waiting: &Waiting,
) -> Result<(), AllocError>
    ensures { OnOk result (out.new.items ≡ out.old.items ++ report_at file.now text.now (place_at named.now.places waiting.now.call.address)
        (waiting_words named.now.image named.now.objects.items waiting.now)) }
{
    let words = words_of(alloc, named, waiting)?;
    let place = named.places.place_of(usize::from(waiting.call.address));
    put_report(out, file, text, place, &words)
}

// The last world of a run of a compiled program. The machine lies on this frame, which is no part of those below (docs/PROOF.md, "Only tested": 192 KiB of
// stack).
#[inline(never)]
fn world_of<L: Ledger>(
    alloc: Global,
    inputs: &Inputs,
    limit: u64,
    steps: &mut Steps<L>,
) -> Result<LastWorld, AllocError>
    ensures { IfOk result (λ last. IsLastWorld inputs.now.named.image inputs.now.schedule limit last) }
{
    last_world(alloc, &inputs.named.image, &inputs.schedule, limit, steps)
}

// What is said of the tasks that wait.
fn waiting_in(
    alloc: Global,
    file: &str,
    text: &[u8],
    named: &Named,
    last: &LastWorld,
) -> Result<Vec<u8>, AllocError>
    ensures { IfOk result (λ report. report.items ≡ waiting_report file.now text.now named.now.image named.now.objects.items named.now.places
        last.now.waiting.items) }
{
    let mut report = Vec::new(alloc);
    for waiting in last.waiting.iter() {
        put_waiting(alloc, &mut report, file, text, named, waiting)?;
    }
    Ok(report)
}

// What is said of who was running, and of the clock where the limit has a last half of steps.
fn running_in(
    alloc: Global,
    file: &str,
    text: &[u8],
    named: &Named,
    limit: u64,
    last: &LastWorld,
) -> Result<Vec<u8>, AllocError>
    ensures moved { last.now.middle ≢ last.now.time → IfOk result (λ report. report.items ≡ running_report file.now text.now named.now.image
        named.now.objects.items named.now.places last.now.running) }
    ensures few { limit < 2 → IfOk result (λ report. report.items ≡ running_report file.now text.now named.now.image
        named.now.objects.items named.now.places last.now.running) }
    ensures still { 2 ≤ limit → last.now.middle ≡ last.now.time → IfOk result (λ report. report.items ≡ running_report file.now text.now named.now.image
        named.now.objects.items named.now.places last.now.running ++ still_words) }
{
    let mut report = Vec::new(alloc);
    if let Some(running) = &last.running {
        put_running(alloc, &mut report, file, text, named, running)?;
    }
    if limit >= 2 && last.middle == last.time {
        report.extend_from_slice(STILL_WORDS)?;
    }
    Ok(report)
}

/// What is said of a run of the text that waits forever: the tasks that wait in queues of entries, since when, and by which calls.
///
/// # Errors
/// Where memory was refused, or the text isn't compiled or the schedule isn't one.
pub(crate) fn wait_report<L: Ledger>(
    alloc: Global,
    file: &str,
    text: &[u8],
    lines: &[u8],
    limit: u64,
    steps: &mut Steps<L>,
) -> Result<Vec<u8>, AllocError>
    ensures { IfOk result (λ report. HasWaitReport file.now text.now lines.now limit report.items) }
{
    let inputs = inputs_of(alloc, text, lines)?;
    let last = world_of(alloc, &inputs, limit, steps)?;
    waiting_in(alloc, file, text, &inputs.named, &last)
}

/// What is said of a run of the text that is cut by its limit on steps: who was running and where, and that computing takes no virtual time where the clock has
/// not moved in the last half of the steps.
///
/// # Errors
/// Where memory was refused, or the text isn't compiled or the schedule isn't one.
pub(crate) fn limit_report<L: Ledger>(
    alloc: Global,
    file: &str,
    text: &[u8],
    lines: &[u8],
    limit: u64,
    steps: &mut Steps<L>,
) -> Result<Vec<u8>, AllocError>
    ensures { IfOk result (λ report. HasLimitReport file.now text.now lines.now limit report.items) }
{
    let inputs = inputs_of(alloc, text, lines)?;
    let last = world_of(alloc, &inputs, limit, steps)?;
    running_in(alloc, file, text, &inputs.named, limit, &last)
}
