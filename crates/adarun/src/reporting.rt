//! What is said in words of a source or a schedule that is refused, of every fault of a source, and of how a run came to its end.
ghost use Rattle.std.specs.Prelude.{◌≡◌, ◌++◌, drop, IfOk, OnOk, option_map, Some};
ghost use Rattle.adarun.specs.CodeTold.{IsCodeTold, TellsCode};
ghost use Rattle.adarun.specs.Reporting.{AddsRefusal, IsFaultReport, IsOutcomeReport, IsRaiseReport, IsScheduleRefusal, IsSourceRefusal, count_line, raise_place, raise_report};
ghost use Rattle.endings.specs.Sources.{raised_from};
ghost use Rattle.image.specs.Texts.{text_from_one};

use crate::code_told::{told_of_code, told_of_limit};
use crate::inputs::{Inputs, inputs_of};
use crate::last_reports::{limit_report, wait_report};
use base::faults::LIMIT_PASSED;
use clock::ScheduleFault;
use diagnostics::{ParsedText, explanation, remarks_at};
use endings::raised_from;
use itoa::Buffer;
use lexer::Fault;
use machine::{Outcome, Steps, exception_name};
use source_report::{put_place_report, put_schedule_report, put_source_report};
use std::alloc::{AllocError, Global};
use std::sync::ledger::Ledger;

// Adds the lines of what is told of the code, which begins with an empty one.
fn put_told(out: &mut Vec<u8>, told: &[u8]) -> Result<(), AllocError>
    ensures { OnOk result (out.new.items ≡ out.old.items ++ drop 1 told.now) }
{
    match told {
        [] => Ok(()),
        [_, rest @ ..] => out.extend_from_slice(rest),
    }
}

// What is said of a source that is refused: the place, the rule and the line, what to write instead, what is told of the text beside, and what is told of its
// code; None where the number is that of no fault.
fn refusal_of(
    alloc: Global,
    file: &str,
    text: &ParsedText,
    fault: &Fault,
    code: &[u8],
) -> Result<Option<Vec<u8>>, AllocError>
    requires { IsCodeTold fault.now.number (Some fault.now.place) text.now code.now }
    ensures { IfOk result (λ report. IsSourceRefusal file.now text.now fault.now (option_map (λ bytes. bytes.items) report)) }
{
    let number = u64::from(fault.number);
    let Some(rule) = explanation(number) else {
        return Ok(None);
    };
    let mut report = Vec::new(alloc);
    let rule = rule.as_bytes();
    put_source_report(
        &mut report,
        file.as_bytes(),
        text.text(),
        rule,
        fault.number,
        fault.place,
    )?;
    let remarks = remarks_at(alloc, number, Some(fault.place), text)?;
    report.extend_from_slice(&remarks)?;
    put_told(&mut report, code)?;
    Ok(Some(report))
}

/// What is said of a source that is refused: the place, the rule and the line, what to write instead, and what is reported of the text and of its code beside;
/// None where the number is that of no fault.
///
/// # Errors
/// Where memory was refused.
pub(crate) fn source_refusal(
    alloc: Global,
    file: &str,
    text: &[u8],
    fault: &Fault,
) -> Result<Option<Vec<u8>>, AllocError>
    ensures { IfOk result (λ report. IsSourceRefusal file.now text.now fault.now (option_map (λ bytes. bytes.items) report)) }
{
    let code = told_of_limit(alloc, u64::from(fault.number), Some(fault.place), text)?;
    let text = ParsedText::read(alloc, text)?;
    refusal_of(alloc, file, &text, fault, &code)
}

// What is told of the code where the fault is a limit that is passed; nothing of another fault.
fn code_of<'a>(fault: &Fault, text: &ParsedText, code: &'a [u8]) -> &'a [u8]
    requires { TellsCode text.now code.now }
    ensures { IsCodeTold fault.now.number (Some fault.now.place) text.now result.now }
{
    if fault.number == LIMIT_PASSED {
        code
    } else {
        &[]
    }
}

// Adds what is said of a fault of a source, or nothing where the number is that of no fault.
fn put_refusal(
    alloc: Global,
    out: &mut Vec<u8>,
    file: &str,
    text: &ParsedText,
    fault: &Fault,
    code: &[u8],
) -> Result<(), AllocError>
    requires { TellsCode text.now code.now }
    ensures { OnOk result (AddsRefusal file.now text.now fault.now out.old.items out.new.items) }
{
    match refusal_of(alloc, file, text, fault, code_of(fault, text, code))? {
        Some(report) => out.extend_from_slice(&report),
        None => Ok(()),
    }
}

// Adds how many faults there are.
fn put_count(out: &mut Vec<u8>, count: usize) -> Result<(), AllocError>
    ensures { OnOk result (out.new.items ≡ out.old.items ++ count_line count) }
{
    out.extend_from_slice(Buffer::new().format(count).as_bytes())?;
    if count == 1 {
        out.extend_from_slice(b" fault\n")
    } else {
        out.extend_from_slice(b" faults\n")
    }
}

/// What is said of every fault of a source: of each what `source_refusal` gives, and how many there are.
///
/// # Errors
/// Where memory was refused.
pub(crate) fn fault_report(
    alloc: Global,
    file: &str,
    text: &[u8],
    faults: &[Fault],
) -> Result<Vec<u8>, AllocError>
    ensures { IfOk result (λ report. IsFaultReport file.now text.now faults.now report.items) }
{
    let code = told_of_code(alloc, text)?;
    let parsed = ParsedText::read(alloc, text)?;
    let mut report = Vec::new(alloc);
    for fault in faults {
        put_refusal(alloc, &mut report, file, &parsed, fault, &code)?;
    }
    put_count(&mut report, faults.len())?;
    Ok(report)
}

/// What is said of a schedule that is refused: the line and the rule; None where the number is that of no fault.
///
/// # Errors
/// Where memory was refused.
pub(crate) fn schedule_refusal(
    alloc: Global,
    file: &str,
    lines: &[u8],
    fault: &ScheduleFault,
) -> Result<Option<Vec<u8>>, AllocError>
    ensures { IfOk result (λ report. IsScheduleRefusal file.now lines.now fault.now (option_map (λ bytes. bytes.items) report)) }
{
    let Some(rule) = explanation(u64::from(fault.number)) else {
        return Ok(None);
    };
    let mut report = Vec::new(alloc);
    let rule = rule.as_bytes();
    put_schedule_report(
        &mut report,
        file.as_bytes(),
        lines,
        rule,
        fault.number,
        fault.line,
    )?;
    Ok(Some(report))
}

// The place of the statement or declaration from which the last exception came that the task had in a run, if it had one, and that is known. Two machines stand
// on its frame, which is no part of those below (docs/PROOF.md, "Only tested": 192 KiB of stack).
#[inline(never)]
fn raise_place<L: Ledger>(
    alloc: Global,
    inputs: &Inputs,
    limit: u64,
    task: u8,
    steps: &mut Steps<L>,
) -> Result<Option<u32>, AllocError>
    ensures { IfOk result (λ place. place ≡ raise_place inputs.now.named.places (raised_from inputs.now.named.image inputs.now.schedule limit task)) }
{
    match raised_from(
        alloc,
        &inputs.named.image,
        &inputs.schedule,
        limit,
        task,
        steps,
    )? {
        Some(address) => Ok(inputs.named.places.place_of(usize::from(address))),
        None => Ok(None),
    }
}

// What is said of a place from which an exception of this name came.
fn raised_here(
    alloc: Global,
    file: &str,
    text: &[u8],
    name: &[u8],
    place: Option<u32>,
) -> Result<Option<Vec<u8>>, AllocError>
    ensures { IfOk result (λ report. option_map (λ bytes. bytes.items) report ≡ raise_report file.now text.now name.now place) }
{
    let Some(place) = place else {
        return Ok(None);
    };
    let mut words = Vec::new(alloc);
    words.extend_from_slice(name)?;
    words.extend_from_slice(b" was raised here")?;
    let mut report = Vec::new(alloc);
    put_place_report(&mut report, file.as_bytes(), text, place, &words)?;
    Ok(Some(report))
}

// What is said of the exception that stopped a run of a compiled program.
fn raised_in<L: Ledger>(
    alloc: Global,
    file: &str,
    text: &[u8],
    inputs: &Inputs,
    run: &Unhandled,
    steps: &mut Steps<L>,
) -> Result<Option<Vec<u8>>, AllocError>
    ensures { IfOk result (λ report. option_map (λ bytes. bytes.items) report ≡ raise_report file.now text.now
        (text_from_one inputs.now.named.image.exceptions run.now.exception)
        (raise_place inputs.now.named.places (raised_from inputs.now.named.image inputs.now.schedule run.now.limit run.now.task))) }
{
    let place = raise_place(alloc, inputs, run.limit, run.task, steps)?;
    let name = exception_name(inputs.named.image.exceptions(), run.exception);
    raised_here(alloc, file, text, name, place)
}

// A run that an exception stopped which nothing handled: its limit on steps, the task that it left, and which it was.
#[derive(Clone, Copy, PartialEq, Eq, Debug)]
struct Unhandled {
    limit: u64,
    task: u8,
    exception: u16,
}

// What is said of the exception that stopped a run of the text: the statement from which it came; None where that isn't known.
fn raise_report<L: Ledger>(
    alloc: Global,
    file: &str,
    text: &[u8],
    lines: &[u8],
    run: &Unhandled,
    steps: &mut Steps<L>,
) -> Result<Option<Vec<u8>>, AllocError>
    ensures { IfOk result (λ report. IsRaiseReport file.now text.now lines.now run.now (option_map (λ bytes. bytes.items) report)) }
{
    let inputs = inputs_of(alloc, text, lines)?;
    raised_in(alloc, file, text, &inputs, run, steps)
}

/// What is said of how a run of the text came to its end: where the exception came from that stopped it, where that is known; of one that waits forever the
/// tasks that wait; of one that is cut by its limit on steps who was running, and whether the clock moved at last. None of one that ended.
///
/// # Errors
/// Where memory was refused, or the text isn't compiled or the schedule isn't one.
pub(crate) fn outcome_report<L: Ledger>(
    alloc: Global,
    file: &str,
    text: &[u8],
    lines: &[u8],
    limit: u64,
    outcome: &Outcome,
    steps: &mut Steps<L>,
) -> Result<Option<Vec<u8>>, AllocError>
    ensures { IfOk result (λ report. IsOutcomeReport file.now text.now lines.now limit outcome.now (option_map (λ bytes. bytes.items) report)) }
{
    match *outcome {
        Outcome::Unhandled {
            exception,
            task,
            ..
        } => {
            let run = Unhandled {
                limit,
                task,
                exception,
            };
            raise_report(alloc, file, text, lines, &run, steps)
        }
        Outcome::WaitsForever { .. } => Ok(Some(wait_report(
            alloc, file, text, lines, limit, steps,
        )?)),
        Outcome::StepLimit { .. } => Ok(Some(limit_report(
            alloc, file, text, lines, limit, steps,
        )?)),
        Outcome::Ended { .. } | Outcome::ImageFault { .. } => Ok(None),
    }
}
