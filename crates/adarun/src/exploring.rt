//! Searching the schedules of a part of a set for one under which a source stops, waits forever or writes a line.
ghost use Rattle.std.specs.Prelude.{◌≡◌, ◌<◌, ℕ, Err, IfErr, IfOk, List, OnOk};
ghost use Rattle.std.specs.Io.KnownBytes.{Appends};
ghost use Rattle.compiler.specs.ada_tree.specs.ProgramTree.{ProgramTree};
ghost use Rattle.choices.specs.Sets.{IsChoicesText};
ghost use Rattle.machine.specs.Written.{AppendsBeginning};
ghost use Rattle.searching.specs.Reports.{report_text};
ghost use Rattle.adarun.specs.Accepted.{Compiles, IsAccepted, RefusesAccepted};
ghost use Rattle.adarun.specs.FirstFound.{WritesFirst};
ghost use Rattle.adarun.specs.Searching.{BeginsReport, RefusesSearching, WritesReport};
ghost use Rattle.adarun.specs.Searching as searches;

use crate::compilation::compile;
use choices::{Choices, ChoicesFault, Part};
use image::Image;
use image_laws::outcome_stays;
use lexer::Fault;
use machine::{RunFault, Sink, Steps, write_all};
use searching::{Finding, Progress, Searched, Wanted, report};
use std::alloc::Global;
use std::sync::ledger::Ledger;
use thiserror::Error;

/// What a search has come to.
#[derive(Clone, Copy, PartialEq, Eq, Debug)]
pub enum SearchOutcome {
    /// Under a schedule an exception leaves the body of a task.
    Unhandled,
    /// Under a schedule all wait forever.
    WaitsForever,
    /// Under a schedule the line is written.
    Line,
    /// Under a schedule more steps than the limit are taken at one time.
    TooLong,
    /// No schedule leads to what is wanted.
    Nothing,
}

/// Why a source text was not searched to an answer.
#[derive(Clone, Copy, PartialEq, Eq, Debug, Error)]
pub enum SearchFault {
    /// The source text was refused.
    #[error(transparent)]
    Source(Fault),
    /// The text of the set of schedules was refused.
    #[error(transparent)]
    Choices(ChoicesFault),
    /// The search stopped early.
    #[error(transparent)]
    Run(RunFault),
}

// What the image's search has come to.
fn outcome_of(searched: &Searched) -> SearchOutcome
    ensures { result ≡ searches.outcome_by searched.now }
{
    match searched {
        Searched::Found(_, Finding::Unhandled { .. }) => SearchOutcome::Unhandled,
        Searched::Found(_, Finding::WaitsForever { .. }) => SearchOutcome::WaitsForever,
        Searched::Found(_, Finding::Line(_)) => SearchOutcome::Line,
        Searched::Nothing(_) => SearchOutcome::Nothing,
        Searched::TooLong(_, _) => SearchOutcome::TooLong,
    }
}

// Writes what the image's search has come to.
fn write_report<S: Sink>(
    alloc: Global,
    image: &Image,
    choices: &Choices,
    part: Part,
    limit: u64,
    searched: &Searched,
    sink: &mut S,
) -> Result<SearchOutcome, RunFault>
    ensures outcome { IfOk result (λ outcome. outcome ≡ searches.outcome_by searched.now) }
    ensures text { OnOk result (Appends (S.bytes sink.old) (S.bytes sink.new) (report_text image.now choices.now part limit searched.now)) }
    ensures kept { OnOk result (S.failures sink.new ≡ S.failures sink.old) }
    ensures memory { result ≡ Err RunFault.Memory → sink.new ≡ sink.old }
    ensures failed { result ≡ Err RunFault.Write → S.failures sink.old < S.failures sink.new }
    ensures beginning { result ≡ Err RunFault.Write → AppendsBeginning (S.bytes sink.old) (S.bytes sink.new)
        (report_text image.now choices.now part limit searched.now) }
{
    let Ok(text) = report(alloc, image, choices, part, limit, searched) else {
        return Err(RunFault::Memory);
    };
    match write_all(sink, &text) {
        Ok(()) => Ok(outcome_of(searched)),
        Err(_) => Err(RunFault::Write),
    }
}

// Searches the image of a source text on a part of the set that another text has, and writes what that has come to.
fn search_set<S: Sink, P: Progress, L: Ledger>(
    alloc: Global,
    image: &Image,
    choices: &Choices,
    part: Part,
    until: i64,
    limit: u64,
    wanted: Wanted<'_>,
    progress: &mut P,
    sink: &mut S,
    steps: &mut Steps<L>,
) -> Result<SearchOutcome, RunFault>
    ensures answers { IfOk result (λ outcome. (source input : List ℕ) → Compiles source image.now → IsChoicesText until input choices.now → WritesReport source
        input part until limit wanted.entry outcome (S.bytes sink.old) (S.bytes sink.new)) }
    ensures first { IfOk result (λ outcome. (source input : List ℕ) → Compiles source image.now → IsChoicesText until input choices.now → WritesFirst source
        input part until limit wanted.entry outcome (S.bytes sink.old) (S.bytes sink.new)) }
    ensures kept { OnOk result (S.failures sink.new ≡ S.failures sink.old) }
    ensures memory { result ≡ Err RunFault.Memory → sink.new ≡ sink.old }
    ensures failed { result ≡ Err RunFault.Write → S.failures sink.old < S.failures sink.new }
    ensures beginning { result ≡ Err RunFault.Write → (source input : List ℕ) → Compiles source image.now → IsChoicesText until input choices.now →
        BeginsReport source input part until limit wanted.entry (S.bytes sink.old) (S.bytes sink.new) }
{
    outcome_stays();
    let _slots = choices.slots();
    let Ok(searched) = searching::search(
        alloc, image, choices, part, until, limit, wanted, progress, steps,
    ) else {
        return Err(RunFault::Memory);
    };
    write_report(alloc, image, choices, part, limit, &searched, sink)
}

/// Compiles a source text, reads a set of schedules, and runs the image on the schedules of a part of it, in the order of alternatives, up to `until`
/// (microseconds since the start) and with `limit` steps at one time at most, until a run comes to what is wanted. It writes the schedule under which this is
/// so and what the run comes to, or that there is none (docs/FORMATS.md, "Search"). Meanwhile it reports how far it is. The steps of all runs are counted.
///
/// # Errors
/// As `compile` and `Choices::read`, in this order; then where memory was refused or a write failed. Nothing was written then, but a beginning of the answer
/// where a write failed.
pub fn search<S: Sink, P: Progress, L: Ledger>(
    alloc: Global,
    source: &[u8],
    choices: &[u8],
    part: Part,
    until: i64,
    limit: u64,
    wanted: Wanted<'_>,
    progress: &mut P,
    sink: &mut S,
    steps: &mut Steps<L>,
) -> Result<SearchOutcome, SearchFault>
    // What is found the source comes to under the schedule that is written; where there is nothing it comes to it under none of the part.
    ensures answers { IfOk result (λ outcome. WritesReport source.now choices.now part until limit wanted.entry outcome (S.bytes sink.old) (S.bytes sink.new)) }
    // What is found is found under the first of its schedules, in the order of the alternatives.
    ensures first { IfOk result (λ outcome. WritesFirst source.now choices.now part until limit wanted.entry outcome (S.bytes sink.old) (S.bytes sink.new)) }
    ensures kept { OnOk result (S.failures sink.new ≡ S.failures sink.old) }
    // A refusal is that of the call it comes from, where the calls before it gave their answers.
    ensures refused { IfErr result (RefusesSearching source.now choices.now until) }
    ensures accepted { (tree : ProgramTree) (fault : Fault) → IsAccepted tree source.now → result ≡ Err (SearchFault.Source fault) → RefusesAccepted
        source.now tree fault }
    ensures source { (fault : Fault) → result ≡ Err (SearchFault.Source fault) → sink.new ≡ sink.old }
    ensures choices { (fault : ChoicesFault) → result ≡ Err (SearchFault.Choices fault) → sink.new ≡ sink.old }
    ensures memory { result ≡ Err (SearchFault.Run RunFault.Memory) → sink.new ≡ sink.old }
    ensures failed { result ≡ Err (SearchFault.Run RunFault.Write) → S.failures sink.old < S.failures sink.new }
    ensures beginning { result ≡ Err (SearchFault.Run RunFault.Write) → BeginsReport source.now choices.now part until limit wanted.entry (S.bytes sink.old)
        (S.bytes sink.new) }
{
    let image = match compile(alloc, source) {
        Ok(image) => image,
        Err(fault) => return Err(SearchFault::Source(fault)),
    };
    let choices = match Choices::read(alloc, choices, until) {
        Ok(choices) => choices,
        Err(fault) => return Err(SearchFault::Choices(fault)),
    };
    match search_set(
        alloc, &image, &choices, part, until, limit, wanted, progress, sink, steps,
    ) {
        Ok(outcome) => Ok(outcome),
        Err(fault) => Err(SearchFault::Run(fault)),
    }
}
