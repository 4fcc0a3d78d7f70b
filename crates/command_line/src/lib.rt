//! The words of a command line: what they ask the program for (docs/FORMATS.md, "Exit statuses").
#![tactic(auto)]

ghost use Rattle.std.specs.Prelude.{◌≡◌, ◌&&◌, if◌then◌else◌, true, false, map, Some, None, IfOk, IfErr, IfSome, codes, option_map};
ghost use Rattle.std.specs.List.{list_all};
ghost use Rattle.clap.specs.Words.{App, app_of, first_value, found_of, kind_of, subcommand_rows_of, with_subcommand};
ghost use Rattle.clap.specs.declared.builder.command.Command.TheViews.{out-Command};
ghost use Rattle.command_line.specs.Words.{AnswersWords, CheckText, CompileText, FormatText, GoText, ListImage, LowerText, RunImage, asked, asked_among, asked_besides, asked_plainly, is_digit, is_told, is_told_among, is_told_besides, seen};
ghost use Rattle.command_line.specs.Finding.{asked_by, asked_in, bare_app, checking_app, command_app, explain_app, of_explain, of_one, of_simulate, of_three, of_two, program_app, running_app, simulate_app};
ghost use Rattle.command_line.specs.Words as words_of;

mod measure;
mod search;
mod until;
mod views;

use crate::measure::{behind_measure, measure_request};
use crate::search::{behind_search, search_request};
use crate::until::request_up_to;
use crate::views::{behind_option, view_request};
use choices::Part;
use clap::error::ErrorKind;
use clap::{Arg, ArgMatches, Command, Error};
use std::alloc::{AllocError, Global};

/// How many steps `simulate` takes at most where no limit is given.
pub const SIMULATED_STEPS: u64 = 1_000_000;

/// What a command line asks for. Names are those of files.
#[derive(Clone, Copy)]
pub enum Request<'a> {
    /// Compile a source to an image.
    Compile {
        source: &'a str,
        image: &'a str,
    },
    /// List an image.
    List {
        image: &'a str,
    },
    /// Run an image on a schedule, for at most this many steps.
    Run {
        image: &'a str,
        schedule: &'a str,
        limit: u64,
    },
    /// Compile a source and run it on a schedule, for at most this many steps.
    Go {
        source: &'a str,
        schedule: &'a str,
        limit: u64,
    },
    /// Compile a source, run it on a schedule, for at most this many steps, and write this view of the run; with a time in microseconds, the clock doesn't pass
    /// that.
    Trace {
        view: View,
        source: &'a str,
        schedule: &'a str,
        limit: u64,
        until: Option<i64>,
    },
    /// Explain the fault of this number, which may be that of none.
    Explain {
        number: u64,
    },
    /// Explain the fault of this number, which may be that of none, and what it means in a source that has it.
    ExplainText {
        number: u64,
        source: &'a str,
    },
    /// Report every rule that a source breaks.
    Check {
        source: &'a str,
    },
    /// Lay a source out.
    Format {
        source: &'a str,
    },
    /// Lower a text of whole Ada 2012.
    Lower {
        source: &'a str,
    },
    /// Compile a source and run it on a schedule, or on the empty one, for at most this many steps, and say in words what goes wrong, and where; with a time in
    /// microseconds, the clock doesn't pass that.
    Simulate {
        source: &'a str,
        schedule: Option<&'a str>,
        limit: u64,
        until: Option<i64>,
    },
    /// Compile a source, and measure its run on each schedule of a set up to a time (microseconds since the start), with at most so many steps in each; what is
    /// measured is written as fields, or as a table.
    MeasureSet {
        source: &'a str,
        choices: &'a str,
        until: i64,
        limit: u64,
        is_fields: bool,
    },
    /// Compile a source and search the schedules of a part of a set up to a time (microseconds since the start), with at most so many steps at one time; a
    /// quiet search doesn't report how far it is.
    Search {
        source: &'a str,
        choices: &'a str,
        until: i64,
        limit: u64,
        wanted: Sought<'a>,
        part: Part,
        is_quiet: bool,
    },
    /// Show the manual.
    Manual,
    /// Show the number of this version.
    Version,
}

/// What is written of a run.
#[derive(Clone, Copy, PartialEq, Eq, Debug)]
pub enum View {
    /// A row for each event (docs/FORMATS.md, "Traces").
    Rows,
    /// A value change dump over the steps of the run (docs/FORMATS.md, "Value change dumps").
    Dump,
    /// A value change dump over virtual time.
    TimeDump,
    /// A chart over virtual time (docs/FORMATS.md, "Charts").
    Chart,
    /// A picture over virtual time and over steps (docs/FORMATS.md, "Pictures").
    Picture,
    /// What is measured, as a table (docs/FORMATS.md, "Measures").
    Measures,
    /// What is measured, as fields that are separated by tabs.
    MeasuredFields,
}

/// What a search looks for.
#[derive(Clone, Copy)]
pub enum Sought<'a> {
    /// An exception that nothing handles, or waiting forever.
    UnhandledOrWaits,
    /// An exception that nothing handles.
    Unhandled,
    /// Waiting forever.
    WaitsForever,
    /// A line with this label.
    Line(&'a str),
}

/// Why a command line was not understood.
#[derive(Clone, Copy, PartialEq, Eq, Debug)]
pub enum WordsError {
    /// The words ask for nothing that there is.
    Usage,
    /// Memory was refused.
    Memory,
}

/// What the words, without the program's name, ask for.
///
/// # Errors
/// Usage for other words than a request's, those that ask for help among them, and for a limit or a number that isn't one or more decimal
/// digits of a value below 2**64, or a time below 2**63; Memory where memory was refused.
pub fn request_of<'a>(alloc: Global, words: &'a [&'a str]) -> Result<Request<'a>, WordsError>
    // Words after `search`, after `measure` and after `trace` with an option, and words of which none but `-` begins with `-`, ask for just what the table of
    // commands says, `--until TIME` at their end being left out.
    ensures { is_told (map (λ w. w.now) words.now) ≡ true → AnswersWords (asked (map (λ w. w.now) words.now)) result }
{
    match behind_search(words) {
        Some(rest) => search_request(rest),
        None => request_up_to(alloc, words),
    }
}

// What words without `search` in front and without `--until` ask for.
fn request_besides<'a>(alloc: Global, words: &'a [&'a str]) -> Result<Request<'a>, WordsError>
    ensures { is_told_besides (map (λ w. w.now) words.now) ≡ true → AnswersWords (asked_besides (map (λ w. w.now) words.now)) result }
{
    match behind_measure(words) {
        Some(rest) => measure_request(rest),
        None => request_among_options(alloc, words),
    }
}

// What words without `measure` in front ask for beside those.
fn request_among_options<'a>(alloc: Global, words: &'a [&'a str]) -> Result<Request<'a>, WordsError>
    ensures { is_told_among (map (λ w. w.now) words.now) ≡ true → AnswersWords
        (asked_among (map (λ w. w.now) words.now) (words_of.behind_option (map (λ w. w.now) words.now))) result }
{
    match behind_option(words) {
        Some((view, rest)) => view_request(view, rest),
        None => plain_request(alloc, words),
    }
}

// Whether a word can be no option: it is `-`, or doesn't begin with `-`.
fn is_plain(word: &str) -> bool
    ensures { result ≡ words_of.is_plain word.now }
{
    match word.as_bytes() {
        [] | [_] => true,
        [first, _, ..] => *first != b'-',
    }
}

fn are_plain(first: &str, second: &str) -> bool
    ensures { result ≡ (words_of.is_plain first.now && words_of.is_plain second.now) }
{
    is_plain(first) && is_plain(second)
}

// What words without that option ask for.
fn plain_request<'a>(alloc: Global, words: &'a [&'a str]) -> Result<Request<'a>, WordsError>
    ensures { list_all words_of.is_plain (map (λ w. w.now) words.now) ≡ true → AnswersWords (asked_plainly (map (λ w. w.now) words.now)) result }
{
    let Ok(command) = command(alloc) else {
        return Err(WordsError::Memory);
    };
    match command.try_get_matches_from(words) {
        Ok(matches) => request_among(&matches),
        Err(error) => Err(error_of(&error)),
    }
}

// What the command that was found asks for.
fn request_among<'a>(matches: &ArgMatches<'a>) -> Result<Request<'a>, WordsError>
    ensures { AnswersWords (asked_by (subcommand_rows_of matches.now)) result }
{
    match matches.subcommand() {
        Some((name, found)) => request_in(name, found),
        None => Err(WordsError::Usage),
    }
}

// What the command of this name asks for, where these words were found for its arguments.
fn request_in<'a>(name: &str, found: &ArgMatches<'a>) -> Result<Request<'a>, WordsError>
    ensures { AnswersWords (asked_in name.now (first_value (found_of found.now))) result }
{
    match name {
        "compile" => compile_request(found),
        "list" => list_request(found),
        "run" => run_request(found),
        "go" => go_request(found),
        "trace" => trace_request(found),
        "explain" => explain_request(found),
        "check" => check_request(found),
        "format" => format_request(found),
        "lower" => lower_request(found),
        "simulate" => simulate_request(
            found.get_str("SRC"),
            found.get_str("SCHED"),
            found.get_str("LIMIT"),
        ),
        "manual" => Ok(Request::Manual),
        "version" => Ok(Request::Version),
        _ => Err(WordsError::Usage),
    }
}

fn compile_request<'a>(found: &ArgMatches<'a>) -> Result<Request<'a>, WordsError>
    ensures { let value = first_value (found_of found.now) in AnswersWords (of_two CompileText (value (codes "SRC")) (value (codes "IMG"))) result }
{
    Ok(Request::Compile {
        source: word(found, "SRC")?,
        image: word(found, "IMG")?,
    })
}

fn list_request<'a>(found: &ArgMatches<'a>) -> Result<Request<'a>, WordsError>
    ensures { AnswersWords (of_one ListImage (first_value (found_of found.now) (codes "IMG"))) result }
{
    Ok(Request::List {
        image: word(found, "IMG")?,
    })
}

fn run_request<'a>(found: &ArgMatches<'a>) -> Result<Request<'a>, WordsError>
    ensures { let value = first_value (found_of found.now) in AnswersWords
        (of_three RunImage (value (codes "IMG")) (value (codes "SCHED")) (value (codes "LIMIT"))) result }
{
    Ok(Request::Run {
        image: word(found, "IMG")?,
        schedule: word(found, "SCHED")?,
        limit: numeral_of(word(found, "LIMIT")?).ok_or(WordsError::Usage)?,
    })
}

fn go_request<'a>(found: &ArgMatches<'a>) -> Result<Request<'a>, WordsError>
    ensures { let value = first_value (found_of found.now) in AnswersWords
        (of_three GoText (value (codes "SRC")) (value (codes "SCHED")) (value (codes "LIMIT"))) result }
{
    Ok(Request::Go {
        source: word(found, "SRC")?,
        schedule: word(found, "SCHED")?,
        limit: numeral_of(word(found, "LIMIT")?).ok_or(WordsError::Usage)?,
    })
}

fn trace_request<'a>(found: &ArgMatches<'a>) -> Result<Request<'a>, WordsError>
    ensures { let value = first_value (found_of found.now) in AnswersWords
        (of_three (seen View.Rows) (value (codes "SRC")) (value (codes "SCHED")) (value (codes "LIMIT"))) result }
{
    Ok(Request::Trace {
        view: View::Rows,
        source: word(found, "SRC")?,
        schedule: word(found, "SCHED")?,
        limit: numeral_of(word(found, "LIMIT")?).ok_or(WordsError::Usage)?,
        until: None,
    })
}

fn explain_request<'a>(found: &ArgMatches<'a>) -> Result<Request<'a>, WordsError>
    ensures { let value = first_value (found_of found.now) in AnswersWords (of_explain (value (codes "NUMBER")) (value (codes "SRC"))) result }
{
    let number = numeral_of(word(found, "NUMBER")?).ok_or(WordsError::Usage)?;
    match found.get_str("SRC") {
        Some(source) => Ok(Request::ExplainText { number, source }),
        None => Ok(Request::Explain { number }),
    }
}

fn check_request<'a>(found: &ArgMatches<'a>) -> Result<Request<'a>, WordsError>
    ensures { AnswersWords (of_one CheckText (first_value (found_of found.now) (codes "SRC"))) result }
{
    Ok(Request::Check {
        source: word(found, "SRC")?,
    })
}

fn format_request<'a>(found: &ArgMatches<'a>) -> Result<Request<'a>, WordsError>
    ensures { AnswersWords (of_one FormatText (first_value (found_of found.now) (codes "SRC"))) result }
{
    Ok(Request::Format {
        source: word(found, "SRC")?,
    })
}

fn lower_request<'a>(found: &ArgMatches<'a>) -> Result<Request<'a>, WordsError>
    ensures { AnswersWords (of_one LowerText (first_value (found_of found.now) (codes "FILE"))) result }
{
    Ok(Request::Lower {
        source: word(found, "FILE")?,
    })
}

// What these words ask `simulate` for.
fn simulate_request<'a>(
    source: Option<&'a str>,
    schedule: Option<&'a str>,
    limit: Option<&'a str>,
) -> Result<Request<'a>, WordsError>
    ensures { AnswersWords (of_simulate (option_map (λ w. w.now) source.entry) (option_map (λ w. w.now) schedule.entry)
        (option_map (λ w. w.now) limit.entry)) result }
{
    let Some(source) = source else {
        return Err(WordsError::Usage);
    };
    let limit = match limit {
        Some(digits) => numeral_of(digits).ok_or(WordsError::Usage)?,
        None => SIMULATED_STEPS,
    };
    Ok(Request::Simulate {
        source,
        schedule,
        limit,
        until: None,
    })
}

// The word that stands for this argument.
fn word<'a>(found: &ArgMatches<'a>, name: &str) -> Result<&'a str, WordsError>
    ensures given { IfOk result (λ word. first_value (found_of found.now) name.now ≡ Some word.now) }
    ensures none { IfErr result (λ error. error ≡ WordsError.Usage × first_value (found_of found.now) name.now ≡ None) }
{
    found.get_str(name).ok_or(WordsError::Usage)
}

// A command with these words behind it.
fn command_with<'a>(
    alloc: Global,
    name: &'a str,
    words: &[&'a str],
) -> Result<Command<'a>, AllocError>
    ensures app { IfOk result (λ command. app_of command ≡ command_app name.now (map (λ w. w.now) words.now)) }
    ensures local { IfOk result (λ command. (out-Command command).has_globals ≡ false) }
{
    let mut command = Command::new(alloc, name);
    for word in words {
        command = command.arg(Arg::new(alloc, *word).required(true))?;
    }
    Ok(command)
}

// The command that explains: a source may stand behind the number.
fn explain_command<'a>(alloc: Global) -> Result<Command<'a>, AllocError>
    ensures app { IfOk result (λ command. app_of command ≡ explain_app) }
    ensures local { IfOk result (λ command. (out-Command command).has_globals ≡ false) }
{
    command_with(alloc, "explain", &["NUMBER"])?.arg(Arg::new(alloc, "SRC"))
}

// The command that simulates: a schedule may stand behind the source, and a limit behind that.
fn simulate_command<'a>(alloc: Global) -> Result<Command<'a>, AllocError>
    ensures app { IfOk result (λ command. app_of command ≡ simulate_app) }
    ensures local { IfOk result (λ command. (out-Command command).has_globals ≡ false) }
{
    command_with(alloc, "simulate", &["SRC"])?
        .arg(Arg::new(alloc, "SCHED"))?
        .arg(Arg::new(alloc, "LIMIT"))
}

// The program before it has any command.
fn program<'a>(alloc: Global) -> Command<'a>
    ensures { app_of result ≡ bare_app }
{
    Command::new(alloc, "adarun")
        .no_binary_name(true)
        .subcommand_required(true)
}

// The program with one more command, which has these words.
fn with_command<'a>(
    alloc: Global,
    program: Command<'a>,
    name: &'a str,
    words: &[&'a str],
) -> Result<Command<'a>, AllocError>
    ensures { IfOk result (λ more. app_of more ≡ with_subcommand (app_of program.entry) (command_app name.now (map (λ w. w.now) words.now)).top) }
{
    program.subcommand(command_with(alloc, name, words)?)
}

// The program with the commands that compile, list, run and trace.
fn running_commands<'a>(alloc: Global) -> Result<Command<'a>, AllocError>
    ensures { IfOk result (λ command. app_of command ≡ running_app) }
{
    let command = with_command(alloc, program(alloc), "compile", &["SRC", "IMG"])?;
    let command = with_command(alloc, command, "list", &["IMG"])?;
    let command = with_command(alloc, command, "run", &["IMG", "SCHED", "LIMIT"])?;
    let command = with_command(alloc, command, "go", &["SRC", "SCHED", "LIMIT"])?;
    with_command(alloc, command, "trace", &["SRC", "SCHED", "LIMIT"])
}

// The program with those, and with the commands that explain, check, format and lower.
fn checking_commands<'a>(alloc: Global) -> Result<Command<'a>, AllocError>
    ensures { IfOk result (λ command. app_of command ≡ checking_app) }
{
    let command = running_commands(alloc)?.subcommand(explain_command(alloc)?)?;
    let command = with_command(alloc, command, "check", &["SRC"])?;
    let command = with_command(alloc, command, "format", &["SRC"])?;
    with_command(alloc, command, "lower", &["FILE"])
}

// The program with all its commands.
fn command<'a>(alloc: Global) -> Result<Command<'a>, AllocError>
    ensures { IfOk result (λ command. app_of command ≡ program_app) }
{
    let command = checking_commands(alloc)?.subcommand(simulate_command(alloc)?)?;
    let command = with_command(alloc, command, "manual", &[])?;
    with_command(alloc, command, "version", &[])
}

fn error_of(error: &Error) -> WordsError
    ensures memory { kind_of error.now ≡ ErrorKind.OutOfMemory → result ≡ WordsError.Memory }
{
    match error.kind() {
        ErrorKind::OutOfMemory => WordsError::Memory,
        _ => WordsError::Usage,
    }
}

fn are_digits(text: &str) -> bool
    ensures { result ≡ list_all is_digit text.now }
{
    text.as_bytes().iter().all(|c| c.is_ascii_digit())
}

// One or more decimal digits, of a value below 2**64.
fn numeral_of(digits: &str) -> Option<u64>
    ensures { result ≡ words_of.numeral_of digits.now }
{
    if are_digits(digits) {
        digits.parse().ok()
    } else {
        None
    }
}
