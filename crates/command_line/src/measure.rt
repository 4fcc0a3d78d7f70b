//! The words after `measure`, which are read without clap: `--tsv` may come first; then come those of one run, or those of the runs on a set of schedules.
ghost use Rattle.std.specs.Prelude.{◌≡◌, ◌&&◌, if◌then◌else◌, map, option_map};
ghost use Rattle.command_line.specs.Words.{AnswersWords, Nothing, fields_in, measure_asked, measured, measures_in, measures_of_set, seen, within};
ghost use Rattle.command_line.specs.Words as words_of;

use crate::search::time_of;
use crate::views::{view_if, view_of};
use crate::{Request, View, WordsError, are_plain, numeral_of};

/// The words after `measure`.
pub(crate) fn behind_measure<'a>(words: &'a [&'a str]) -> Option<&'a [&'a str]>
    ensures { option_map (λ rest. map (λ w. w.now) rest.now) result ≡ words_of.behind_measure (map (λ w. w.now) words.now) }
{
    match words {
        [name, rest @ ..] if *name == "measure" => Some(rest),
        _ => None,
    }
}

// Whether the first word asks for fields that are separated by tabs, and the words after it.
fn fields_in<'a>(words: &'a [&'a str]) -> (bool, &'a [&'a str])
    ensures { (result.0, map (λ w. w.now) result.1.now) ≡ fields_in (map (λ w. w.now) words.now) }
{
    match words {
        [mark, rest @ ..] if *mark == "--tsv" => (true, rest),
        _ => (false, words),
    }
}

// The view of one run that has its measures, as fields or as a table.
fn measures_in(is_fields: bool) -> View
    ensures { result ≡ measures_in is_fields }
{
    if is_fields {
        View::MeasuredFields
    } else {
        View::Measures
    }
}

// The request for what is measured of the runs on the schedules of a set, where the time and the limit are such.
fn set_of<'a>(
    is_fields: bool,
    source: &'a str,
    choices: &'a str,
    until: &str,
    limit: &str,
) -> Result<Request<'a>, WordsError>
    ensures { AnswersWords (measures_of_set is_fields source.now choices.now until.now limit.now) result }
{
    Ok(Request::MeasureSet {
        source,
        choices,
        until: time_of(until).ok_or(WordsError::Usage)?,
        limit: numeral_of(limit).ok_or(WordsError::Usage)?,
        is_fields,
    })
}

// That request, where the words may be read as names.
fn set_if<'a>(
    is_right: bool,
    is_fields: bool,
    source: &'a str,
    choices: &'a str,
    until: &str,
    limit: &str,
) -> Result<Request<'a>, WordsError>
    ensures { AnswersWords (if is_right then measures_of_set is_fields source.now choices.now until.now limit.now else Nothing) result }
{
    if is_right {
        set_of(is_fields, source, choices, until, limit)
    } else {
        Err(WordsError::Usage)
    }
}

// The request for four words: those of one run after `--`, or else those of a set.
fn run_or_set<'a>(
    is_escaped: bool,
    is_fields: bool,
    first: &'a str,
    second: &'a str,
    third: &'a str,
    limit: &str,
) -> Result<Request<'a>, WordsError>
    ensures { AnswersWords (if is_escaped then within (seen (measures_in is_fields) second.now third.now) (words_of.numeral_of limit.now)
        else (if words_of.is_plain first.now && words_of.is_plain second.now then measures_of_set is_fields first.now second.now third.now limit.now
        else Nothing)) result }
{
    if is_escaped {
        view_of(measures_in(is_fields), second, third, limit)
    } else {
        let is_right = are_plain(first, second);
        set_if(is_right, is_fields, first, second, third, limit)
    }
}

// What the words ask for, in this form.
fn request_in<'a>(is_fields: bool, words: &'a [&'a str]) -> Result<Request<'a>, WordsError>
    ensures { AnswersWords (measured is_fields (map (λ w. w.now) words.now)) result }
{
    match words {
        [source, schedule, limit] => {
            let is_right = are_plain(source, schedule);
            view_if(is_right, measures_in(is_fields), source, schedule, limit)
        }
        [first, second, third, limit] => {
            run_or_set(*first == "--", is_fields, first, second, third, limit)
        }
        [mark, source, choices, until, limit] => {
            set_if(*mark == "--", is_fields, source, choices, until, limit)
        }
        _ => Err(WordsError::Usage),
    }
}

/// What the words after `measure` ask for.
///
/// # Errors
/// Usage for other words than those of the command, and for a time or a limit that is none.
pub(crate) fn measure_request<'a>(words: &'a [&'a str]) -> Result<Request<'a>, WordsError>
    ensures { AnswersWords (measure_asked (map (λ w. w.now) words.now)) result }
{
    let (is_fields, words) = fields_in(words);
    request_in(is_fields, words)
}
