//! The words after `trace` with an option, which are read without clap.
ghost use Rattle.std.specs.Prelude.{◌≡◌, if◌then◌else◌, map, option_map};
ghost use Rattle.command_line.specs.Words.{AnswersWords, Nothing, dumped_in, seen, view_asked, within};
ghost use Rattle.command_line.specs.Words as words_of;

use crate::{Request, View, WordsError, are_plain, numeral_of};

// A dump over virtual time, where the first word asks for it, or else over steps; and the words after it.
fn dumped_in<'a>(words: &'a [&'a str]) -> (View, &'a [&'a str])
    ensures { (result.0, map (λ w. w.now) result.1.now) ≡ dumped_in (map (λ w. w.now) words.now) }
{
    match words {
        [mark, rest @ ..] if *mark == "--time" => (View::TimeDump, rest),
        _ => (View::Dump, words),
    }
}

// What an option directly after `trace` asks for, with these words after it.
fn viewed_in<'a>(option: &str, words: &'a [&'a str]) -> Option<(View, &'a [&'a str])>
    ensures { option_map (λ found. (found.0, map (λ w. w.now) found.1.now)) result ≡ words_of.viewed_in option.now (map (λ w. w.now) words.now) }
{
    match option {
        "--vcd" => Some(dumped_in(words)),
        "--chart" => Some((View::Chart, words)),
        "--svg" => Some((View::Picture, words)),
        _ => None,
    }
}

/// What the options directly after `trace` ask for, and the words after them.
pub(crate) fn behind_option<'a>(words: &'a [&'a str]) -> Option<(View, &'a [&'a str])>
    ensures { option_map (λ found. (found.0, map (λ w. w.now) found.1.now)) result ≡ words_of.behind_option (map (λ w. w.now) words.now) }
{
    match words {
        [name, option, rest @ ..] if *name == "trace" => viewed_in(option, rest),
        _ => None,
    }
}

/// The request for this view of the run of this source under this schedule.
///
/// # Errors
/// Usage where the limit is none.
pub(crate) fn view_of<'a>(
    view: View,
    source: &'a str,
    schedule: &'a str,
    limit: &str,
) -> Result<Request<'a>, WordsError>
    ensures { AnswersWords (within (seen view source.now schedule.now) (words_of.numeral_of limit.now)) result }
{
    Ok(Request::Trace {
        view,
        source,
        schedule,
        limit: numeral_of(limit).ok_or(WordsError::Usage)?,
        until: None,
    })
}

/// That request, where the words may be read as names.
///
/// # Errors
/// Usage where they may not be, and where the limit is none.
pub(crate) fn view_if<'a>(
    is_right: bool,
    view: View,
    source: &'a str,
    schedule: &'a str,
    limit: &str,
) -> Result<Request<'a>, WordsError>
    ensures { AnswersWords (if is_right then within (seen view source.now schedule.now) (words_of.numeral_of limit.now) else Nothing) result }
{
    if is_right {
        view_of(view, source, schedule, limit)
    } else {
        Err(WordsError::Usage)
    }
}

/// The request for a view of a run with these words after the command and its option.
///
/// # Errors
/// Usage for other words than a source, a schedule and a limit, before which `--` may stand.
pub(crate) fn view_request<'a>(view: View, words: &'a [&'a str]) -> Result<Request<'a>, WordsError>
    ensures { AnswersWords (view_asked view (map (λ w. w.now) words.now)) result }
{
    match words {
        [source, schedule, limit] => {
            let is_right = are_plain(source, schedule);
            view_if(is_right, view, source, schedule, limit)
        }
        [mark, source, schedule, limit] => { view_if(*mark == "--", view, source, schedule, limit) }
        _ => Err(WordsError::Usage),
    }
}
