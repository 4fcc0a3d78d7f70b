//! `--until TIME` at the end of the words of `simulate`, `trace` and `measure`, which is read without clap.
ghost use Rattle.std.specs.Prelude.{◌≡◌, true, map, option_map};
ghost use Rattle.std.specs.List.{list_any};
ghost use Rattle.command_line.specs.Words.{AnswersWords, asked_up_to, before_until, command_of, is_escape, is_told_up_to, last_two, takes_time, takes_until, time_word, timed, until_of, until_word};

use crate::search::time_of;
use crate::{Request, WordsError, request_besides};
use std::alloc::Global;

// Whether a word lets the names after it begin with `-`.
fn is_escape(word: &str) -> bool
    ensures { result ≡ is_escape word.now }
{
    word == "--"
}

// Whether a name can be that of a command that takes a time.
fn is_timed_name(name: &str) -> bool
    ensures { result ≡ takes_time name.now }
{
    name == "simulate" || name == "trace" || name == "measure"
}

fn has_escape(words: &[&str]) -> bool
    ensures { result ≡ list_any is_escape (map (λ w. w.now) words.now) }
{
    let mut rest = words;
    while let [first, behind @ ..] = rest {
        if is_escape(first) {
            return true;
        }
        rest = behind;
    }
    false
}

// Whether the words are those of a command that takes a time, and none of them makes names of all that follow.
fn takes_until(words: &[&str]) -> bool
    ensures { result ≡ takes_until (map (λ w. w.now) words.now) }
{
    match words {
        [name, rest @ ..] => is_timed_name(name) && !has_escape(rest),
        [] => false,
    }
}

// The word after `--until`.
fn time_word<'a>(words: &'a [&'a str]) -> Option<&'a str>
    ensures { option_map (λ word. word.now) result ≡ time_word (map (λ w. w.now) words.now) }
{
    match words {
        [mark, time] if *mark == "--until" => Some(time),
        _ => None,
    }
}

// All words but the last two.
fn before_until<'a>(words: &'a [&'a str]) -> &'a [&'a str]
    ensures { map (λ w. w.now) result.now ≡ before_until (map (λ w. w.now) words.now) }
{
    &words[..words.len().saturating_sub(2)]
}

// The last two words.
fn last_two<'a>(words: &'a [&'a str]) -> &'a [&'a str]
    ensures { map (λ w. w.now) result.now ≡ last_two (map (λ w. w.now) words.now) }
{
    let (_front, end) = words.split_at(words.len().saturating_sub(2));
    end
}

// The word after `--until`, where these are the last two of a command that takes it.
fn until_word<'a>(words: &'a [&'a str]) -> Option<&'a str>
    ensures { option_map (λ word. word.now) result ≡ until_word (map (λ w. w.now) words.now) }
{
    if takes_until(words) {
        time_word(last_two(words))
    } else {
        None
    }
}

// What a request is with a time that the clock doesn't pass.
fn with_time<'a>(request: Request<'a>, until: i64) -> Result<Request<'a>, WordsError>
    ensures { AnswersWords (until_of until (command_of request.entry)) result }
{
    match request {
        Request::Simulate {
            source,
            schedule,
            limit,
            until: _,
        } => Ok(Request::Simulate {
            source,
            schedule,
            limit,
            until: Some(until),
        }),
        Request::Trace {
            view,
            source,
            schedule,
            limit,
            until: _,
        } => Ok(Request::Trace {
            view,
            source,
            schedule,
            limit,
            until: Some(until),
        }),
        _ => Err(WordsError::Usage),
    }
}

fn timed_request<'a>(request: Request<'a>, until: Option<i64>) -> Result<Request<'a>, WordsError>
    ensures { AnswersWords (timed until (command_of request.entry)) result }
{
    match until {
        Some(until) => with_time(request, until),
        None => Err(WordsError::Usage),
    }
}

/// What words ask for that don't begin with `search`.
///
/// # Errors
/// Usage for other words than those of a command, and for a time that is none; Memory where memory was refused.
pub(crate) fn request_up_to<'a>(
    alloc: Global,
    words: &'a [&'a str],
) -> Result<Request<'a>, WordsError>
    ensures { is_told_up_to (map (λ w. w.now) words.now) (until_word (map (λ w. w.now) words.now)) ≡ true → AnswersWords
        (asked_up_to (map (λ w. w.now) words.now) (until_word (map (λ w. w.now) words.now))) result }
{
    match until_word(words) {
        None => request_besides(alloc, words),
        Some(time) => match request_besides(alloc, before_until(words)) {
            Ok(request) => timed_request(request, time_of(time)),
            Err(error) => Err(error),
        },
    }
}
