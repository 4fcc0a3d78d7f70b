//! The words after `search`, which are read without clap: `--quiet` may come first; what is looked for is one word or two, or none, and `--part` may follow it.
ghost use Rattle.std.specs.Prelude.{◌≡◌, map, option_map};
ghost use Rattle.command_line.specs.Words.{AnswersWords, quiet_in, search_asked, search_in, wanted_in, wanted_of};
ghost use Rattle.command_line.specs.Words as words_of;

use crate::{Request, Sought, WordsError, is_plain, numeral_of};
use choices::Part;

/// The words after `search`.
pub(crate) fn behind_search<'a>(words: &'a [&'a str]) -> Option<&'a [&'a str]>
    ensures { option_map (λ rest. map (λ w. w.now) rest.now) result ≡ words_of.behind_search (map (λ w. w.now) words.now) }
{
    match words {
        [name, rest @ ..] if *name == "search" => Some(rest),
        _ => None,
    }
}

// `--part`, and which part it is.
fn are_part(words: &[&str]) -> bool
    ensures { result ≡ words_of.are_part (map (λ w. w.now) words.now) }
{
    match words {
        [mark, _] => *mark == "--part",
        _ => false,
    }
}

// Whether none of them can be an option, but for a part at the end.
fn are_plain(words: &[&str]) -> bool
    ensures { result ≡ words_of.are_plain (map (λ w. w.now) words.now) }
{
    let mut rest = words;
    while let [first, behind @ ..] = rest {
        if are_part(rest) {
            return true;
        }
        if !is_plain(first) {
            return false;
        }
        rest = behind;
    }
    true
}

// The words themselves: none of them can be an option, or a word `--` in front of them lets names begin with `-`.
fn unmarked<'a>(words: &'a [&'a str]) -> Option<&'a [&'a str]>
    ensures { option_map (λ rest. map (λ w. w.now) rest.now) result ≡ words_of.unmarked (map (λ w. w.now) words.now) }
{
    match words {
        [] => Some(words),
        [mark, rest @ ..] if *mark == "--" => Some(rest),
        _ if are_plain(words) => Some(words),
        _ => None,
    }
}

/// A time in microseconds: one or more decimal digits of a value below 2**63.
pub(crate) fn time_of(digits: &str) -> Option<i64>
    ensures { result ≡ words_of.time_of digits.now }
{
    i64::try_from(numeral_of(digits)?).ok()
}

// What these words look for, and the words after that.
fn sought_of<'a>(words: &'a [&'a str]) -> (Sought<'a>, &'a [&'a str])
    ensures { (wanted_of result.0, map (λ w. w.now) result.1.now) ≡ wanted_in (map (λ w. w.now) words.now) }
{
    match words {
        [word, rest @ ..] if *word == "unhandled" => (Sought::Unhandled, rest),
        [word, rest @ ..] if *word == "waits" => (Sought::WaitsForever, rest),
        [word, label, rest @ ..] if *word == "line" => (Sought::Line(label), rest),
        _ => (Sought::UnhandledOrWaits, words),
    }
}

// The part of this number, from 1, of so many.
fn numbered_part(number: u64, count: u64) -> Option<Part>
    ensures { result ≡ words_of.numbered_part number count }
{
    if number < 1 || count < number || u64::from(u32::MAX) < count {
        return None;
    }
    Some(Part {
        before: (number - 1) as u32,
        after: (count - number) as u32,
    })
}

// A number, `/`, and how many parts there are.
fn part_of(text: &str) -> Option<Part>
    ensures { result ≡ words_of.part_of text.now }
{
    let (number, count) = text.split_once('/')?;
    numbered_part(numeral_of(number)?, numeral_of(count)?)
}

// The part that the last word names.
fn last_part(words: &[&str]) -> Option<Part>
    ensures { result ≡ words_of.last_part (map (λ w. w.now) words.now) }
{
    match words {
        [part] => part_of(part),
        _ => None,
    }
}

// The part that these words ask for.
fn part_in(words: &[&str]) -> Option<Part>
    ensures { result ≡ words_of.part_in (map (λ w. w.now) words.now) }
{
    match words {
        [] => Some(Part::whole()),
        [mark, rest @ ..] if *mark == "--part" => last_part(rest),
        _ => None,
    }
}

// What the words ask for, without a mark in front of them.
fn request_in<'a>(is_quiet: bool, words: &'a [&'a str]) -> Result<Request<'a>, WordsError>
    ensures { AnswersWords (search_in is_quiet (map (λ w. w.now) words.now)) result }
{
    let [source, choices, until, limit, rest @ ..] = words else {
        return Err(WordsError::Usage);
    };
    let (wanted, rest) = sought_of(rest);
    Ok(Request::Search {
        source,
        choices,
        until: time_of(until).ok_or(WordsError::Usage)?,
        limit: numeral_of(limit).ok_or(WordsError::Usage)?,
        wanted,
        part: part_in(rest).ok_or(WordsError::Usage)?,
        is_quiet,
    })
}

// Whether the first word asks for a quiet search, and the words after it.
fn quiet_in<'a>(words: &'a [&'a str]) -> (bool, &'a [&'a str])
    ensures { (result.0, map (λ w. w.now) result.1.now) ≡ quiet_in (map (λ w. w.now) words.now) }
{
    match words {
        [mark, rest @ ..] if *mark == "--quiet" => (true, rest),
        _ => (false, words),
    }
}

/// What the words after `search` ask for.
///
/// # Errors
/// Usage for other words than those of the command, and for a time, a limit, what is looked for or a part that is none.
pub(crate) fn search_request<'a>(words: &'a [&'a str]) -> Result<Request<'a>, WordsError>
    ensures { AnswersWords (search_asked (map (λ w. w.now) words.now)) result }
{
    let (is_quiet, words) = quiet_in(words);
    match unmarked(words) {
        Some(words) => request_in(is_quiet, words),
        None => Err(WordsError::Usage),
    }
}
