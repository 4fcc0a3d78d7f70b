//! What to write instead, which word is misspelled or which token is missing, what is declared with a name like one that isn't visible, and what is open where
//! an `end` is wrong or missing.
ghost use Rattle.std.specs.Prelude.{◌≡◌, ◌++◌, drop, IfOk, OnOk};
ghost use Rattle.std.specs.Str.{str_to_ascii_lowercase};
ghost use Rattle.lexer.specs.Words.{spelling};
ghost use Rattle.diagnostics.specs.hints.Hinted.{AreHintsAt, AreHintsOf, AreHintsOfLabel, AreHintsOfNumber, AreHintsOfTokens, HintsOfTokensOrNone, IsAdvice, IsMissingWhere, advice_lines, closing_part, construct_lines, declared_part, doubt_in, doubt_line, doubt_lines, doubtful_part, hint_line, label_lines, like_line, like_lines, like_words, misspelled_part, misspelling_line, missing_lines, number_lines, opened_part, opening_at, opening_line, opening_lines, or_misused, stray_lines, word_part};
ghost use Rattle.diagnostics.specs.hints.Places.{after_empty};
ghost use Rattle.remedies.specs.Recognition.{construct_at};

use crate::hints::parsed_text::ParsedText;
use crate::hints::places::{after_empty, name_or_none, put_place, start_at};
use crate::repairs::{Missing, Misspelling, missing_at, missing_text, misspelling_at};
use base::faults::{
    NAME_NOT_VISIBLE, STRAY_CHARACTER, UNEXPECTED_TOKEN, WRONG_LABEL, WRONG_LITERAL,
};
use lexer::{Token, Word};
use remedies::{
    Construct, Doubt, Like, Opening, TextTokens, closing_of, construct_at, doubtful_from, like_at,
    misused_at, name_text, of_byte, of_label, of_number, part_of, unclosed_at,
};
use std::alloc::{AllocError, Global};

/// What is known of a place by which to mend a text.
#[derive(Clone, Copy)]
pub(crate) struct Advice {
    pub opening: Option<Opening>,
    pub misspelling: Option<Misspelling>,
    pub construct: Option<Construct>,
    pub doubt: Option<Doubt>,
    pub missing: Option<Missing>,
}

fn put_hint_line(out: &mut Vec<u8>, words: &str) -> Result<(), AllocError>
    ensures { OnOk result (out.new.items ≡ out.old.items ++ hint_line words.now) }
{
    out.extend_from_slice(b"hint: ")?;
    out.extend_from_slice(words.as_bytes())?;
    out.extend_from_slice(b"\n")
}

#[tactic(auto, unfolding(crate::specs::hints::Hinted::opened_part))]
fn put_opened_part(
    out: &mut Vec<u8>,
    text: &[u8],
    opening: Opening,
    place: u32,
) -> Result<(), AllocError>
    ensures { OnOk result (out.new.items ≡ out.old.items ++ opened_part text.now opening place) }
{
    out.extend_from_slice(part_of(opening.opened).as_bytes())?;
    out.extend_from_slice(b" that begins at ")?;
    put_place(out, text, place)
}

#[tactic(auto, unfolding(crate::specs::hints::Hinted::closing_part))]
fn put_closing_part(out: &mut Vec<u8>, closing: &str) -> Result<(), AllocError>
    ensures { OnOk result (out.new.items ≡ out.old.items ++ closing_part closing.now) }
{
    out.extend_from_slice(b", ")?;
    out.extend_from_slice(closing.as_bytes())?;
    out.extend_from_slice(b"\n")
}

fn put_opening_line(
    out: &mut Vec<u8>,
    text: &[u8],
    opening: Opening,
    place: u32,
) -> Result<(), AllocError>
    ensures { OnOk result (out.new.items ≡ out.old.items ++ opening_line text.now opening place) }
{
    out.extend_from_slice(b"open here: ")?;
    put_opened_part(out, text, opening, place)?;
    put_closing_part(out, closing_of(opening.opened))
}

fn put_opening_lines(
    out: &mut Vec<u8>,
    text: &[u8],
    list: &[Token],
    opening: Option<Opening>,
) -> Result<(), AllocError>
    ensures { OnOk result (out.new.items ≡ out.old.items ++ opening_lines text.now list.now opening) }
{
    match opening {
        Some(opening) => put_opening_line(out, text, opening, start_at(opening.before, list)),
        None => Ok(()),
    }
}

#[tactic(auto, unfolding(crate::specs::hints::Hinted::declared_part))]
fn put_declared_part(
    out: &mut Vec<u8>,
    text: &[u8],
    list: &[Token],
    number: usize,
) -> Result<(), AllocError>
    ensures { OnOk result (out.new.items ≡ out.old.items ++ declared_part text.now list.now number) }
{
    out.extend_from_slice(name_or_none(number, list))?;
    out.extend_from_slice(b" is declared at ")?;
    put_place(out, text, start_at(number, list))
}

fn put_like_words(
    out: &mut Vec<u8>,
    text: &[u8],
    list: &[Token],
    like: Like,
) -> Result<(), AllocError>
    ensures { OnOk result (out.new.items ≡ out.old.items ++ like_words text.now list.now like) }
{
    match like {
        Like::DeclaredLater(number) => {
            put_declared_part(out, text, list, number)?;
            out.extend_from_slice(b", after this place.")
        }
        Like::Declared(number) => {
            put_declared_part(out, text, list, number)?;
            out.extend_from_slice(b": a name like this one.")
        }
        Like::Predefined(name) => {
            out.extend_from_slice(name_text(name))?;
            out.extend_from_slice(b" is a name of the language, like this one.")
        }
        Like::Reserved(word) => {
            out.extend_from_slice(word.spelling())?;
            out.extend_from_slice(b" is a reserved word, like this name.")
        }
    }
}

fn put_like_line(
    out: &mut Vec<u8>,
    text: &[u8],
    list: &[Token],
    like: Option<Like>,
) -> Result<(), AllocError>
    ensures { OnOk result (out.new.items ≡ out.old.items ++ like_line text.now list.now like) }
{
    let Some(like) = like else {
        return Ok(());
    };
    out.extend_from_slice(b"hint: ")?;
    put_like_words(out, text, list, like)?;
    out.extend_from_slice(b"\n")
}

fn put_like_lines(
    out: &mut Vec<u8>,
    number: u64,
    place: u32,
    text: &[u8],
    list: &TextTokens,
) -> Result<(), AllocError>
    ensures { OnOk result (out.new.items ≡ out.old.items ++ like_lines number place text.now list.now) }
{
    if number == u64::from(NAME_NOT_VISIBLE) {
        put_like_line(out, text, list.tokens(), like_at(place, list))
    } else {
        Ok(())
    }
}

#[tactic(auto, unfolding(crate::specs::hints::Hinted::misspelled_part))]
fn put_misspelled_part(
    out: &mut Vec<u8>,
    text: &[u8],
    list: &[Token],
    number: usize,
) -> Result<(), AllocError>
    ensures { OnOk result (out.new.items ≡ out.old.items ++ misspelled_part text.now list.now number) }
{
    out.extend_from_slice(name_or_none(number, list))?;
    out.extend_from_slice(b" at ")?;
    put_place(out, text, start_at(number, list))
}

#[tactic(auto, unfolding(crate::specs::hints::Hinted::word_part))]
fn put_word_part(alloc: Global, out: &mut Vec<u8>, word: Word) -> Result<(), AllocError>
    ensures { OnOk result (out.new.items ≡ out.old.items ++ word_part word) }
{
    let lowered = word.spelling().to_ascii_lowercase(alloc)?;
    out.extend_from_slice(b"write `")?;
    out.extend_from_slice(&lowered)?;
    out.extend_from_slice(b"` for ")?;
    Ok(())
}

fn put_misspelling_line(
    alloc: Global,
    out: &mut Vec<u8>,
    text: &[u8],
    list: &[Token],
    misspelling: Misspelling,
) -> Result<(), AllocError>
    ensures { OnOk result (out.new.items ≡ out.old.items ++ misspelling_line text.now list.now misspelling) }
{
    out.extend_from_slice(b"hint: ")?;
    put_word_part(alloc, out, misspelling.word)?;
    put_misspelled_part(out, text, list, misspelling.number)?;
    out.extend_from_slice(b"\n")
}

#[tactic(auto, unfolding(crate::specs::hints::Hinted::doubtful_part))]
fn put_doubtful_part(
    out: &mut Vec<u8>,
    text: &[u8],
    list: &[Token],
    number: usize,
) -> Result<(), AllocError>
    ensures { OnOk result (out.new.items ≡ out.old.items ++ doubtful_part text.now list.now number) }
{
    out.extend_from_slice(b"hint: at ")?;
    put_place(out, text, start_at(number, list))
}

fn put_doubt_line(
    out: &mut Vec<u8>,
    text: &[u8],
    list: &[Token],
    doubt: Doubt,
) -> Result<(), AllocError>
    ensures { OnOk result (out.new.items ≡ out.old.items ++ doubt_line text.now list.now doubt) }
{
    match doubt {
        Doubt::ElseIf(number) => {
            put_doubtful_part(out, text, list, number)?;
            out.extend_from_slice(
                b" an `if` of its own begins after `else`, with its own `end if;`: write `elsif`
",
            )
        }
        Doubt::EndWord(number) => {
            put_doubtful_part(out, text, list, number)?;
            out.extend_from_slice(
                b" the words of an end are one: write `end if;`, `end case;` or `end loop;`
",
            )
        }
    }
}

// Appends the line for why what is open may not be closed; where nothing is known, the one that names a like name.
fn put_doubt_lines(
    out: &mut Vec<u8>,
    number: u64,
    place: u32,
    text: &[u8],
    list: &TextTokens,
    doubt: Option<Doubt>,
) -> Result<(), AllocError>
    ensures { OnOk result (out.new.items ≡ out.old.items ++ doubt_lines number place text.now list.now doubt) }
{
    match doubt {
        Some(doubt) => put_doubt_line(out, text, list.tokens(), doubt),
        None => put_like_lines(out, number, place, text, list),
    }
}

// Appends the hint for a token that is missing; where none is, the one for what may not be closed or for a like name.
fn put_missing_lines(
    out: &mut Vec<u8>,
    number: u64,
    place: u32,
    text: &[u8],
    list: &TextTokens,
    advice: Advice,
) -> Result<(), AllocError>
    ensures { OnOk result (out.new.items ≡ out.old.items ++ missing_lines number place text.now list.now advice) }
{
    match advice.missing {
        Some(missing) => put_hint_line(out, missing_text(missing)),
        None => put_doubt_lines(out, number, place, text, list, advice.doubt),
    }
}

// Appends the hint for the construct; where none is recognized, the one for a missing token or a like name.
fn put_construct_lines(
    out: &mut Vec<u8>,
    number: u64,
    place: u32,
    text: &[u8],
    list: &TextTokens,
    advice: Advice,
) -> Result<(), AllocError>
    ensures { OnOk result (out.new.items ≡ out.old.items ++ construct_lines number place text.now list.now advice) }
{
    match advice.construct {
        Some(construct) => put_hint_line(out, construct.text()),
        None => put_missing_lines(out, number, place, text, list, advice),
    }
}

// Appends the hint for a misspelled word; where none is, the one for the construct, a missing token or a like name.
fn put_advice_lines(
    alloc: Global,
    out: &mut Vec<u8>,
    number: u64,
    place: u32,
    text: &[u8],
    list: &TextTokens,
    advice: Advice,
) -> Result<(), AllocError>
    ensures { OnOk result (out.new.items ≡ out.old.items ++ advice_lines number place text.now list.now advice) }
{
    match advice.misspelling {
        Some(misspelling) => put_misspelling_line(alloc, out, text, list.tokens(), misspelling),
        None => put_construct_lines(out, number, place, text, list, advice),
    }
}

fn or_misused(construct: Option<Construct>, misused: Option<Construct>) -> Option<Construct>
    ensures { result ≡ or_misused construct misused }
{
    match construct {
        Some(construct) => Some(construct),
        None => misused,
    }
}

fn doubt_in(list: &[Token], opening: Option<Opening>) -> Option<Doubt>
    ensures { result ≡ doubt_in list.now opening }
{
    match opening {
        Some(opening) => doubtful_from(opening.before, list),
        None => None,
    }
}

fn missing_where(
    alloc: Global,
    number: u64,
    place: u32,
    list: &[Token],
    opening: Option<Opening>,
) -> Result<Option<Missing>, AllocError>
    ensures { IfOk result (λ missing. IsMissingWhere opening number place list.now missing) }
{
    match opening {
        Some(_) => Ok(None),
        None => missing_at(alloc, number, place, list),
    }
}

fn opening_at(
    alloc: Global,
    number: u64,
    place: u32,
    list: &[Token],
) -> Result<Option<Opening>, AllocError>
    ensures { IfOk result (λ opening. opening ≡ opening_at number place list.now) }
{
    if number == u64::from(UNEXPECTED_TOKEN) {
        unclosed_at(alloc, place, list)
    } else {
        Ok(None)
    }
}

fn advice_at(
    alloc: Global,
    number: u64,
    place: u32,
    list: &TextTokens,
) -> Result<Advice, AllocError>
    ensures { IfOk result (λ advice. IsAdvice number place list.now advice) }
{
    let opening = opening_at(alloc, number, place, list.tokens())?;
    let misspelling = misspelling_at(alloc, number, place, list.tokens())?;
    let recognized = construct_at(alloc, number, place, list)?;
    let construct = or_misused(recognized, misused_at(number, place, list));
    let doubt = doubt_in(list.tokens(), opening);
    let missing = missing_where(alloc, number, place, list.tokens(), opening)?;
    Ok(Advice {
        opening,
        misspelling,
        construct,
        doubt,
        missing,
    })
}

fn hints_of_tokens(
    alloc: Global,
    number: u64,
    place: u32,
    text: &[u8],
    list: &TextTokens,
) -> Result<Vec<u8>, AllocError>
    ensures { IfOk result (λ hints. AreHintsOfTokens number place text.now list.now hints.items) }
{
    let mut lines = Vec::new(alloc);
    let advice = advice_at(alloc, number, place, list)?;
    put_advice_lines(alloc, &mut lines, number, place, text, list, advice)?;
    put_opening_lines(&mut lines, text, list.tokens(), advice.opening)?;
    after_empty(alloc, &lines)
}

fn hints_of_text(
    alloc: Global,
    number: u64,
    place: u32,
    text: &ParsedText,
) -> Result<Vec<u8>, AllocError>
    ensures { IfOk result (λ hints. HintsOfTokensOrNone number place text.now hints.items) }
{
    match text.tokens() {
        Some(list) => hints_of_tokens(alloc, number, place, text.text(), list),
        None => Ok(Vec::new(alloc)),
    }
}

// The hint for a byte that begins no token (RM 2.2).
fn hints_of_byte(alloc: Global, rest: &[u8]) -> Result<Vec<u8>, AllocError>
    ensures { IfOk result (λ hints. hints.items ≡ after_empty (stray_lines rest.now)) }
{
    let mut lines = Vec::new(alloc);
    match rest {
        [] => {}
        [byte, ..] => put_hint_line(&mut lines, of_byte(*byte))?,
    }
    after_empty(alloc, &lines)
}

// The hint for a number that is misspelled (RM 2.4.1).
fn hints_of_number(alloc: Global, rest: &[u8]) -> Result<Vec<u8>, AllocError>
    ensures { IfOk result (λ hints. hints.items ≡ after_empty (number_lines rest.now)) }
{
    let mut lines = Vec::new(alloc);
    put_hint_line(&mut lines, of_number(rest))?;
    after_empty(alloc, &lines)
}

// The hint for a label that is misspelled (RM 2.6).
fn hints_of_label(alloc: Global, rest: &[u8]) -> Result<Vec<u8>, AllocError>
    ensures { IfOk result (λ hints. hints.items ≡ after_empty (label_lines rest.now)) }
{
    let mut lines = Vec::new(alloc);
    match rest {
        [] => {}
        [_, after @ ..] => put_hint_line(&mut lines, of_label(after))?,
    }
    after_empty(alloc, &lines)
}

// What a text has from the place on.
fn text_from(place: u32, text: &[u8]) -> &[u8]
    ensures { result.now ≡ drop place text.now }
{
    &text[(place as usize).min(text.len())..]
}

// By the label at the place, or the tokens.
fn hints_of_label_or_text(
    alloc: Global,
    number: u64,
    place: u32,
    text: &ParsedText,
) -> Result<Vec<u8>, AllocError>
    ensures { IfOk result (λ hints. AreHintsOfLabel number place text.now hints.items) }
{
    if number == u64::from(WRONG_LABEL) {
        hints_of_label(alloc, text_from(place, text.text()))
    } else {
        hints_of_text(alloc, number, place, text)
    }
}

fn hints_of_number_or_text(
    alloc: Global,
    number: u64,
    place: u32,
    text: &ParsedText,
) -> Result<Vec<u8>, AllocError>
    ensures { IfOk result (λ hints. AreHintsOfNumber number place text.now hints.items) }
{
    if number == u64::from(WRONG_LITERAL) {
        hints_of_number(alloc, text_from(place, text.text()))
    } else {
        hints_of_label_or_text(alloc, number, place, text)
    }
}

fn hints_of(
    alloc: Global,
    number: u64,
    place: u32,
    text: &ParsedText,
) -> Result<Vec<u8>, AllocError>
    ensures { IfOk result (λ hints. AreHintsOf number place text.now hints.items) }
{
    if number == u64::from(STRAY_CHARACTER) {
        hints_of_byte(alloc, text_from(place, text.text()))
    } else {
        hints_of_number_or_text(alloc, number, place, text)
    }
}

/// What to write instead where the text's fault has the number and this place, what is declared with a name like one that isn't visible there, and what is open
/// there where an `end` is wrong or missing: lines after an empty one, or nothing. Without a place, by which the text has another fault or none, nothing.
///
/// # Errors
/// Where memory was refused.
pub fn hints_at(
    alloc: Global,
    number: u64,
    place: Option<u32>,
    text: &ParsedText,
) -> Result<Vec<u8>, AllocError>
    ensures { IfOk result (λ hints. AreHintsAt number place text.now hints.items) }
{
    match place {
        Some(place) => hints_of(alloc, number, place, text),
        None => Ok(Vec::new(alloc)),
    }
}
