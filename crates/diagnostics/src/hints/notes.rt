//! What is reported of one text.
ghost use Rattle.std.specs.Prelude.{option_map, IfOk};
ghost use Rattle.lexer.specs.Spelling.{Spells};
ghost use Rattle.parser.specs.Parsing.{IsFaulty};
ghost use Rattle.diagnostics.specs.hints.Explained.{IsExplained};
ghost use Rattle.diagnostics.specs.hints.Notes.{AreNotesAt, AreNotesOf, AreNotesOfTokens, AreNotesOfText};

use crate::continuations::notes_of_place;
use crate::explanations::explanation;
use crate::hints::hinted::hints_at;
use crate::hints::parsed_text::{ParsedText, Reading};
use crate::hints::subjects::{notes_of_subject, subject_of};
use base::faults::UNEXPECTED_TOKEN;
use lexer::{Fault, Token};
use parser::longest_beginning;
use std::alloc::{AllocError, Global};

// Of tokens without a tree: what could stand at the first place where no derivation goes on.
fn notes_of_tokens(alloc: Global, list: &[Token]) -> Result<Vec<u8>, AllocError>
    ensures { IfOk result (λ notes. AreNotesOfTokens list.now notes.items) }
{
    let count = longest_beginning(alloc, list)?;
    let (front, back) = list.split_at(count);
    notes_of_place(alloc, front, back)
}

// What could stand at the place of the fault of these tokens, which spell the text; nothing of another fault than a token that cannot stand where it does.
fn notes_of_fault(
    alloc: Global,
    text: &ParsedText,
    list: &[Token],
    fault: &Fault,
) -> Result<Vec<u8>, AllocError>
    requires spells { Spells text.now list.now }
    requires faulty { IsFaulty list.now fault.now }
    ensures { IfOk result (λ notes. AreNotesOfText text.now notes.items) }
{
    if fault.number == UNEXPECTED_TOKEN {
        notes_of_tokens(alloc, list)
    } else {
        Ok(Vec::new(alloc))
    }
}

fn notes_of_text(alloc: Global, text: &ParsedText) -> Result<Vec<u8>, AllocError>
    ensures { IfOk result (λ notes. AreNotesOfText text.now notes.items) }
{
    match text.reading() {
        Reading::Treeless { tokens, fault } => notes_of_fault(alloc, text, tokens.tokens(), fault),
        Reading::Misspelled | Reading::Derived { .. } => Ok(Vec::new(alloc)),
    }
}

fn notes_of(
    alloc: Global,
    number: u64,
    place: u32,
    text: &ParsedText,
) -> Result<Vec<u8>, AllocError>
    ensures { IfOk result (λ notes. AreNotesOf number place text.now notes.items) }
{
    if number == u64::from(UNEXPECTED_TOKEN) {
        notes_of_text(alloc, text)
    } else if let Some(subject) = subject_of(number) {
        notes_of_subject(alloc, subject, text, place)
    } else {
        Ok(Vec::new(alloc))
    }
}

/// What is reported of the text where its fault has the number and this place, as `explained` has it after the explanation; nothing without a place, by which
/// the text has another fault or none.
///
/// # Errors
/// Where memory was refused.
pub fn notes_at(
    alloc: Global,
    number: u64,
    place: Option<u32>,
    text: &ParsedText,
) -> Result<Vec<u8>, AllocError>
    ensures { IfOk result (λ notes. AreNotesAt number place text.now notes.items) }
{
    match place {
        Some(place) => notes_of(alloc, number, place, text),
        None => Ok(Vec::new(alloc)),
    }
}

/// The explanation of the fault of this number, and after it, where the text's fault has the number and this place, what to write instead, what is open there
/// where an `end` is wrong or missing, and what is reported of the text: of a token that cannot be where it is, what could be there; of a name that is
/// declared twice, and of a body that doesn't belong to its declaration, where the other one is. None where no fault has the number.
///
/// # Errors
/// Where memory was refused.
pub fn explained(
    alloc: Global,
    number: u64,
    place: Option<u32>,
    text: &[u8],
) -> Result<Option<Vec<u8>>, AllocError>
    ensures { IfOk result (λ whole. IsExplained number place text.now (option_map (λ bytes. bytes.items) whole)) }
{
    let Some(explanation) = explanation(number) else {
        return Ok(None);
    };
    let text = ParsedText::read(alloc, text)?;
    let mut whole = explanation.as_bytes().to_vec(alloc)?;
    let hints = hints_at(alloc, number, place, &text)?;
    whole.extend_from_slice(&hints)?;
    let notes = notes_at(alloc, number, place, &text)?;
    whole.extend_from_slice(&notes)?;
    Ok(Some(whole))
}
