//! Lowering a whole text, round by round.
ghost use Rattle.std.specs.Prelude.{◌≡◌, IfOk, IfSome};
ghost use Rattle.text_edits.specs.Edits.{IsEdited, line_feeds};
ghost use Rattle.lowering.specs.Lowering.{IsLowered};

use crate::fault::{Fault, FaultKind, Lowered, Note};
use crate::literals::lower_tokens;
use crate::stages::lower_with_names;
use crate::walk::lower_program;
use lowering_text::{Changes, RefusalKind, Request, Source};
use std::alloc::{AllocError, Global};
use text_edits::{Edits, Places};

/// The most rounds of edits: each takes what earlier ones have written, and levels within levels.
pub const ROUNDS: usize = 400;

// The place in the text that was given of a place in the text as it is now.
fn in_given_text(history: &[Places], place: u32) -> u32 {
    let mut origin = place;
    for places in history.iter().rev() {
        origin = places.origin(origin);
    }
    origin
}

fn spelling_fault(fault: ada2012_lexer::Fault) -> Fault {
    match fault.kind {
        ada2012_lexer::FaultKind::Memory => Fault::memory(),
        kind => Fault {
            kind: FaultKind::Spelling(kind),
            place: fault.place,
        },
    }
}

fn syntax_fault(fault: ada2012_parser::Fault) -> Fault {
    match fault.kind {
        ada2012_parser::FaultKind::Memory => Fault::memory(),
        kind => Fault {
            kind: FaultKind::Syntax(kind),
            place: fault.place,
        },
    }
}

fn kind_of_refusal(kind: RefusalKind) -> FaultKind {
    match kind {
        RefusalKind::RealNumber => FaultKind::RealNumber,
        RefusalKind::NumberOutOfRange => FaultKind::NumberOutOfRange,
    }
}

// What is to be changed in a text, in the order of the text.
fn requests(alloc: Global, text: &[u8]) -> Result<Vec<Request>, Fault> {
    let found = match ada2012_lexer::tokens(alloc, text) {
        Ok(found) => found,
        Err(fault) => return Err(spelling_fault(fault)),
    };
    let program = match ada2012_parser::parse(alloc, &found.tokens) {
        Ok(program) => program,
        Err(fault) => return Err(syntax_fault(fault)),
    };
    let source = Source {
        text,
        tokens: &found.tokens,
    };
    let mut changes = Changes::new(alloc, source);
    lower_program(&mut changes, &program)?;
    lower_tokens(&mut changes)?;
    lower_with_names(&mut changes, &program)?;
    if let Some(refusal) = changes.refusal {
        return Err(Fault {
            kind: kind_of_refusal(refusal.kind),
            place: refusal.place,
        });
    }
    let Changes { mut requests, .. } = changes;
    requests.sort_by_key(|request| (request.span.start, request.span.end_))?;
    Ok(requests)
}

// The edits that are asked for, without those that overlap one before them, and the notes of those that are made.
fn edits_of<'a>(
    alloc: Global,
    text: &'a [u8],
    requests: Vec<Request>,
    history: &[Places],
    notes: &mut Vec<Note>,
) -> Result<Edits<'a>, AllocError>
    ensures { IfOk result (λ edits. edits.text ≡ text.now) }
{
    let mut edits = Edits::new(alloc, text);
    for request in requests {
        let Request {
            span,
            replacement,
            note,
        } = request;
        if let Some(kind) = note {
            if edits.has_room(span) {
                let place = in_given_text(history, span.start);
                notes.push(Note { kind, place })?;
            }
        }
        edits.replace(alloc, span, &replacement)?;
    }
    Ok(edits)
}

// One round: the text with what is to be changed in it, or none where nothing is.
fn round(
    alloc: Global,
    text: &[u8],
    history: &mut Vec<Places>,
    notes: &mut Vec<Note>,
) -> Result<Option<Vec<u8>>, Fault>
    ensures { IfOk result (λ found. IfSome found (λ new. IsEdited text.now new.items)) }
{
    let requests = match requests(alloc, text) {
        Ok(requests) => requests,
        Err(fault) => {
            return Err(Fault {
                kind: fault.kind,
                place: in_given_text(history.as_slice(), fault.place),
            });
        }
    };
    if requests.is_empty() {
        return Ok(None);
    }
    let edits = edits_of(alloc, text, requests, history.as_slice(), notes)?;
    let new = edits.apply(alloc)?;
    history.push(edits.into_places())?;
    Ok(Some(new))
}

/// Writes a text of whole Ada 2012 with what the language of adarun has other words for in these words (the crate's README has the rules). What has no rule
/// stays as it is: whether the result is a text of the language says its own front end.
///
/// # Errors
/// The first fault of spelling or of the grammar, at its place in the text; a named number that is no Integer; `Unfinished`, at byte 0, where `ROUNDS` rounds
/// don't do; `Memory`, at byte 0, where memory was refused.
pub fn lower(alloc: Global, text: &[u8]) -> Result<Lowered, Fault>
    // It comes from the text by edits: what is outside of these is the same, byte for byte.
    ensures is_lowered { IfOk result (λ lowered. IsLowered text.now lowered.text.items) }
    // It has as many lines.
    ensures lines { IfOk result (λ lowered. line_feeds lowered.text.items ≡ line_feeds text.now) }
{
    let mut now = Vec::new(alloc);
    now.extend_from_slice(text)?;
    let mut history = Vec::new(alloc);
    let mut notes = Vec::new(alloc);
    for _ in 0..ROUNDS {
        match round(alloc, &now, &mut history, &mut notes)? {
            Some(new) => now = new,
            None => return Ok(Lowered { text: now, notes }),
        }
    }
    Err(Fault {
        kind: FaultKind::Unfinished,
        place: 0,
    })
}
