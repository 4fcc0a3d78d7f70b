//! Handlers of interrupts (RM C.3): pragmas that attach them as aspects, and the names of interrupts as numbers of channels.

use crate::clashes::is_named;
use ada2012_lexer::Span;
use ada2012_names::Predefined;
use ada2012_tree::{Aspect, Identifier, Pragma, ProtectedDeclaration, ProtectedItem};
use base::Text;
use lowering_text::{Changes, NoteKind, Whole, are_same, last_of, name_of};
use std::alloc::{AllocError, Global};

// The numbers of the channels, by which the language names interrupts.
const CHANNELS: [&str; 8] = ["1", "2", "3", "4", "5", "6", "7", "8"];

/// The name of an interrupt, and the bytes that it takes with its prefix.
#[derive(Clone, Copy)]
struct Interrupt<'a> {
    name: &'a Identifier,
    span: Span,
}

/// Does a pragma attach a handler?
pub fn is_attachment(pragma: &Pragma) -> bool {
    pragma.name.name.as_bytes() == "ATTACH_HANDLER".as_bytes()
}

// Where the declaration of the procedure of this name ends, and its aspects.
fn procedure_among<'b>(
    items: &'b [ProtectedItem],
    name: &Identifier,
) -> Option<(Span, &'b [Aspect])> {
    for item in items {
        if let ProtectedItem::Subprogram(span, specification, aspects) = item {
            if are_same(&specification.name, name) {
                return Some((*span, aspects.as_slice()));
            }
        }
    }
    None
}

// Adds the aspect of a declaration to these others.
fn attach_to(
    changes: &mut Changes<'_>,
    declaration: Span,
    aspects: &[Aspect],
    interrupt: Span,
) -> Result<(), AllocError> {
    let Some(semicolon) = changes.source.token_before(declaration.end_) else {
        return Ok(());
    };
    let interrupt = changes.copied(interrupt)?;
    let words = if aspects.is_empty() {
        changes.joined(&[b" with Attach_Handler => ", interrupt.as_slice()])?
    } else {
        changes.joined(&[b", Attach_Handler => ", interrupt.as_slice()])?
    };
    changes.insert(semicolon.start, &words)
}

/// `pragma Attach_Handler (P, K)` in a protected object as the aspect of P.
pub fn attach(
    changes: &mut Changes<'_>,
    object: &ProtectedDeclaration,
    pragma: &Pragma,
) -> Result<(), AllocError> {
    let [handler, interrupt] = pragma.arguments.as_slice() else {
        return Ok(());
    };
    let Some(name) = name_of(&handler.value) else {
        return Ok(());
    };
    if !handler.choices.is_empty() || !interrupt.choices.is_empty() {
        return Ok(());
    }
    let found = match procedure_among(&object.visible, &name.prefix) {
        Some(found) => Some(found),
        None => procedure_among(&object.hidden, &name.prefix),
    };
    match found {
        Some((declaration, aspects)) => {
            attach_to(changes, declaration, aspects, interrupt.value.span)?;
            changes.write(pragma.span, &[])
        }
        None => Ok(()),
    }
}

// Writes the number of the channel of an interrupt whose name is the one with this place among all.
fn channel(
    changes: &mut Changes<'_>,
    interrupt: &Interrupt<'_>,
    place: usize,
    is_first: bool,
) -> Result<(), AllocError> {
    let Some(number) = CHANNELS.get(place) else {
        return Ok(());
    };
    let mut words = Vec::new(changes.alloc);
    words.extend_from_slice(number.as_bytes())?;
    let name = Text::new(changes.source.bytes(interrupt.name.span));
    match (name, Text::new(number.as_bytes())) {
        (Some(name), Some(number)) if is_first => changes.replace(
            interrupt.span,
            words,
            Some(NoteKind::Channel(name, number)),
        ),
        _ => changes.replace(interrupt.span, words, None),
    }
}

/// Names of Ada.Interrupts.Names to which handlers are attached, as the numbers 1 to 8 in the order in which they come first.
pub fn lower_channels(changes: &mut Changes<'_>, whole: &Whole<'_>) -> Result<(), AllocError> {
    if !is_named(whole, Predefined::InterruptNames) {
        return Ok(());
    }
    let Some(interrupts) = attached_interrupts(whole, changes.alloc)? else {
        return Ok(());
    };
    let mut names: Vec<&Identifier> = Vec::new(changes.alloc);
    for interrupt in interrupts.as_slice() {
        match names
            .iter()
            .position(|other| are_same(other, interrupt.name))
        {
            Some(place) => channel(changes, interrupt, place, false)?,
            None => {
                channel(changes, interrupt, names.len(), true)?;
                names.push(interrupt.name)?;
            }
        }
    }
    Ok(())
}

// The name of an interrupt that is the value of an aspect: one that no declaration of the text has.
fn interrupt_of<'a>(whole: &Whole<'a>, aspect: &'a Aspect) -> Option<Interrupt<'a>> {
    let name = name_of(aspect.value.as_ref()?)?;
    let last = last_of(&name.prefix, &name.selectors)?;
    if whole.denoted(last.span).is_some() {
        return None;
    }
    Some(Interrupt {
        name: last,
        span: name.span,
    })
}

// The names of interrupts to which handlers are attached, in the order of the text; none where one is attached otherwise.
fn attached_interrupts<'a>(
    whole: &Whole<'a>,
    alloc: Global,
) -> Result<Option<Vec<Interrupt<'a>>>, AllocError> {
    let mut found = Vec::new(alloc);
    for aspects in whole.parts.aspect_lists.as_slice() {
        for aspect in *aspects {
            if aspect.name.name.as_bytes() == "ATTACH_HANDLER".as_bytes() {
                match interrupt_of(whole, aspect) {
                    Some(interrupt) => found.push(interrupt)?,
                    None => return Ok(None),
                }
            }
        }
    }
    Ok(Some(found))
}
