//! Pragmas and aspects: a priority as an aspect (RM D.1, J.15.11), and those that mean nothing here left out.

use ada2012_lexer::Span;
use ada2012_tree::{Aspect, Pragma};
use lexer::Word;
use lowering_text::{Changes, NoteKind, Whole, span_of};
use std::alloc::AllocError;

// Pragmas whose meaning the language has without them, or doesn't have.
const WITHOUT_MEANING: [&str; 16] = [
    "ATOMIC",
    "CPU",
    "ELABORATE",
    "ELABORATE_ALL",
    "ELABORATE_BODY",
    "INLINE",
    "LIST",
    "OPTIMIZE",
    "PAGE",
    "PREELABORATE",
    "PURE",
    "SPARK_MODE",
    "STORAGE_SIZE",
    "UNREFERENCED",
    "VOLATILE",
    "WARNINGS",
];

// Aspects whose meaning the language has without them, or doesn't have.
const ASPECTS_WITHOUT_MEANING: [&str; 23] = [
    "ALIGNMENT",
    "ATOMIC",
    "ATOMIC_COMPONENTS",
    "CONTRACT_CASES",
    "CONVENTION",
    "CPU",
    "DEPENDS",
    "ELABORATE_BODY",
    "GLOBAL",
    "INDEPENDENT",
    "INITIALIZES",
    "INLINE",
    "PACK",
    "POST",
    "PRE",
    "PREELABORATE",
    "PURE",
    "SIZE",
    "SPARK_MODE",
    "STORAGE_SIZE",
    "UNREFERENCED",
    "VOLATILE",
    "VOLATILE_COMPONENTS",
];

fn is_among(names: &[&str], name: &[u8]) -> bool {
    names.iter().any(|known| known.as_bytes() == name)
}

fn is_called(pragma: &Pragma, name: &str) -> bool {
    pragma.name.name.as_bytes() == name.as_bytes()
}

fn is_without_meaning(aspect: &Aspect) -> bool {
    is_among(&ASPECTS_WITHOUT_MEANING, aspect.name.name.as_bytes())
}

// Has an aspect that stays this one before it, or does none stay?
fn goes_with_what_is_before(aspects: &[Aspect], aspect: &Aspect) -> bool {
    let is_after_one = aspects.iter().any(|other| !is_without_meaning(other)
        && other.span.start < aspect.span.start);
    is_after_one || aspects.iter().all(|other| is_without_meaning(other))
}

// Leaves out a pragma that means nothing, with a note.
fn leave_out(changes: &mut Changes<'_>, pragma: &Pragma, words: &[u8]) -> Result<(), AllocError> {
    let mut replacement = Vec::new(changes.alloc);
    replacement.extend_from_slice(words)?;
    let note = NoteKind::PragmaLeftOut(pragma.name.name.clone()?);
    changes.replace(pragma.span, replacement, Some(note))
}

/// Leaves out a pragma that means nothing; these words are in its place.
pub(crate) fn lower_pragma(
    changes: &mut Changes<'_>,
    pragma: &Pragma,
    words: &[u8],
) -> Result<(), AllocError> {
    if is_among(&WITHOUT_MEANING, pragma.name.name.as_bytes()) {
        leave_out(changes, pragma, words)?;
    }
    Ok(())
}

// The value of a priority pragma: its argument, or the highest.
fn priority(changes: &Changes<'_>, pragma: &Pragma, out: &mut Vec<u8>) -> Result<(), AllocError> {
    match pragma.arguments.as_slice() {
        [argument, ..] => changes.source.copy(argument.value.span, out),
        [] => {
            out.extend_from_slice("31".as_bytes())?;
            Ok(())
        }
    }
}

/// A pragma in a task, a protected object or main, the name of which ends at this place: a priority becomes an aspect before `is`.
pub(crate) fn inner_pragma(
    changes: &mut Changes<'_>,
    name_end: u32,
    aspects: &[Aspect],
    pragma: &Pragma,
) -> Result<(), AllocError> {
    if !is_called(pragma, "PRIORITY") && !is_called(pragma, "INTERRUPT_PRIORITY") {
        return lower_pragma(changes, pragma, &[]);
    }
    let Some(is) = changes.source.word_from(name_end, Word::Is) else {
        return Ok(());
    };
    let Some(before) = changes.source.token_before(is.start) else {
        return Ok(());
    };
    let place = before.end_;
    let mut aspect = Vec::new(changes.alloc);
    let begin = if aspects.is_empty() {
        " with Priority => "
    } else {
        ", Priority => "
    };
    aspect.extend_from_slice(begin.as_bytes())?;
    priority(changes, pragma, &mut aspect)?;
    changes.replace(
        Span {
            start: place,
            end_: place,
        },
        aspect,
        None,
    )?;
    changes.write(pragma.span, &[])
}

// The comma or the `with` that goes with an aspect of a list.
fn separator_of(changes: &Changes<'_>, aspects: &[Aspect], aspect: &Aspect) -> Option<Span> {
    let token = if goes_with_what_is_before(aspects, aspect) {
        changes.source.token_before(aspect.span.start)?
    } else {
        changes.source.token_from(aspect.span.end_)?
    };
    Some(span_of(token))
}

// Leaves out an aspect that means nothing, with a note.
fn leave_out_aspect(
    changes: &mut Changes<'_>,
    aspects: &[Aspect],
    aspect: &Aspect,
) -> Result<(), AllocError> {
    if let Some(separator) = separator_of(changes, aspects, aspect) {
        changes.write(separator, &[])?;
    }
    let note = NoteKind::AspectLeftOut(aspect.name.name.clone()?);
    changes.replace(aspect.span, Vec::new(changes.alloc), Some(note))
}

// `Interrupt_Priority` as `Priority`, which is 31 where it isn't given.
fn interrupt_priority(changes: &mut Changes<'_>, aspect: &Aspect) -> Result<(), AllocError> {
    changes.write(aspect.name.span, "Priority".as_bytes())?;
    match &aspect.value {
        Some(_) => Ok(()),
        None => changes.insert(aspect.span.end_, " => 31".as_bytes()),
    }
}

fn aspects_of(changes: &mut Changes<'_>, aspects: &[Aspect]) -> Result<(), AllocError> {
    for aspect in aspects {
        if is_without_meaning(aspect) {
            leave_out_aspect(changes, aspects, aspect)?;
        } else if aspect.name.name.as_bytes() == "INTERRUPT_PRIORITY".as_bytes() {
            interrupt_priority(changes, aspect)?;
        }
    }
    Ok(())
}

/// Aspects that mean nothing, and priorities of interrupts.
pub(crate) fn lower_aspects(
    changes: &mut Changes<'_>,
    whole: &Whole<'_>,
) -> Result<(), AllocError> {
    for aspects in whole.parts.aspect_lists.as_slice() {
        aspects_of(changes, aspects)?;
    }
    Ok(())
}
