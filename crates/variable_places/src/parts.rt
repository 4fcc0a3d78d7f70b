//! The scalar parts of an object: their names in Ada, and the numbers of their words.
ghost use Rattle.std.specs.Prelude.{◌≡◌, ◌+◌, ◌*◌, ◌≤◌, ◌∷◌, ◌++◌, [], ◌+ℤ◌, IfOk, OnOk, pos};
ghost use Rattle.types.specs.Layouts.{capped, component_offset, words_of};
ghost use Rattle.variable_places.specs.Parts as parts;
ghost use Rattle.variable_places.specs.Parts.{component_parts, parts_below};

use itoa::Buffer;
use lexer::Text;
use std::alloc::{AllocError, Global};
use types::{MORE_WORDS, RecordComponent, Scope, Subtype, TypeForm};
use waveforms::Variable;

/// An array of more components is left out as a whole.
pub const SHOWN_COMPONENTS: u16 = 64;

/// The number of the word so many words after another one, or `MORE_WORDS` where it is after all words that a program may have.
pub(crate) fn word_after(word: u16, words: u32) -> u16
    ensures { result ≡ capped (word + words) }
{
    let number = u64::from(word) + u64::from(words);
    if number < MORE_WORDS as u64 {
        number as u16
    } else {
        MORE_WORDS
    }
}

// The name of the component of a record (RM 4.1.3).
fn component_name(alloc: Global, name: &[u8], component: &Text) -> Result<Vec<u8>, AllocError>
    ensures { IfOk result (λ text. text.items ≡ parts.component_name name.now component.now) }
{
    let mut text = Vec::from_slice(alloc, name)?;
    text.extend_from_slice(b".")?;
    text.extend_from_slice(component.as_bytes())?;
    Ok(text)
}

// The name of the component of an array at a position, where the first index is this (RM 4.1.1).
fn element_name(
    alloc: Global,
    name: &[u8],
    first: i64,
    position: u16,
) -> Result<Vec<u8>, AllocError>
    ensures { IfOk result (λ text. text.items ≡ parts.element_name name.now (first +ℤ pos position)) }
{
    let index = i128::from(first) + i128::from(position);
    let mut text = Vec::from_slice(alloc, name)?;
    text.extend_from_slice(b"(")?;
    text.extend_from_slice(Buffer::new().format(index).as_bytes())?;
    text.extend_from_slice(b")")?;
    Ok(text)
}

// The word of the component of an array at a position, where components take so many words.
fn element_word(word: u16, position: u16, width: u16) -> u16
    ensures { result ≡ capped (word + position * width) }
{
    word_after(word, u32::from(position) * u32::from(width))
}

// Adds a scalar.
fn push_scalar(
    alloc: Global,
    found: &mut Vec<Variable>,
    name: &[u8],
    word: u16,
) -> Result<(), AllocError>
    ensures { OnOk result (found.new.items ≡ found.old.items ++ parts.scalar name.now word) }
{
    let name = Vec::from_slice(alloc, name)?;
    found.push(Variable::new(name, word))?;
    Ok(())
}

/// Adds the scalar parts of an object of this subtype, whose type has a number below a bound: it has this name, and its first word has this number.
pub(crate) fn push_parts(
    alloc: Global,
    found: &mut Vec<Variable>,
    scope: &Scope,
    subtype: Subtype,
    below: usize,
    name: &[u8],
    word: u16,
) -> Result<(), AllocError>
    ensures { OnOk result (found.new.items ≡ found.old.items ++ parts_below below scope.now subtype name.now word) }
{
    if below == 0 {
        return Ok(());
    }
    match scope.form(subtype.type_number) {
        Some(TypeForm::Integer) => push_scalar(alloc, found, name, word),
        Some(TypeForm::Boolean) => push_scalar(alloc, found, name, word),
        Some(TypeForm::Time) => push_scalar(alloc, found, name, word),
        Some(TypeForm::TimeSpan) => push_scalar(alloc, found, name, word),
        Some(TypeForm::Array(index, many, element)) => {
            if SHOWN_COMPONENTS < *many {
                return Ok(());
            }
            let width = scope.words(*element);
            for position in 0..*many {
                let own = element_name(alloc, name, index.first, position)?;
                let first = element_word(word, position, width);
                push_parts(alloc, found, scope, *element, below - 1, &own, first)?;
            }
            Ok(())
        }
        Some(TypeForm::Record(components)) => {
            let all = components.as_slice();
            for component in all {
                let Some(offset) = scope.component_offset(all, &component.name) else {
                    continue;
                };
                let own = component_name(alloc, name, &component.name)?;
                let first = word_after(word, u32::from(offset));
                push_parts(
                    alloc,
                    found,
                    scope,
                    component.subtype,
                    below - 1,
                    &own,
                    first,
                )?;
            }
            Ok(())
        }
        None => Ok(()),
    }
}
