//! Attributes of integer types with arguments (RM 3.5), and the position of a truth value.

use ada2012_lexer::Span;
use ada2012_names::{Predefined, TypeForm};
use ada2012_tree::{Association, Expr};
use lowering_text::{AttributeUse, Changes, Whole, is_attribute};
use std::alloc::AllocError;

// The value of the only argument in parentheses.
fn only(arguments: &[Association]) -> Option<&Expr> {
    match arguments {
        [argument] => Some(&argument.value),
        _ => None,
    }
}

// From the prefix of an attribute to the end of its arguments.
fn whole_of(found: &AttributeUse<'_>) -> Span {
    Span {
        start: found.prefix.start,
        end_: found.list.end_,
    }
}

fn is_boolean(whole: &Whole<'_>, found: &AttributeUse<'_>) -> bool {
    whole.names.predefined(whole.names.type_of(found.subtype)) == Some(Predefined::Boolean)
}

fn is_integer(whole: &Whole<'_>, found: &AttributeUse<'_>) -> bool {
    matches!(whole.names.form_of(found.subtype), Some(TypeForm::Integer))
}

// These words around the only argument, in the place of an attribute and its parentheses.
fn enclose(
    changes: &mut Changes<'_>,
    found: &AttributeUse<'_>,
    before: &str,
    end: &str,
) -> Result<(), AllocError> {
    let Some(argument) = only(found.arguments) else {
        return Ok(());
    };
    let begin = Span {
        start: found.prefix.start,
        end_: argument.span.start,
    };
    let rest = Span {
        start: argument.span.end_,
        end_: found.list.end_,
    };
    changes.write(begin, before.as_bytes())?;
    changes.write(rest, end.as_bytes())
}

// These words, and an operand after them.
fn put_operand(
    changes: &Changes<'_>,
    words: &str,
    operand: Span,
    out: &mut Vec<u8>,
) -> Result<(), AllocError> {
    out.extend_from_slice(words.as_bytes())?;
    changes.source.copy(operand, out)
}

// The greater or lesser of two arguments without calls, by this relation.
fn chosen(
    changes: &mut Changes<'_>,
    whole: &Whole<'_>,
    found: &AttributeUse<'_>,
    relation: &str,
) -> Result<(), AllocError> {
    let [left, right] = found.arguments else {
        return Ok(());
    };
    if whole.may_call(found.list) {
        return Ok(());
    }
    let mut words = Vec::new(changes.alloc);
    put_operand(changes, "(if ", left.value.span, &mut words)?;
    put_operand(changes, relation, right.value.span, &mut words)?;
    put_operand(changes, " then ", left.value.span, &mut words)?;
    put_operand(changes, " else ", right.value.span, &mut words)?;
    words.push(b')')?;
    changes.replace(whole_of(found), words, None)
}

fn attribute(
    changes: &mut Changes<'_>,
    whole: &Whole<'_>,
    found: &AttributeUse<'_>,
) -> Result<(), AllocError> {
    let name = found.attribute;
    if is_boolean(whole, found) && is_attribute(name, "POS") {
        enclose(changes, found, "(if ", " then 1 else 0)")
    } else if is_attribute(name, "MAX") && whole.is_counted(found.subtype) {
        chosen(changes, whole, found, " > ")
    } else if is_attribute(name, "MIN") && whole.is_counted(found.subtype) {
        chosen(changes, whole, found, " < ")
    } else if !is_integer(whole, found) {
        Ok(())
    } else if is_attribute(name, "POS") {
        changes.write(found.prefix, "Integer".as_bytes())
    } else if is_attribute(name, "SUCC") {
        enclose(changes, found, "(", " + 1)")
    } else if is_attribute(name, "PRED") {
        enclose(changes, found, "(", " - 1)")
    } else {
        Ok(())
    }
}

/// `Pos`, `Succ` and `Pred` of integer types, `Min` and `Max`, and `Boolean'Pos`.
pub fn lower_attributes(changes: &mut Changes<'_>, whole: &Whole<'_>) -> Result<(), AllocError> {
    for name in whole.parts.names.as_slice() {
        if let Some(found) = whole.attribute_use(name) {
            attribute(changes, whole, &found)?;
        }
    }
    Ok(())
}
