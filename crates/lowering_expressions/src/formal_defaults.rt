//! Default values of formal parameters (RM 6.1), which no call needs any more.

use crate::calls::count_formals;
use ada2012_lexer::Span;
use ada2012_names::{Denoted, EntityId};
use ada2012_tree::{Formal, Name, Selector};
use lowering_text::{Changes, Whole, leading_identifier, span_of};
use std::alloc::AllocError;

// Is a name that ends with this identifier a call with so many actual parameters, all by place?
fn is_complete(name: &Name, identifier: Span, count: usize) -> bool {
    let (last, place) = leading_identifier(name);
    match name.selectors.get(place) {
        Some(Selector::Arguments(_, actuals)) => {
            last == identifier
                && actuals.len() == count
                && actuals.iter().all(|actual| actual.choices.is_empty())
        }
        _ => false,
    }
}

fn has_default(formals: &[Formal]) -> bool {
    formals.iter().any(|formal| formal.default.is_some())
}

// Is a use of the name of a subprogram one in its declaration or body, or a call with all actual parameters?
fn is_complete_use(whole: &Whole<'_>, use_: Span, count: usize) -> bool {
    whole
        .parts
        .specifications
        .iter()
        .any(|specification| specification.name.span == use_)
        || whole
            .parts
            .names
            .iter()
            .any(|name| is_complete(name, use_, count))
}

// May a use of a name be one of a subprogram that can't be told?
fn may_denote(whole: &Whole<'_>, denoted: Denoted, callee: EntityId) -> bool {
    let Denoted::Ambiguous(other) = denoted else {
        return false;
    };
    match (whole.names.entity(other), whole.names.entity(callee)) {
        (Some(other), Some(callee)) => match (&other.name, &callee.name) {
            (Some(other), Some(name)) => other.as_bytes() == name.as_bytes(),
            _ => true,
        },
        _ => true,
    }
}

// Has each call of a subprogram all actual parameters?
fn are_complete(whole: &Whole<'_>, callee: EntityId) -> bool {
    let count = count_formals(whole, callee);
    whole.names.uses().iter().all(|use_| {
        if use_.denoted == Denoted::Entity(callee) {
            is_complete_use(whole, use_.span, count)
        } else {
            !may_denote(whole, use_.denoted, callee)
        }
    })
}

fn leave_out_formal_defaults(
    changes: &mut Changes<'_>,
    formals: &[Formal],
) -> Result<(), AllocError> {
    for formal in formals {
        if let Some(value) = &formal.default {
            if let Some(mark) = changes.source.token_before(value.span.start) {
                changes.write(span_of(mark), &[])?;
            }
            changes.write(value.span, &[])?;
        }
    }
    Ok(())
}

/// Default values of the formal parameters of subprograms of which each call has all actual ones.
pub fn lower_formal_defaults(
    changes: &mut Changes<'_>,
    whole: &Whole<'_>,
) -> Result<(), AllocError> {
    for specification in whole.parts.specifications.as_slice() {
        if has_default(&specification.formals) {
            match whole.declared(specification.name.span) {
                Some(id) if are_complete(whole, id) => {
                    leave_out_formal_defaults(changes, &specification.formals)?
                }
                _ => {}
            }
        }
    }
    Ok(())
}
