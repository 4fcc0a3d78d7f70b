//! Calls with named actual parameters, and with fewer than there are formal ones (RM 6.4.1): all by place.

use ada2012_lexer::Span;
use ada2012_names::{Entity, EntityId};
use ada2012_tree::{Association, Choice, Identifier, Name, Selector};
use base::Text;
use lowering_text::{Changes, Whole, after, is_called, name_of};
use std::alloc::AllocError;

// The identifier by which an actual parameter is named, if it is.
fn named_formal(actual: &Association) -> Option<&Identifier> {
    let [Choice::Value(value)] = actual.choices.as_slice() else {
        return None;
    };
    match name_of(value) {
        Some(name) if name.selectors.is_empty() => Some(&name.prefix),
        _ => None,
    }
}

fn is_named(actual: &Association, formal: &Text) -> bool {
    match named_formal(actual) {
        Some(identifier) => identifier.name.as_bytes() == formal.as_bytes(),
        None => false,
    }
}

// A call: the entity that is called, its actual parameters, and the bytes that these take with their parentheses.
#[derive(Clone, Copy)]
struct Call<'b> {
    callee: EntityId,
    actuals: &'b [Association],
    span: Span,
}

// The value of a formal parameter in a call.
#[derive(Clone, Copy)]
enum Given {
    // The actual parameter of this number.
    Actual(usize),
    // The default with this span.
    Default(Span),
}

// The first call in a name.
fn call_in<'b>(whole: &Whole<'_>, name: &'b Name) -> Option<Call<'b>> {
    let mut last = name.prefix.span;
    for selector in name.selectors.as_slice() {
        match selector {
            Selector::Component(_, identifier) => last = identifier.span,
            Selector::Arguments(span, actuals) => {
                let callee = whole.denoted(last)?;
                if !whole.is_callable(callee) {
                    return None;
                }
                return Some(Call {
                    callee,
                    actuals,
                    span: *span,
                });
            }
            _ => return None,
        }
    }
    bare_call(whole, last, name.span)
}

// The call without actual parameters of what has formal ones, which a name is that ends with this identifier.
fn bare_call<'b>(whole: &Whole<'_>, last: Span, name: Span) -> Option<Call<'b>> {
    let callee = whole.denoted(last)?;
    if !whole.is_callable(callee) {
        return None;
    }
    whole.names.part_at(callee, 0)?;
    Some(Call {
        callee,
        actuals: &[],
        span: after(name),
    })
}

// Is there no other entity with the name of this one?
fn is_only(whole: &Whole<'_>, entity: &Entity) -> bool {
    let Some(name) = &entity.name else {
        return false;
    };
    whole
        .names
        .entities()
        .iter()
        .filter(|other| is_called(other, name))
        .count()
        == 1
}

fn denotes_only(whole: &Whole<'_>, span: Span) -> bool {
    match whole.denoted(span) {
        Some(id) => match whole.names.entity(id) {
            Some(entity) => is_only(whole, entity),
            None => false,
        },
        None => false,
    }
}

// Does what has this span mean the same elsewhere? Each of its names is that of one entity alone.
fn is_the_same_elsewhere(whole: &Whole<'_>, span: Span) -> bool {
    whole.names.uses().iter().all(|use_| {
        use_.span.start < span.start
            || span.end_ <= use_.span.start
            || denotes_only(whole, use_.span)
    })
}

// The default of a formal parameter, if it means the same elsewhere.
fn default_of(whole: &Whole<'_>, formal: &Entity) -> Option<Span> {
    for own in whole.parts.formals.as_slice() {
        let [name] = own.names.as_slice() else {
            continue;
        };
        if name.span.start == formal.span.start && formal.predefined.is_none() {
            return match &own.default {
                Some(value) if is_the_same_elsewhere(whole, value.span) => Some(value.span),
                _ => None,
            };
        }
    }
    None
}

// What the formal parameter in this place has in a call.
fn actual_given(whole: &Whole<'_>, call: &Call<'_>, place: usize) -> Option<Given> {
    let formal = whole
        .names
        .entity(whole.names.part_at(call.callee, place)?)?;
    if let Some(actual) = call.actuals.get(place) {
        if actual.choices.is_empty() {
            return Some(Given::Actual(place));
        }
    }
    let Some(name) = &formal.name else {
        return None;
    };
    match call
        .actuals
        .iter()
        .position(|actual| is_named(actual, name))
    {
        Some(number) => Some(Given::Actual(number)),
        None => Some(Given::Default(default_of(whole, formal)?)),
    }
}

/// How many formal parameters there are.
pub(crate) fn count_formals(whole: &Whole<'_>, callee: EntityId) -> usize {
    let mut count = 0;
    for place in 0..whole.names.entities().len() {
        if whole.names.part_at(callee, place).is_none() {
            return count;
        }
        count = place + 1;
    }
    count
}

// Has each formal parameter in this place the actual one in the same place?
fn is_in_order(whole: &Whole<'_>, call: &Call<'_>) -> bool {
    for place in 0..call.actuals.len() {
        match actual_given(whole, call, place) {
            Some(Given::Actual(number)) if number == place => {}
            _ => return false,
        }
    }
    true
}

fn count_of_calls(whole: &Whole<'_>, actuals: &[Association]) -> usize {
    actuals
        .iter()
        .filter(|actual| whole.may_call(actual.value.span))
        .count()
}

fn is_by_name(actual: &Association) -> bool {
    !actual.choices.is_empty()
}

// Leaves out the names of formal parameters.
fn leave_out_names(changes: &mut Changes<'_>, actuals: &[Association]) -> Result<(), AllocError> {
    for actual in actuals {
        if is_by_name(actual) {
            let name = Span {
                start: actual.span.start,
                end_: actual.value.span.start,
            };
            changes.write(name, &[])?;
        }
    }
    Ok(())
}

// The actual parameters and defaults in the order of the formal ones, none where one of these has neither.
fn in_order(
    changes: &Changes<'_>,
    whole: &Whole<'_>,
    call: &Call<'_>,
) -> Result<Option<Vec<u8>>, AllocError> {
    let mut words = Vec::new(changes.alloc);
    if call.actuals.is_empty() {
        words.push(b' ')?;
    }
    for place in 0..count_formals(whole, call.callee) {
        let begin = if place == 0 { "(" } else { ", " };
        words.extend_from_slice(begin.as_bytes())?;
        match actual_given(whole, call, place) {
            Some(Given::Actual(number)) => match call.actuals.get(number) {
                Some(actual) => changes.source.copy(actual.value.span, &mut words)?,
                None => return Ok(None),
            },
            Some(Given::Default(span)) => changes.source.copy(span, &mut words)?,
            None => return Ok(None),
        }
    }
    words.push(b')')?;
    Ok(Some(words))
}

fn lower_call(
    changes: &mut Changes<'_>,
    whole: &Whole<'_>,
    call: &Call<'_>,
) -> Result<(), AllocError> {
    let count = count_formals(whole, call.callee);
    if count < call.actuals.len() {
        return Ok(());
    }
    let is_whole = call.actuals.len() == count;
    if is_whole && !call.actuals.iter().any(is_by_name) {
        return Ok(());
    }
    if is_whole && is_in_order(whole, call) {
        return leave_out_names(changes, call.actuals);
    }
    if !is_in_order(whole, call) && count_of_calls(whole, call.actuals) > 1 {
        return Ok(());
    }
    match in_order(changes, whole, call)? {
        Some(words) => changes.replace(call.span, words, None),
        None => Ok(()),
    }
}

/// Calls whose actual parameters aren't all given by place. Where two of those that change places may be calls, they stay.
pub fn lower_calls(changes: &mut Changes<'_>, whole: &Whole<'_>) -> Result<(), AllocError> {
    for name in whole.parts.names.as_slice() {
        if let Some(call) = call_in(whole, name) {
            lower_call(changes, whole, &call)?;
        }
    }
    Ok(())
}
