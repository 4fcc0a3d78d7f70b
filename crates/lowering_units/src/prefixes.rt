//! Prefixes that name packages (RM 4.1.3): left out where all is in one package, and written where main calls its procedures.

use crate::units::{Layout, package_head, package_span};
use ada2012_lexer::Span;
use ada2012_names::{Denoted, EntityId, EntityKind, Use};
use ada2012_tree::{Clause, Declaration, Identifier, Unit};
use lowering_text::{Changes, Whole, begins_in, is_name};
use std::alloc::{AllocError, Global};

fn is_package(whole: &Whole<'_>, id: EntityId) -> bool {
    matches!(whole.names.kind_of(id), Some(EntityKind::Package))
}

// Is it declared in a package of the text?
fn is_in_package(whole: &Whole<'_>, id: EntityId) -> bool {
    match whole.names.within(id) {
        Some(owner) => is_package(whole, owner) && whole.names.predefined(owner).is_none(),
        None => false,
    }
}

fn add_clauses(unit: &Unit, spans: &mut Vec<Span>) -> Result<(), AllocError> {
    for clause in unit.clauses.as_slice() {
        match clause {
            Clause::With(span, _) => spans.push(*span)?,
            Clause::Use(own) => spans.push(own.span)?,
            Clause::Pragma(_) => {}
        }
    }
    Ok(())
}

// Where names of units are that are no prefixes: clauses, and the first words of packages.
fn names_of_units(
    changes: &Changes<'_>,
    alloc: Global,
    whole: &Whole<'_>,
    layout: &Layout<'_>,
) -> Result<Vec<Span>, AllocError> {
    let mut spans = Vec::new(alloc);
    for unit in layout.packages {
        add_clauses(unit, &mut spans)?;
        if let Some(head) = package_head(changes, unit) {
            spans.push(head)?;
        }
    }
    add_clauses(layout.main, &mut spans)?;
    for declaration in whole.parts.declarations.as_slice() {
        if let Declaration::Use(clause) = declaration {
            spans.push(clause.span)?;
        }
    }
    Ok(spans)
}

// Leaves out a prefix with its dot.
fn leave_out_prefix(changes: &mut Changes<'_>, prefix: Span) -> Result<(), AllocError> {
    match changes.source.dot_from(prefix.end_) {
        Some(dot) => changes.write(
            Span {
                start: prefix.start,
                end_: dot.end_,
            },
            &[],
        ),
        None => Ok(()),
    }
}

// Writes the name of the one package in the place of a prefix in main.
fn main_prefix(
    changes: &mut Changes<'_>,
    prefix: Span,
    name: &Identifier,
) -> Result<(), AllocError> {
    match changes.source.token_from(prefix.start) {
        Some(token) if is_name(token, &name.name) => Ok(()),
        _ => {
            let mut words = Vec::new(changes.alloc);
            changes.source.copy(name.span, &mut words)?;
            changes.replace(prefix, words, None)
        }
    }
}

// What a use of a name in main becomes, where there is one package.
fn use_in_main(
    changes: &mut Changes<'_>,
    whole: &Whole<'_>,
    layout: &Layout<'_>,
    span: Span,
    id: EntityId,
) -> Result<(), AllocError> {
    let is_selected = changes.source.is_selected(span.start);
    if is_package(whole, id) {
        if is_selected || whole.names.predefined(id).is_some() {
            leave_out_prefix(changes, span)
        } else if changes.source.dot_from(span.end_).is_some() {
            main_prefix(changes, span, layout.name)
        } else {
            Ok(())
        }
    } else if !is_selected && is_in_package(whole, id) {
        let mut words = Vec::new(changes.alloc);
        changes.source.copy(layout.name.span, &mut words)?;
        words.push(b'.')?;
        changes.insert(span.start, &words)
    } else {
        Ok(())
    }
}

fn prefix(
    changes: &mut Changes<'_>,
    whole: &Whole<'_>,
    layout: &Layout<'_>,
    use_: &Use,
) -> Result<(), AllocError> {
    let Denoted::Entity(id) = use_.denoted else {
        return Ok(());
    };
    if begins_in(package_span(layout.main), use_.span) {
        use_in_main(changes, whole, layout, use_.span, id)
    } else if is_package(whole, id) {
        leave_out_prefix(changes, use_.span)
    } else {
        Ok(())
    }
}

/// Leaves out prefixes that are packages, but for those in main, which get the name of the one package.
pub(crate) fn prefixes(
    changes: &mut Changes<'_>,
    whole: &Whole<'_>,
    layout: &Layout<'_>,
) -> Result<(), AllocError> {
    let elsewhere = names_of_units(changes, changes.alloc, whole, layout)?;
    for use_ in whole.names.uses() {
        if !elsewhere.iter().any(|span| begins_in(*span, use_.span)) {
            prefix(changes, whole, layout, use_)?;
        }
    }
    Ok(())
}
