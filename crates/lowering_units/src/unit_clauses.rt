//! Clauses of units (RM 8.4, 10.1.2): pairs before the one package for what is no package of the text, and one for main.

use crate::units::{Layout, is_of_text, package_span};
use ada2012_lexer::Span;
use ada2012_names::{Denoted, EntityId, EntityKind, Predefined};
use ada2012_tree::{Clause, Declaration, Identifier, Name, Unit};
use lowering_text::{Changes, Whole, are_same, are_same_names, last_identifier};
use std::alloc::{AllocError, Global};

// The bytes of a with or a use clause.
fn clause_span(clause: &Clause) -> Option<Span> {
    match clause {
        Clause::With(span, _) => Some(*span),
        Clause::Use(own) => Some(own.span),
        Clause::Pragma(_) => None,
    }
}

// The name in a with clause and in the use clause after it, where these are the first ones.
fn pair(clauses: &[Clause]) -> Option<&Name> {
    let [Clause::With(_, withs), Clause::Use(use_), ..] = clauses else {
        return None;
    };
    let [name] = withs.as_slice() else {
        return None;
    };
    let [used] = use_.names.as_slice() else {
        return None;
    };
    if use_.types || !are_same_names(name, used) {
        return None;
    }
    Some(name)
}

fn has_name(names: &[&Name], name: &Name) -> bool {
    names.iter().any(|own| are_same_names(own, name))
}

// Is it package System, whose names the language hasn't?
fn is_system(name: &Name) -> bool {
    name.prefix.name.as_bytes() == "SYSTEM".as_bytes() && name.selectors.is_empty()
}

// Does a use of a name denote what this unit declares?
fn is_within(whole: &Whole<'_>, unit: EntityId, denoted: Denoted) -> bool {
    match denoted {
        Denoted::Entity(id) => {
            whole.names.within(id) == Some(unit)
                && !matches!(whole.names.kind_of(id), Some(EntityKind::Package))
        }
        _ => false,
    }
}

// Is a unit one of the language, or is anything of it used?
fn is_used(whole: &Whole<'_>, name: &Name) -> bool {
    let Some(last) = last_identifier(name) else {
        return true;
    };
    let Some(unit) = whole.denoted(last.span) else {
        return true;
    };
    if matches!(
        whole.names.predefined(unit),
        Some(Predefined::RealTime | Predefined::ControlIo)
    ) {
        return true;
    }
    whole
        .names
        .uses()
        .iter()
        .any(|use_| is_within(whole, unit, use_.denoted))
}

// Adds the names of with clauses that have to be before the one package.
fn add_names<'a>(
    whole: &Whole<'_>,
    layout: &Layout<'_>,
    unit: &'a Unit,
    names: &mut Vec<&'a Name>,
) -> Result<(), AllocError> {
    for clause in unit.clauses.as_slice() {
        if let Clause::With(_, withs) = clause {
            for name in withs {
                if !is_of_text(layout, name)
                    && !is_system(name)
                    && !has_name(names, name)
                    && is_used(whole, name)
                {
                    names.push(name)?;
                }
            }
        }
    }
    Ok(())
}

// The units that are no packages of the text and have to be before the one package.
fn units_before<'a>(
    alloc: Global,
    whole: &Whole<'_>,
    layout: &Layout<'a>,
) -> Result<Vec<&'a Name>, AllocError> {
    let mut names = Vec::new(alloc);
    for unit in layout.packages {
        add_names(whole, layout, unit, &mut names)?;
    }
    add_names(whole, layout, layout.main, &mut names)?;
    Ok(names)
}

// Leaves out a with or a use clause.
fn leave_out_clause(changes: &mut Changes<'_>, clause: &Clause) -> Result<(), AllocError> {
    match clause_span(clause) {
        Some(span) => changes.write(span, &[]),
        None => Ok(()),
    }
}

fn leave_out_clauses(changes: &mut Changes<'_>, unit: &Unit) -> Result<(), AllocError> {
    for clause in unit.clauses.as_slice() {
        leave_out_clause(changes, clause)?;
    }
    Ok(())
}

// Leaves out the clauses of the first package but for pairs of these names, which are those that it gives.
fn keep_pairs<'b>(
    changes: &mut Changes<'_>,
    unit: &'b Unit,
    names: &[&Name],
) -> Result<Vec<&'b Name>, AllocError> {
    let mut kept = Vec::new(changes.alloc);
    let mut follows = false;
    let clauses = unit.clauses.as_slice();
    for (number, clause) in clauses.iter().enumerate() {
        let found = match clauses.get(number..) {
            Some(rest) => pair(rest),
            None => None,
        };
        match found {
            _ if follows => follows = false,
            Some(name) if has_name(names, name) && !has_name(&kept, name) => {
                kept.push(name)?;
                follows = true;
            }
            _ => leave_out_clause(changes, clause)?,
        }
    }
    Ok(kept)
}

// Writes pairs of these names before the first package.
fn add_pairs(
    changes: &mut Changes<'_>,
    place: u32,
    names: &[&Name],
    kept: &[&Name],
) -> Result<(), AllocError> {
    let mut words = Vec::new(changes.alloc);
    for name in names {
        if !has_name(kept, name) {
            words.extend_from_slice("with ".as_bytes())?;
            changes.source.copy(name.span, &mut words)?;
            words.extend_from_slice("; use ".as_bytes())?;
            changes.source.copy(name.span, &mut words)?;
            words.extend_from_slice("; ".as_bytes())?;
        }
    }
    if words.is_empty() {
        return Ok(());
    }
    changes.replace(
        Span {
            start: place,
            end_: place,
        },
        words,
        None,
    )
}

// Writes `with NAME;` for the one package in the place of a clause, where it isn't written yet.
fn main_clause(
    changes: &mut Changes<'_>,
    clause: &Clause,
    span: Span,
    name: &Identifier,
) -> Result<(), AllocError> {
    if let Clause::With(_, withs) = clause {
        if let [own] = withs.as_slice() {
            if are_same(&own.prefix, name) && own.selectors.is_empty() {
                return Ok(());
            }
        }
    }
    let mut words = Vec::new(changes.alloc);
    words.extend_from_slice("with ".as_bytes())?;
    changes.source.copy(name.span, &mut words)?;
    words.extend_from_slice(";".as_bytes())?;
    changes.replace(span, words, None)
}

// Leaves of the clauses before main one for the one package.
fn main_clauses(
    changes: &mut Changes<'_>,
    main: &Unit,
    name: &Identifier,
) -> Result<(), AllocError> {
    let mut is_written = false;
    for clause in main.clauses.as_slice() {
        match clause {
            Clause::With(span, _) if !is_written => {
                main_clause(changes, clause, *span, name)?;
                is_written = true;
            }
            _ => leave_out_clause(changes, clause)?,
        }
    }
    Ok(())
}

/// Leaves the clauses that the language has before the one package and main, and leaves out those in bodies.
pub(crate) fn unit_clauses(
    changes: &mut Changes<'_>,
    whole: &Whole<'_>,
    layout: &Layout<'_>,
) -> Result<(), AllocError> {
    let names = units_before(changes.alloc, whole, layout)?;
    let [first, later @ ..] = layout.packages else {
        return Ok(());
    };
    let kept = keep_pairs(changes, first, &names)?;
    add_pairs(changes, package_span(first).start, &names, &kept)?;
    for unit in later {
        leave_out_clauses(changes, unit)?;
    }
    main_clauses(changes, layout.main, layout.name)?;
    for declaration in whole.parts.declarations.as_slice() {
        if let Declaration::Use(clause) = declaration {
            changes.write(clause.span, &[])?;
        }
    }
    Ok(())
}
