//! Several packages as one (RM 7.1, 7.2, 10.1): the words between them and their private parts are left out.

use crate::prefixes::prefixes;
use crate::unit_clauses::unit_clauses;
use ada2012_lexer::Span;
use ada2012_tree::{Identifier, Name, Package, PackageBody, Program, Unit, UnitItem};
use lexer::Word;
use lowering_text::{Changes, Whole, are_same, are_same_names, declaration_span, is_word, span_of};
use std::alloc::AllocError;

/// The units of a text of which one package and main are made.
#[derive(Clone, Copy)]
pub(crate) struct Layout<'a> {
    /// All packages, specifications and bodies.
    pub(crate) packages: &'a [Unit],
    pub(crate) main: &'a Unit,
    /// How many specifications are before the first body.
    pub(crate) specifications: usize,
    /// The name of the first package, which the one package has.
    pub(crate) name: &'a Identifier,
}

/// The name of a package, or of the package that a body completes.
fn package_name(unit: &Unit) -> Option<&Name> {
    match &unit.item {
        UnitItem::Package(package) => Some(&package.name),
        UnitItem::PackageBody(package) => Some(&package.name),
        UnitItem::Subprogram(_) => None,
    }
}

/// The bytes of a unit without its clauses.
pub(crate) fn package_span(unit: &Unit) -> Span {
    match &unit.item {
        UnitItem::Package(package) => package.span,
        UnitItem::PackageBody(package) => package.span,
        UnitItem::Subprogram(subprogram) => subprogram.span,
    }
}

fn is_body(unit: &Unit) -> bool {
    matches!(&unit.item, UnitItem::PackageBody(_))
}

// Has a body no statements, which the language's have not?
fn is_without_statements(body: &PackageBody) -> bool {
    body.body.statements.is_empty() && body.body.handlers.is_empty()
}

// Is it a package that can be a part of one?
fn can_be_joined(unit: &Unit) -> bool {
    match &unit.item {
        UnitItem::Package(_) => true,
        UnitItem::PackageBody(body) => is_without_statements(body),
        UnitItem::Subprogram(_) => false,
    }
}

/// The units of a text, if these are packages without statements and then main, and the first is no child.
pub(crate) fn layout_of(program: &Program) -> Option<Layout<'_>> {
    let [packages @ .., main] = program.units.as_slice() else {
        return None;
    };
    if !matches!(&main.item, UnitItem::Subprogram(_))
        || !packages.iter().all(|unit| can_be_joined(unit))
    {
        return None;
    }
    let name = package_name(packages.first()?)?;
    if !name.selectors.is_empty() {
        return None;
    }
    let specifications = match packages.iter().position(|unit| is_body(unit)) {
        Some(number) => number,
        None => packages.len(),
    };
    Some(Layout {
        packages,
        main,
        specifications,
        name: &name.prefix,
    })
}

/// Is this the name of a package of the text?
pub(crate) fn is_of_text(layout: &Layout<'_>, name: &Name) -> bool {
    layout.packages.iter().any(|unit| match package_name(unit) {
        Some(own) => are_same_names(own, name),
        None => false,
    })
}

/// The words of a package up to `is`.
pub(crate) fn package_head(changes: &Changes<'_>, unit: &Unit) -> Option<Span> {
    let name = package_name(unit)?;
    changes
        .source
        .head(package_span(unit).start, name.span.end_)
}

// Leaves out the words of all but the first package up to `is`, and those of all but the last from `end` on.
fn words_between(changes: &mut Changes<'_>, units: &[Unit]) -> Result<(), AllocError> {
    if let [_, later @ ..] = units {
        for unit in later {
            if let Some(head) = package_head(changes, unit) {
                changes.write(head, &[])?;
            }
        }
    }
    if let [earlier @ .., _] = units {
        for unit in earlier {
            if let Some(tail) = changes.source.tail(package_span(unit)) {
                changes.write(tail, &[])?;
            }
        }
    }
    Ok(())
}

// Writes these words, the name of the one package, and these words in the place of a span.
fn write_around(
    changes: &mut Changes<'_>,
    span: Span,
    before: &[u8],
    name: &Identifier,
    after: &[u8],
) -> Result<(), AllocError> {
    let mut words = Vec::new(changes.alloc);
    words.extend_from_slice(before)?;
    changes.source.copy(name.span, &mut words)?;
    words.extend_from_slice(after)?;
    changes.replace(span, words, None)
}

// Gives the last of some packages the name of the one package at its end.
fn last_end(
    changes: &mut Changes<'_>,
    units: &[Unit],
    name: &Identifier,
) -> Result<(), AllocError> {
    let Some(last) = units.last() else {
        return Ok(());
    };
    let Some(own) = package_name(last) else {
        return Ok(());
    };
    if are_same(&own.prefix, name) && own.selectors.is_empty() {
        return Ok(());
    }
    match changes.source.tail(package_span(last)) {
        Some(tail) => write_around(changes, tail, "end ".as_bytes(), name, ";".as_bytes()),
        None => Ok(()),
    }
}

// Begins the body of the one package where the first body does.
fn first_body(
    changes: &mut Changes<'_>,
    units: &[Unit],
    name: &Identifier,
) -> Result<(), AllocError> {
    let Some(first) = units.first() else {
        return Ok(());
    };
    let Some(own) = package_name(first) else {
        return Ok(());
    };
    if are_same(&own.prefix, name) && own.selectors.is_empty() {
        return Ok(());
    }
    match package_head(changes, first) {
        Some(head) => {
            write_around(
                changes,
                head,
                "package body ".as_bytes(),
                name,
                " is".as_bytes(),
            )
        }
        None => Ok(()),
    }
}

// Adds a body without anything where no package has one.
fn empty_body(
    changes: &mut Changes<'_>,
    units: &[Unit],
    name: &Identifier,
) -> Result<(), AllocError> {
    let Some(last) = units.last() else {
        return Ok(());
    };
    let end = package_span(last).end_;
    let mut words = Vec::new(changes.alloc);
    words.extend_from_slice(" package body ".as_bytes())?;
    changes.source.copy(name.span, &mut words)?;
    words.extend_from_slice(" is end ".as_bytes())?;
    changes.source.copy(name.span, &mut words)?;
    words.extend_from_slice(";".as_bytes())?;
    changes.replace(
        Span {
            start: end,
            end_: end,
        },
        words,
        None,
    )
}

// Leaves out the `private` of a package.
fn private_word(
    changes: &mut Changes<'_>,
    unit: &Unit,
    package: &Package,
) -> Result<(), AllocError> {
    let from = match package.visible.last() {
        Some(last) => declaration_span(last).end_,
        None => match package_head(changes, unit) {
            Some(head) => head.end_,
            None => return Ok(()),
        },
    };
    match changes.source.token_from(from) {
        Some(token) if is_word(token, Word::Private) => changes.write(span_of(token), &[]),
        _ => Ok(()),
    }
}

/// Makes one package of all, with the clauses before it and without prefixes, where the units of the text allow it.
pub fn lower_units(changes: &mut Changes<'_>, whole: &Whole<'_>) -> Result<(), AllocError> {
    let Some(layout) = layout_of(whole.program) else {
        return Ok(());
    };
    let Some(specifications) = layout.packages.get(..layout.specifications) else {
        return Ok(());
    };
    let Some(bodies) = layout.packages.get(layout.specifications..) else {
        return Ok(());
    };
    words_between(changes, specifications)?;
    words_between(changes, bodies)?;
    last_end(changes, specifications, layout.name)?;
    first_body(changes, bodies, layout.name)?;
    last_end(changes, bodies, layout.name)?;
    if bodies.is_empty() {
        empty_body(changes, specifications, layout.name)?;
    }
    for unit in layout.packages {
        if let UnitItem::Package(package) = &unit.item {
            private_word(changes, unit, package)?;
        }
    }
    unit_clauses(changes, whole, &layout)?;
    prefixes(changes, whole, &layout)
}
