//! Statements of the body of a package (RM 7.2): those of a procedure that main calls before all else.

use crate::starts::{declare_procedure, end_of, first_priority, start_in_main};
use ada2012_tree::{Package, PackageBody, UnitItem, UnitSubprogram};
use lexer::Word;
use lowering_text::{Changes, Whole, are_same_names, declaration_span};
use std::alloc::AllocError;

// The body that has statements, where it is the only one.
fn body_with_statements<'a>(whole: &Whole<'a>) -> Option<&'a PackageBody> {
    let mut found = None;
    for unit in whole.program.units.as_slice() {
        if let UnitItem::PackageBody(body) = &unit.item {
            if !body.body.statements.is_empty() {
                if found.is_some() {
                    return None;
                }
                found = Some(body);
            }
        }
    }
    found
}

// The specification of a package.
fn specification_of<'a>(whole: &Whole<'a>, body: &PackageBody) -> Option<&'a Package> {
    for unit in whole.program.units.as_slice() {
        if let UnitItem::Package(package) = &unit.item {
            if are_same_names(&body.name, &package.name) {
                return Some(package);
            }
        }
    }
    None
}

// Main, where it is the last unit and declares nothing.
fn plain_main<'a>(whole: &Whole<'a>) -> Option<&'a UnitSubprogram> {
    let [.., last] = whole.program.units.as_slice() else {
        return None;
    };
    match &last.item {
        UnitItem::Subprogram(main) if main.body.declarations.is_empty() => Some(main),
        _ => None,
    }
}

// Where the visible part of a package ends.
fn visible_end(changes: &Changes<'_>, package: &Package) -> Option<u32> {
    let from = match package.visible.last() {
        Some(last) => declaration_span(last).end_,
        None => changes
            .source
            .word_from(package.name.span.end_, Word::Is)?
            .end_,
    };
    Some(changes.source.token_from(from)?.start)
}

// The statements of a body as those of a procedure, which main calls.
fn elaborate(
    changes: &mut Changes<'_>,
    package: &Package,
    body: &PackageBody,
    main: &UnitSubprogram,
    priority: i64,
) -> Result<(), AllocError> {
    let (Some(begin), Some(end)) = (changes.begin_of(&body.body), end_of(changes, body.span)) else {
        return Ok(());
    };
    let Some(declared) = visible_end(changes, package) else {
        return Ok(());
    };
    let name = changes
        .source
        .fresh_word(changes.alloc, "Start".as_bytes(), &[])?;
    declare_procedure(changes, declared, &name)?;
    let head = changes.joined(&[b"procedure ", name.as_slice(), b" is begin"])?;
    changes.replace(begin, head, None)?;
    let tail = changes.joined(&[b"end ", name.as_slice(), b"; "])?;
    changes.insert(end, &tail)?;
    start_in_main(changes, package, main, &name, priority)
}

/// The statements of the only body of a package that has any, where main can call them before all tasks.
pub fn lower_elaborations(changes: &mut Changes<'_>, whole: &Whole<'_>) -> Result<(), AllocError> {
    let Some(body) = body_with_statements(whole) else {
        return Ok(());
    };
    let (Some(package), Some(main)) = (specification_of(whole, body), plain_main(whole)) else {
        return Ok(());
    };
    match first_priority(whole, main) {
        Some(priority) => elaborate(changes, package, body, main, priority),
        None => Ok(()),
    }
}
