//! Expression functions and null procedures in specifications of packages (RM 6.7, 6.8): declarations, and bodies in the body of the package.

use ada2012_lexer::Span;
use ada2012_tree::{Declaration, Package, PackageBody, Specification, UnitItem};
use lexer::Word;
use lowering_text::{Changes, Whole, are_same_names, span_of};
use std::alloc::AllocError;

// The body of a package.
fn body_of_package<'a>(whole: &Whole<'a>, package: &Package) -> Option<&'a PackageBody> {
    for unit in whole.program.units.as_slice() {
        if let UnitItem::PackageBody(body) = &unit.item {
            if are_same_names(&body.name, &package.name) {
                return Some(body);
            }
        }
    }
    None
}

// Moves what follows a specification up to a place into the body of the package, as this statement.
fn complete_in(
    changes: &mut Changes<'_>,
    body: &PackageBody,
    specification: &Specification,
    end: u32,
    statement: &[u8],
) -> Result<(), AllocError> {
    let (Some(begin), Some(is)) = (
        changes.source.word_from(body.name.span.end_, Word::Is),
        changes.source.word_from(specification.span.end_, Word::Is),
    ) else {
        return Ok(());
    };
    let head = changes.copied(specification.span)?;
    let words = changes.joined(&[
        b" ",
        head.as_slice(),
        b" is begin ",
        statement,
        b"; end ",
        changes.source.bytes(specification.name.span),
        b";",
    ])?;
    changes.insert(begin.end_, &words)?;
    changes.write(
        Span {
            start: is.start,
            end_: end,
        },
        &[],
    )
}

fn completion(
    changes: &mut Changes<'_>,
    body: &PackageBody,
    declaration: &Declaration,
) -> Result<(), AllocError> {
    match declaration {
        Declaration::ExpressionFunction(_, specification, value, aspects) if aspects.is_empty() => {
            let own = changes.copied(value.span)?;
            let statement = changes.joined(&[b"return ", own.as_slice()])?;
            complete_in(changes, body, specification, value.span.end_, &statement)
        }
        Declaration::NullProcedure(_, specification, aspects) if aspects.is_empty() => {
            match changes
                .source
                .word_from(specification.span.end_, Word::Null)
            {
                Some(null) => complete_in(
                    changes,
                    body,
                    specification,
                    span_of(null).end_,
                    "null".as_bytes(),
                ),
                None => Ok(()),
            }
        }
        _ => Ok(()),
    }
}

// The first such function or procedure of these declarations, where nothing was found before.
fn completions_of(
    changes: &mut Changes<'_>,
    body: &PackageBody,
    declarations: &[Declaration],
) -> Result<(), AllocError> {
    for declaration in declarations {
        if changes.requests.is_empty() {
            completion(changes, body, declaration)?;
        }
    }
    Ok(())
}

/// Expression functions and null procedures in the specification of a package that has a body: one in a round.
pub fn lower_completions(changes: &mut Changes<'_>, whole: &Whole<'_>) -> Result<(), AllocError> {
    for unit in whole.program.units.as_slice() {
        if let UnitItem::Package(package) = &unit.item {
            if let Some(body) = body_of_package(whole, package) {
                completions_of(changes, body, &package.visible)?;
                completions_of(changes, body, &package.hidden)?;
            }
        }
    }
    Ok(())
}
