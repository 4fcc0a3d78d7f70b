//! The walk over the tree of a text, which finds what is to be changed.

use crate::aspects::{inner_pragma, lower_pragma};
use crate::cases::complete;
use crate::endings::name_end;
use crate::functions::{expression_function, null_procedure};
use crate::labels::leave_out_label;
use crate::names::separate;
use crate::numbers::lower_number;
use crate::returns::return_condition;
use ada2012_lexer::Span;
use ada2012_tree::{
    Alternative, Body, Branch, Clause, Component, Declaration, Formal, Handler, Name, Package,
    PackageBody, Program, ProtectedDeclaration, ProtectedItem, Specification, Statement,
    TaskDeclaration, TypeDefinition, Unit, UnitItem, UnitSubprogram,
};
use lowering_text::Changes;
use lowering_units::{attach, is_attachment, lower_occurrence, lower_raise};
use std::alloc::AllocError;

fn lower_formals(changes: &mut Changes<'_>, formals: &[Formal]) -> Result<(), AllocError> {
    for formal in formals {
        separate(changes, &formal.names, formal.span, ";".as_bytes())?;
    }
    Ok(())
}

fn lower_components(changes: &mut Changes<'_>, components: &[Component]) -> Result<(), AllocError> {
    for component in components {
        separate(changes, &component.names, component.span, &[])?;
    }
    Ok(())
}

fn lower_task(changes: &mut Changes<'_>, task: &TaskDeclaration) -> Result<(), AllocError> {
    lower_formals(changes, &task.discriminants)?;
    for pragma in task.pragmas.as_slice() {
        inner_pragma(changes, task.name.span.end_, &task.aspects, pragma)?;
    }
    name_end(changes, task.span, task.name.span)
}

fn lower_protected_item(
    changes: &mut Changes<'_>,
    object: &ProtectedDeclaration,
    item: &ProtectedItem,
) -> Result<(), AllocError> {
    match item {
        ProtectedItem::Subprogram(_, specification, _) => lower_formals(
            changes,
            &specification.formals,
        ),
        ProtectedItem::Entry(_, _, formals, _) => lower_formals(changes, formals),
        ProtectedItem::Component(component) => {
            separate(changes, &component.names, component.span, &[])
        }
        ProtectedItem::Pragma(pragma) if is_attachment(pragma) => attach(changes, object, pragma),
        ProtectedItem::Pragma(pragma) => {
            inner_pragma(changes, object.name.span.end_, &object.aspects, pragma)
        }
    }
}

fn lower_protected(
    changes: &mut Changes<'_>,
    object: &ProtectedDeclaration,
) -> Result<(), AllocError> {
    lower_formals(changes, &object.discriminants)?;
    for item in object.visible.as_slice() {
        lower_protected_item(changes, object, item)?;
    }
    for item in object.hidden.as_slice() {
        lower_protected_item(changes, object, item)?;
    }
    name_end(changes, object.span, object.name.span)
}

// A declaration that may be in a specification as well as in a body, and has none within.
fn lower_simple(changes: &mut Changes<'_>, declaration: &Declaration) -> Result<(), AllocError> {
    match declaration {
        Declaration::Object(object) => separate(changes, &object.names, object.span, &[]),
        Declaration::Number(span, names, value) => lower_number(changes, *span, names, value),
        Declaration::Exception(span, names) => separate(changes, names, *span, &[]),
        Declaration::Type(own) => {
            lower_formals(changes, &own.discriminants)?;
            match &own.definition {
                TypeDefinition::Record(components) => lower_components(changes, components),
                _ => Ok(()),
            }
        }
        Declaration::Subprogram(_, specification, _) => lower_formals(
            changes,
            &specification.formals,
        ),
        Declaration::Task(task) => lower_task(changes, task),
        Declaration::Protected(object) => lower_protected(changes, object),
        Declaration::Pragma(pragma) => lower_pragma(changes, pragma, &[]),
        _ => Ok(()),
    }
}

// A function by an expression, or a null procedure, in a body.
fn lower_completed(changes: &mut Changes<'_>, declaration: &Declaration) -> Result<(), AllocError> {
    match declaration {
        Declaration::NullProcedure(_, specification, aspects) => {
            lower_formals(changes, &specification.formals)?;
            if aspects.is_empty() {
                null_procedure(changes, specification)?;
            }
            Ok(())
        }
        Declaration::ExpressionFunction(_, specification, value, aspects) => {
            lower_formals(changes, &specification.formals)?;
            if aspects.is_empty() {
                expression_function(changes, specification, value)?;
            }
            Ok(())
        }
        _ => lower_simple(changes, declaration),
    }
}

// A subprogram with its body.
#[cycle(statement)]
fn lower_subprogram(
    changes: &mut Changes<'_>,
    span: Span,
    specification: &Specification,
    body: &Body,
) -> Result<(), AllocError> {
    lower_formals(changes, &specification.formals)?;
    if specification.result.is_some() {
        return_condition(changes, body)?;
    }
    lower_body(changes, body)?;
    name_end(changes, span, specification.name.span)
}

#[cycle(statement)]
fn lower_declaration(
    changes: &mut Changes<'_>,
    declaration: &Declaration,
) -> Result<(), AllocError> {
    match declaration {
        Declaration::SubprogramBody(span, specification, _, body) => {
            lower_subprogram(changes, *span, specification, body)
        }
        Declaration::TaskBody(span, name, body) => {
            lower_body(changes, body)?;
            name_end(changes, *span, name.span)
        }
        Declaration::ProtectedBody(span, name, items) => {
            lower_declarations(changes, items)?;
            name_end(changes, *span, name.span)
        }
        Declaration::EntryBody(span, name, formals, _, body) => {
            lower_formals(changes, formals)?;
            lower_body(changes, body)?;
            name_end(changes, *span, name.span)
        }
        _ => lower_completed(changes, declaration),
    }
}

#[cycle(statement)]
fn lower_declarations(
    changes: &mut Changes<'_>,
    declarations: &[Declaration],
) -> Result<(), AllocError> {
    for declaration in declarations {
        lower_declaration(changes, declaration)?;
    }
    Ok(())
}

#[cycle(statement)]
fn lower_branches(changes: &mut Changes<'_>, branches: &[Branch]) -> Result<(), AllocError> {
    for branch in branches {
        lower_statements(changes, &branch.statements)?;
    }
    Ok(())
}

#[cycle(statement)]
fn lower_alternatives(
    changes: &mut Changes<'_>,
    alternatives: &[Alternative],
) -> Result<(), AllocError> {
    for alternative in alternatives {
        lower_statements(changes, &alternative.statements)?;
    }
    Ok(())
}

#[cycle(statement)]
fn lower_handlers(changes: &mut Changes<'_>, handlers: &[Handler]) -> Result<(), AllocError> {
    for handler in handlers {
        lower_occurrence(changes, handler)?;
        lower_statements(changes, &handler.statements)?;
    }
    Ok(())
}

#[cycle(statement)]
fn lower_statement(changes: &mut Changes<'_>, statement: &Statement) -> Result<(), AllocError> {
    match statement {
        Statement::Pragma(pragma) => lower_pragma(changes, pragma, "null;".as_bytes()),
        Statement::Raise(_, Some(name), Some(message)) => lower_raise(changes, name, message),
        Statement::If(_, branches, other) => {
            lower_branches(changes, branches)?;
            lower_statements(changes, other)
        }
        Statement::Case(span, _, alternatives) => {
            complete(changes, *span, alternatives)?;
            lower_alternatives(changes, alternatives)
        }
        Statement::Loop(span, name, _, statements) => {
            if let Some(name) = name {
                leave_out_label(changes, *span, name)?;
            }
            lower_statements(changes, statements)
        }
        Statement::Block(span, name, body) => {
            if let Some(name) = name {
                leave_out_label(changes, *span, name)?;
            }
            lower_body(changes, body)
        }
        _ => Ok(()),
    }
}

#[cycle(statement)]
fn lower_statements(changes: &mut Changes<'_>, statements: &[Statement]) -> Result<(), AllocError> {
    for statement in statements {
        lower_statement(changes, statement)?;
    }
    Ok(())
}

#[cycle(statement)]
fn lower_body(changes: &mut Changes<'_>, body: &Body) -> Result<(), AllocError> {
    lower_declarations(changes, &body.declarations)?;
    lower_statements(changes, &body.statements)?;
    lower_handlers(changes, &body.handlers)
}

fn lower_package(changes: &mut Changes<'_>, package: &Package) -> Result<(), AllocError> {
    for declaration in package.visible.as_slice() {
        lower_simple(changes, declaration)?;
    }
    for declaration in package.hidden.as_slice() {
        lower_simple(changes, declaration)?;
    }
    name_end(changes, package.span, package.name.span)
}

fn lower_package_body(changes: &mut Changes<'_>, package: &PackageBody) -> Result<(), AllocError> {
    lower_body(changes, &package.body)?;
    name_end(changes, package.span, package.name.span)
}

// A subprogram that is a unit: main, whose pragma says its priority.
fn lower_main(changes: &mut Changes<'_>, main: &UnitSubprogram) -> Result<(), AllocError> {
    for declaration in main.body.declarations.as_slice() {
        if let Declaration::Pragma(pragma) = declaration {
            inner_pragma(
                changes,
                main.specification.name.span.end_,
                &main.aspects,
                pragma,
            )?;
        }
    }
    lower_subprogram(changes, main.span, &main.specification, &main.body)
}

// Leaves out a clause that names package System alone.
fn lower_clause(changes: &mut Changes<'_>, span: Span, names: &[Name]) -> Result<(), AllocError> {
    let [name] = names else {
        return Ok(());
    };
    if name.prefix.name.as_bytes() == "SYSTEM".as_bytes() && name.selectors.is_empty() {
        changes.write(span, &[])?;
    }
    Ok(())
}

fn lower_clauses(changes: &mut Changes<'_>, clauses: &[Clause]) -> Result<(), AllocError> {
    for clause in clauses {
        match clause {
            Clause::With(span, names) => lower_clause(changes, *span, names)?,
            Clause::Use(own) => lower_clause(changes, own.span, &own.names)?,
            Clause::Pragma(pragma) => lower_pragma(changes, pragma, &[])?,
        }
    }
    Ok(())
}

fn lower_unit(changes: &mut Changes<'_>, unit: &Unit) -> Result<(), AllocError> {
    lower_clauses(changes, &unit.clauses)?;
    match &unit.item {
        UnitItem::Package(package) => lower_package(changes, package),
        UnitItem::PackageBody(package) => lower_package_body(changes, package),
        UnitItem::Subprogram(main) => lower_main(changes, main),
    }
}

/// What is to be changed in the units of a text.
pub(crate) fn lower_program(
    changes: &mut Changes<'_>,
    program: &Program,
) -> Result<(), AllocError> {
    for unit in program.units.as_slice() {
        lower_unit(changes, unit)?;
    }
    Ok(())
}
