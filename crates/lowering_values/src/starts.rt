//! Values of composite objects of packages and protected objects (RM 3.3.1, 9.4), which a procedure gives that main calls before any task runs.

use crate::first_of::is_first;
use ada2012_lexer::Span;
use ada2012_tree::{
    Aspect, Component, Declaration, Expr, Identifier, ObjectDeclaration, Package, PackageBody,
    ProtectedDeclaration, ProtectedItem, Statement, UnitItem, UnitSubprogram,
};
use itoa::Buffer;
use lexer::Word;
use lowering_calls::is_evaluated;
use lowering_text::{
    Changes, Known, Whole, is_aggregate, is_word, put_all, span_of, span_of_statement, value_of,
};
use std::alloc::{AllocError, Global};

// The priority of a task that has no aspect, and that of a protected object.
const TASK_PRIORITY: i64 = 15;

const CEILING: i64 = 30;

/// A composite component of a protected object, and its value.
#[derive(Clone, Copy)]
struct Composite<'a> {
    object: &'a ProtectedDeclaration,
    name: &'a Identifier,
    value: &'a Expr,
}

/// What is to be given values before tasks run, and the units in which that is said.
#[derive(Drop)]
struct Starts<'a> {
    objects: Vec<&'a ObjectDeclaration>,
    components: Vec<Composite<'a>>,
}

// The value of the aspect Priority, or this one where there is none.
fn priority_of(aspects: &[Aspect], other: i64) -> Option<i64> {
    for aspect in aspects {
        if aspect.name.name.as_bytes() == "PRIORITY".as_bytes() {
            return match value_of(aspect.value.as_ref()?) {
                Known::Value(value) => Some(value),
                _ => None,
            };
        }
    }
    Some(other)
}

fn are_null(statements: &[Statement]) -> bool {
    match statements {
        [statement] => matches!(statement, Statement::Null(_)),
        _ => false,
    }
}

// Is a value the one at which an object of this name starts?
fn is_start(whole: &Whole<'_>, name: &Identifier, value: &Expr) -> bool {
    let Some(id) = whole.declared(name.span) else {
        return false;
    };
    match whole.names.subtype_of(id) {
        Some(subtype) => is_first(whole, value, subtype),
        None => false,
    }
}

// The objects of packages whose value is evaluated before tasks run, and variables whose value is an aggregate.
fn add_objects<'a>(
    whole: &Whole<'a>,
    declarations: &'a [Declaration],
    objects: &mut Vec<&'a ObjectDeclaration>,
) -> Result<(), AllocError> {
    for declaration in declarations {
        if let Declaration::Object(object) = declaration {
            match &object.value {
                Some(value)
                    if is_evaluated(whole, value) || is_aggregate(value) && !object.constant => {
                    objects.push(object)?
                }
                _ => {}
            }
        }
    }
    Ok(())
}

// The components of a protected object whose value is an aggregate.
fn add_components<'a>(
    whole: &Whole<'a>,
    object: &'a ProtectedDeclaration,
    components: &mut Vec<Composite<'a>>,
) -> Result<(), AllocError> {
    for item in object.hidden.as_slice() {
        if let ProtectedItem::Component(component) = item {
            if let ([name], Some(value)) = (component.names.as_slice(), &component.value) {
                if is_aggregate(value) {
                    components.push(Composite {
                        object,
                        name,
                        value,
                    })?;
                }
            }
        }
    }
    Ok(())
}

// What is to be given values before tasks run.
fn composite_starts<'a>(whole: &Whole<'a>, alloc: Global) -> Result<Starts<'a>, AllocError> {
    let mut objects = Vec::new(alloc);
    for unit in whole.program.units.as_slice() {
        match &unit.item {
            UnitItem::Package(package) => {
                add_objects(whole, &package.visible, &mut objects)?;
                add_objects(whole, &package.hidden, &mut objects)?;
            }
            UnitItem::PackageBody(package) => {
                add_objects(whole, &package.body.declarations, &mut objects)?;
            }
            UnitItem::Subprogram(_) => {}
        }
    }
    let mut components = Vec::new(alloc);
    for declaration in whole.parts.declarations.as_slice() {
        if let Declaration::Protected(object) = declaration {
            add_components(whole, object, &mut components)?;
        }
    }
    Ok(Starts {
        objects,
        components,
    })
}

// The highest priority of a task, -1 where there is no task.
fn highest_priority(whole: &Whole<'_>) -> Option<i64> {
    let mut highest = -1;
    for declaration in whole.parts.declarations.as_slice() {
        if let Declaration::Task(task) = declaration {
            highest = highest.max(priority_of(&task.aspects, TASK_PRIORITY)?);
        }
    }
    Some(highest)
}

/// The priority at which main runs before all tasks: one above theirs that it gets, where it does nothing, else its own, where that is above theirs.
pub(crate) fn first_priority(whole: &Whole<'_>, main: &UnitSubprogram) -> Option<i64> {
    let highest = highest_priority(whole)?;
    if are_null(&main.body.statements) && main.aspects.is_empty() {
        return if highest < CEILING {
            highest.max(0).checked_add(1)
        } else {
            None
        };
    }
    let own = priority_of(&main.aspects, TASK_PRIORITY)?;
    if highest < own { Some(own) } else { None }
}

// Is no ceiling of an object to be called below a priority?
fn may_call_at(whole: &Whole<'_>, starts: &Starts<'_>, priority: i64) -> bool {
    starts.components.iter().all(|component| {
        match priority_of(&component.object.aspects, CEILING) {
            Some(ceiling) => priority <= ceiling,
            None => false,
        }
    })
}

// The units of a text with one package: its specification, its body and main.
fn one_package<'a>(
    whole: &Whole<'a>,
) -> Option<(&'a Package, &'a PackageBody, &'a UnitSubprogram)> {
    let [first, second, third] = whole.program.units.as_slice() else {
        return None;
    };
    match (&first.item, &second.item, &third.item) {
        (UnitItem::Package(package), UnitItem::PackageBody(body), UnitItem::Subprogram(main))
            if body.body.statements.is_empty() => { Some((package, body, main)) }
        _ => None,
    }
}

/// The `end` of a unit or a protected object that has its name there.
pub(crate) fn end_of(changes: &Changes<'_>, span: Span) -> Option<u32> {
    let semicolon = changes.source.token_before(span.end_)?;
    let name = changes.source.token_before(semicolon.start)?;
    let end = changes.source.token_before(name.start)?;
    if is_word(end, Word::End) {
        Some(end.start)
    } else {
        None
    }
}

// Leaves out a value with its `:=`.
fn leave_out_value(changes: &mut Changes<'_>, value: Span) -> Result<(), AllocError> {
    if let Some(mark) = changes.source.token_before(value.start) {
        changes.write(span_of(mark), &[])?;
    }
    changes.write(value, &[])
}

// Leaves out `constant`, where it is in a declaration.
fn leave_out_constant(
    changes: &mut Changes<'_>,
    object: &ObjectDeclaration,
    name: &Identifier,
) -> Result<(), AllocError> {
    match changes.source.word_from(name.span.end_, Word::Constant) {
        Some(constant) if object.constant => changes.write(span_of(constant), &[]),
        _ => Ok(()),
    }
}

/// `procedure NAME; ` at the place.
pub(crate) fn declare_procedure(
    changes: &mut Changes<'_>,
    place: u32,
    name: &[u8],
) -> Result<(), AllocError> {
    let words = changes.joined(&[b"procedure ", name, b"; "])?;
    changes.insert(place, &words)
}

// `procedure NAME is begin`, these statements, ` end NAME; ` at the place.
fn define_procedure(
    changes: &mut Changes<'_>,
    place: u32,
    name: &[u8],
    statements: &[u8],
) -> Result<(), AllocError> {
    let words = changes.joined(&[
        b"procedure ",
        name,
        b" is begin",
        statements,
        b" end ",
        name,
        b"; ",
    ])?;
    changes.insert(place, &words)
}

// ` NAME := VALUE;`.
fn put_start(
    changes: &Changes<'_>,
    name: &Identifier,
    value: &Expr,
    words: &mut Vec<u8>,
) -> Result<(), AllocError> {
    let value = changes.copied(value.span)?;
    let name = changes.source.bytes(name.span);
    put_all(words, &[b" ", name, b" := ", value.as_slice(), b";"])
}

// Leaves out the values at which objects start anyway.
fn leave_out_first_values(
    changes: &mut Changes<'_>,
    whole: &Whole<'_>,
    starts: &Starts<'_>,
) -> Result<(), AllocError> {
    for object in starts.objects.as_slice() {
        if let ([name], Some(value)) = (object.names.as_slice(), &object.value) {
            if is_start(whole, name, value) {
                leave_out_value(changes, value.span)?;
            }
        }
    }
    for component in starts.components.as_slice() {
        if is_start(whole, component.name, component.value) {
            leave_out_value(changes, component.value.span)?;
        }
    }
    Ok(())
}

// The name of the procedure that gives a component its value.
fn name_of_start(
    changes: &Changes<'_>,
    component: &Composite<'_>,
    place: usize,
) -> Result<Vec<u8>, AllocError> {
    let mut buffer = Buffer::new();
    let number = buffer.format(place).as_bytes();
    let end = if place == 0 {
        changes.joined(&[b"_Start"])?
    } else {
        changes.joined(&[b"_Start_", number])?
    };
    let name = changes.source.bytes(component.name.span);
    changes.source.fresh_word(changes.alloc, name, &end)
}

// The procedure of a protected object that gives a component its value, and a call of it.
fn start_component(
    changes: &mut Changes<'_>,
    whole: &Whole<'_>,
    component: &Composite<'_>,
    place: usize,
    calls: &mut Vec<u8>,
) -> Result<(), AllocError> {
    let name = name_of_start(changes, component, place)?;
    let Some(private) = changes
        .source
        .word_from(component.object.name.span.end_, Word::Private)
    else {
        return Ok(());
    };
    let Some(end) = end_of_body(changes, whole, component.object) else {
        return Ok(());
    };
    let mut statements = Vec::new(changes.alloc);
    put_start(changes, component.name, component.value, &mut statements)?;
    declare_procedure(changes, private.start, &name)?;
    define_procedure(changes, end, &name, &statements)?;
    leave_out_value(changes, component.value.span)?;
    let object = changes.source.bytes(component.object.name.span);
    put_all(calls, &[b" ", object, b".", name.as_slice(), b";"])
}

// The `end` of the body of a protected object.
fn end_of_body(
    changes: &Changes<'_>,
    whole: &Whole<'_>,
    object: &ProtectedDeclaration,
) -> Option<u32> {
    let id = whole.declared(object.name.span)?;
    for declaration in whole.parts.declarations.as_slice() {
        if let Declaration::ProtectedBody(span, name, _) = declaration {
            if whole.declared(name.span) == Some(id) {
                return end_of(changes, *span);
            }
        }
    }
    None
}

// The statements that give all values.
fn start_statements(
    changes: &mut Changes<'_>,
    whole: &Whole<'_>,
    starts: &Starts<'_>,
) -> Result<Vec<u8>, AllocError> {
    let mut statements = Vec::new(changes.alloc);
    for object in starts.objects.as_slice() {
        if let ([name], Some(value)) = (object.names.as_slice(), &object.value) {
            put_start(changes, name, value, &mut statements)?;
            leave_out_value(changes, value.span)?;
            leave_out_constant(changes, object, name)?;
        }
    }
    for (place, component) in starts.components.iter().enumerate() {
        start_component(changes, whole, component, place, &mut statements)?;
    }
    Ok(statements)
}

/// Main, which calls this procedure of the package first: at this priority, where it does nothing else.
pub(crate) fn start_in_main(
    changes: &mut Changes<'_>,
    package: &Package,
    main: &UnitSubprogram,
    name: &[u8],
    priority: i64,
) -> Result<(), AllocError> {
    let call = changes.joined(&[changes.source.bytes(package.name.span), b".", name, b";"])?;
    match main.body.statements.as_slice() {
        [Statement::Null(null)] if main.aspects.is_empty() => {
            let mut buffer = Buffer::new();
            let number = buffer.format(priority).as_bytes();
            let aspect = changes.joined(&[b" with Priority => ", number])?;
            changes.insert(main.specification.name.span.end_, &aspect)?;
            changes.replace(*null, call, None)
        }
        [first, ..] => {
            let words = changes.joined(&[call.as_slice(), b" "])?;
            changes.insert(span_of_statement(first).start, &words)
        }
        [] => Ok(()),
    }
}

// Values that main gives.
fn start(
    changes: &mut Changes<'_>,
    whole: &Whole<'_>,
    starts: &Starts<'_>,
) -> Result<(), AllocError> {
    let Some((package, body, main)) = one_package(whole) else {
        return Ok(());
    };
    let Some(priority) = first_priority(whole, main) else {
        return Ok(());
    };
    let (Some(declared), Some(defined)) = (
        end_of(changes, package.span),
        end_of(changes, body.span),
    ) else {
        return Ok(());
    };
    if !main.body.declarations.is_empty() || !may_call_at(whole, starts, priority) {
        return Ok(());
    }
    let name = changes
        .source
        .fresh_word(changes.alloc, "Start".as_bytes(), &[])?;
    let statements = start_statements(changes, whole, starts)?;
    declare_procedure(changes, declared, &name)?;
    define_procedure(changes, defined, &name, &statements)?;
    start_in_main(changes, package, main, &name, priority)
}

/// Aggregates as values of variables of packages and of components of protected objects: left out where they are the values at which these start, and else
/// assigned by a procedure that main calls before all tasks.
pub fn lower_starts(changes: &mut Changes<'_>, whole: &Whole<'_>) -> Result<(), AllocError> {
    let starts = composite_starts(whole, changes.alloc)?;
    leave_out_first_values(changes, whole, &starts)?;
    let found = !starts.objects.is_empty() || !starts.components.is_empty();
    if changes.requests.is_empty() && found {
        start(changes, whole, &starts)?;
    }
    Ok(())
}
