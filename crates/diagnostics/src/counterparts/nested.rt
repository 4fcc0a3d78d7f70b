//! Names that blocks declare and loops have, where a place is in them.
ghost use Rattle.std.specs.Prelude.{◌≡◌, map};
ghost use Rattle.ada_tree.specs.ProgramTree.{body_tree};
ghost use Rattle.ada_tree.specs.StatementTree.{alternative_trees, declaration_tree, elsif_trees, handler_trees, iteration_tree, stmt_tree, stmt_trees};
ghost use Rattle.diagnostics.specs.counterparts.Nested as nested;

use crate::counterparts::fronts::{first_local, in_front, is_at, local_name, or_first};
use ada_tree::laws::statements_by_parts;
use ada_tree::{Alternative, Body, Declaration, ElsifPart, Handler, Iteration, Stmt};

// What is found of a part of a text: None where no name that it declares is at the place, and else the place of another one there, if it declares one.
fn first_in(first: Option<Option<u32>>, rest: Option<Option<u32>>) -> Option<Option<u32>>
    ensures { result ≡ nested.first_in first rest }
{
    match first {
        Some(other) => Some(other),
        None => rest,
    }
}

fn around(own: Option<u32>, inside: Option<Option<u32>>) -> Option<Option<u32>>
    ensures { result ≡ nested.around own inside }
{
    match inside {
        Some(other) => Some(or_first(other, own)),
        None => None,
    }
}

fn has_local(place: u32, declarations: &[Declaration]) -> bool
    ensures { result ≡ nested.has_local place (map declaration_tree declarations.now) }
{
    for declaration in declarations {
        if is_at(place, local_name(declaration)) {
            return true;
        }
    }
    false
}

fn in_block(
    name: &[u8],
    place: u32,
    declarations: &[Declaration],
    inside: Option<Option<u32>>,
) -> Option<Option<u32>>
    ensures { result ≡ nested.in_block name.now place (map declaration_tree declarations.now) inside }
{
    if has_local(place, declarations) {
        Some(first_local(name, place, declarations))
    } else {
        around(first_local(name, place, declarations), inside)
    }
}

fn in_loop(
    name: &[u8],
    place: u32,
    iteration: &Iteration,
    inside: Option<Option<u32>>,
) -> Option<Option<u32>>
    ensures { result ≡ nested.in_loop name.now place (iteration_tree iteration.now) inside }
{
    match iteration {
        Iteration::Forever => inside,
        Iteration::While(_) => inside,
        Iteration::For(parameter, _, _) => {
            if is_at(place, parameter) {
                Some(None)
            } else {
                around(in_front(name, place, parameter), inside)
            }
        }
    }
}

#[cycle(statement)]
fn within_elsifs(name: &[u8], place: u32, all: &[ElsifPart]) -> Option<Option<u32>>
    ensures { result ≡ nested.within_elsifs name.now place (elsif_trees all.now) }
{
    for part in all {
        if let Some(other) = within_statements(name, place, &part.statements) {
            return Some(other);
        }
    }
    None
}

#[cycle(statement)]
fn within_alternatives(name: &[u8], place: u32, all: &[Alternative]) -> Option<Option<u32>>
    ensures { result ≡ nested.within_alternatives name.now place (alternative_trees all.now) }
{
    for one in all {
        if let Some(other) = within_statements(name, place, &one.statements) {
            return Some(other);
        }
    }
    None
}

#[cycle(statement)]
fn within_handlers(name: &[u8], place: u32, all: &[Handler]) -> Option<Option<u32>>
    ensures { result ≡ nested.within_handlers name.now place (handler_trees all.now) }
{
    for one in all {
        if let Some(other) = within_statements(name, place, &one.statements) {
            return Some(other);
        }
    }
    None
}

#[cycle(statement)]
fn within_statement(name: &[u8], place: u32, one: &Stmt) -> Option<Option<u32>>
    ensures { result ≡ nested.within_stmt name.now place (stmt_tree one.now) }
{
    statements_by_parts();
    match one {
        Stmt::If(_, _, body, elsifs, others) => {
            let first = first_in(
                within_statements(name, place, body),
                within_elsifs(name, place, elsifs),
            );
            first_in(first, within_statements(name, place, others))
        }
        Stmt::Case(_, _, all) => within_alternatives(name, place, all),
        Stmt::Loop(_, iteration, body) => {
            let inside = within_statements(name, place, body);
            in_loop(name, place, iteration, inside)
        }
        Stmt::Block(_, declarations, body, all) => {
            let within = first_in(
                within_statements(name, place, body),
                within_handlers(name, place, all),
            );
            in_block(name, place, declarations, within)
        }
        _ => None,
    }
}

#[cycle(statement)]
fn within_statements(name: &[u8], place: u32, all: &[Stmt]) -> Option<Option<u32>>
    ensures { result ≡ nested.within_stmts name.now place (stmt_trees all.now) }
{
    for one in all {
        if let Some(other) = within_statement(name, place, one) {
            return Some(other);
        }
    }
    None
}

fn other_in(found: Option<Option<u32>>) -> Option<u32>
    ensures { result ≡ nested.other_in found }
{
    match found {
        Some(other) => other,
        None => None,
    }
}

/// The place of another name that a block or a loop has around the place, in the statements and handlers of a body.
pub(crate) fn nested_in(name: &[u8], place: u32, body: &Body) -> Option<u32>
    ensures { result ≡ nested.nested_in name.now place (body_tree body.now) }
{
    let found = first_in(
        within_statements(name, place, &body.statements),
        within_handlers(name, place, &body.handlers),
    );
    other_in(found)
}
