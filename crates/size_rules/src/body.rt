//! What is in a body: its objects, and the labels of its calls.
ghost use Rattle.std.specs.Prelude.{◌≡◌, ◌++◌, ◌∷◌, [], OnOk, map};
ghost use Rattle.ada_tree.specs.ExpressionTree.{argument_trees, name_tree, selector_trees};
ghost use Rattle.ada_tree.specs.ProgramTree.{body_tree};
ghost use Rattle.ada_tree.specs.StatementTree.{alternative_trees, declaration_tree, elsif_trees, handler_trees, stmt_tree, stmt_trees};
ghost use Rattle.expr_rules.specs.Findings.{noted};
ghost use Rattle.size_rules.specs.BodySizes.{alternatives_things, body_faults, body_things, call_things, elsifs_things, first_argument, formals_things};
ghost use Rattle.size_rules.specs.BodySizes.{handlers_things, local_things, locals_things, sized_object, stmt_things, stmts_things, words_named};

use crate::passing::words_faults;
use crate::thing::Thing;
use ada_tree::laws::{arguments_by_parts, statements_by_parts};
use ada_tree::{
    Alternative, Argument, Body, Declaration, ElsifPart, Formal, Handler, Identifier, Selector,
    Stmt,
};
use base::limits::FRAME_WORDS;
use expr_rules::Findings;
use std::alloc::AllocError;
use type_rules::subtype_of;
use types::Scope;

fn words_named(scope: &Scope, name: &Identifier) -> u16
    ensures { result ≡ words_named scope.now name.now }
{
    match subtype_of(scope, name) {
        Some(subtype) => scope.words(subtype),
        None => 0,
    }
}

/// An object of this name, with the words of the subtype that is named.
pub(crate) fn sized_object(scope: &Scope, name: &Identifier, subtype: &Identifier) -> Thing
    ensures { result ≡ sized_object scope.now name.now subtype.now }
{
    Thing::Object(name.place, words_named(scope, subtype))
}

fn push_formals(
    scope: &Scope,
    formals: &[Formal],
    things: &mut Vec<Thing>,
) -> Result<(), AllocError>
    ensures { OnOk result (things.new.items ≡ things.old.items ++ formals_things scope.now formals.now) }
{
    for formal in formals {
        things.push(sized_object(scope, &formal.name, &formal.subtype))?;
    }
    Ok(())
}

fn push_local(
    scope: &Scope,
    declaration: &Declaration,
    things: &mut Vec<Thing>,
) -> Result<(), AllocError>
    ensures { OnOk result (things.new.items ≡ things.old.items ++ local_things scope.now (declaration_tree declaration.now)) }
{
    if let Declaration::Object(object) = declaration {
        things.push(sized_object(scope, &object.name, &object.subtype))?;
    }
    Ok(())
}

fn push_locals(
    scope: &Scope,
    declarations: &[Declaration],
    things: &mut Vec<Thing>,
) -> Result<(), AllocError>
    ensures { OnOk result (things.new.items ≡ things.old.items ++ locals_things scope.now (map declaration_tree declarations.now)) }
{
    for declaration in declarations {
        push_local(scope, declaration, things)?;
    }
    Ok(())
}

fn push_first_argument(arguments: &[Argument], things: &mut Vec<Thing>) -> Result<(), AllocError>
    ensures { OnOk result (things.new.items ≡ things.old.items ++ first_argument (argument_trees arguments.now)) }
{
    match arguments {
        [Argument::Label(text, place), ..] => {
            things.push(Thing::Label(text.clone()?, *place))?;
            Ok(())
        }
        [Argument::Expr(..), ..] => Ok(()),
        [] => Ok(()),
    }
}

fn push_call(selectors: &[Selector], things: &mut Vec<Thing>) -> Result<(), AllocError>
    ensures { OnOk result (things.new.items ≡ things.old.items ++ call_things (selector_trees selectors.now)) }
{
    arguments_by_parts();
    match selectors {
        [Selector::Arguments(arguments, ..), ..] => push_first_argument(arguments, things),
        [Selector::Component(..), ..] => Ok(()),
        [Selector::Attribute(..), ..] => Ok(()),
        [] => Ok(()),
    }
}

#[cycle(statement)]
fn push_elsifs(scope: &Scope, all: &[ElsifPart], things: &mut Vec<Thing>) -> Result<(), AllocError>
    ensures { OnOk result (things.new.items ≡ things.old.items ++ elsifs_things scope.now (elsif_trees all.now)) }
{
    for part in all {
        push_statements(scope, &part.statements, things)?;
    }
    Ok(())
}

#[cycle(statement)]
fn push_alternatives(
    scope: &Scope,
    all: &[Alternative],
    things: &mut Vec<Thing>,
) -> Result<(), AllocError>
    ensures { OnOk result (things.new.items ≡ things.old.items ++ alternatives_things scope.now (alternative_trees all.now)) }
{
    for one in all {
        push_statements(scope, &one.statements, things)?;
    }
    Ok(())
}

#[cycle(statement)]
fn push_handlers(scope: &Scope, all: &[Handler], things: &mut Vec<Thing>) -> Result<(), AllocError>
    ensures { OnOk result (things.new.items ≡ things.old.items ++ handlers_things scope.now (handler_trees all.now)) }
{
    for one in all {
        push_statements(scope, &one.statements, things)?;
    }
    Ok(())
}

#[cycle(statement)]
fn push_statement(scope: &Scope, one: &Stmt, things: &mut Vec<Thing>) -> Result<(), AllocError>
    ensures { OnOk result (things.new.items ≡ things.old.items ++ stmt_things scope.now (stmt_tree one.now)) }
{
    statements_by_parts();
    match one {
        Stmt::Call(name) => push_call(&name.selectors, things),
        Stmt::If(_, _, body, elsifs, others) => {
            push_statements(scope, body, things)?;
            push_elsifs(scope, elsifs, things)?;
            push_statements(scope, others, things)
        }
        Stmt::Case(_, _, all) => push_alternatives(scope, all, things),
        Stmt::Loop(_, _, body) => push_statements(scope, body, things),
        Stmt::Block(_, declarations, body, all) => {
            push_locals(scope, declarations, things)?;
            push_statements(scope, body, things)?;
            push_handlers(scope, all, things)
        }
        _ => Ok(()),
    }
}

#[cycle(statement)]
fn push_statements(scope: &Scope, all: &[Stmt], things: &mut Vec<Thing>) -> Result<(), AllocError>
    ensures { OnOk result (things.new.items ≡ things.old.items ++ stmts_things scope.now (stmt_trees all.now)) }
{
    for one in all {
        push_statement(scope, one, things)?;
    }
    Ok(())
}

fn push_body(
    scope: &Scope,
    formals: &[Formal],
    body: &Body,
    things: &mut Vec<Thing>,
) -> Result<(), AllocError>
    ensures { OnOk result (things.new.items ≡ things.old.items ++ body_things scope.now formals.now (body_tree body.now)) }
{
    push_formals(scope, formals, things)?;
    push_locals(scope, &body.declarations, things)?;
    push_statements(scope, &body.statements, things)?;
    push_handlers(scope, &body.handlers, things)
}

/// Notes each fault of the words of a body's frame, which sees the names before it; what is in it is pushed. Memory is the only refusal, and may leave
/// some of it pushed.
pub(crate) fn body_faults(
    scope: &Scope,
    formals: &[Formal],
    body: &Body,
    things: &mut Vec<Thing>,
    found: &mut Findings,
) -> Result<(), AllocError>
    ensures found { OnOk result (found.new ≡ noted found.old (body_faults scope.now formals.now (body_tree body.now))) }
    ensures things { OnOk result (things.new.items ≡ things.old.items ++ body_things scope.now formals.now (body_tree body.now)) }
{
    let start = things.len();
    push_body(scope, formals, body, things)?;
    words_faults(FRAME_WORDS as u16, &things[start..], found);
    Ok(())
}
