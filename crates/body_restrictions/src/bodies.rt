//! What is in bodies: local declarations, statements, barriers (RM D.7).
ghost use Rattle.std.specs.Prelude.{◌≡◌, bytes_eq, map, option_map};
ghost use Rattle.std.specs.List.{list_any};
ghost use Rattle.ada_tree.specs.ExpressionTree.{expr_tree};
ghost use Rattle.ada_tree.specs.ProgramTree.{body_tree, protected_item_tree};
ghost use Rattle.ada_tree.specs.StatementTree.{alternative_trees, declaration_tree, elsif_trees, handler_trees, stmt_tree, stmt_trees};
ghost use Rattle.expr_rules.specs.Findings.{noted};
ghost use Rattle.body_restrictions.specs.BodyRules.{alternatives_faults, barrier_rule, body_faults, elsifs_faults, handlers_faults, is_component, is_simple_name, is_truth_value, local_faults, locals_faults, operation_faults, operations_faults, simple_faults, stmt_faults, stmts_faults};

use ada_tree::laws::statements_by_parts;
use ada_tree::{
    Alternative, Body, Declaration, ElsifPart, Expr, Handler, Identifier, ProtectedBodyItem, Stmt,
};
use base::faults::{
    ABORT_STATEMENT, LOCAL_TASKING, RELATIVE_DELAY, REQUEUE_STATEMENT, SELECT_STATEMENT,
    TASK_ENTRY, WRONG_BARRIER,
};
use expr_rules::Findings;
use expr_rules::laws::noted_by_parts;
use lexer::Text;
use types::{RecordComponent, start_of};

fn local_faults(declaration: &Declaration, found: &mut Findings)
    ensures { found.new ≡ noted found.old (local_faults (declaration_tree declaration.now)) }
{
    match declaration {
        Declaration::Object(_) => {}
        Declaration::Task(task) => found.note_rule(LOCAL_TASKING, task.place, true),
        Declaration::Protected(object) => found.note_rule(LOCAL_TASKING, object.place, true),
    }
}

fn locals_faults(declarations: &[Declaration], found: &mut Findings)
    ensures { found.new ≡ noted found.old (locals_faults (map declaration_tree declarations.now)) }
{
    noted_by_parts();
    for declaration in declarations {
        local_faults(declaration, found);
    }
}

fn simple_faults(statement: &Stmt, found: &mut Findings)
    ensures { found.new ≡ noted found.old (simple_faults (stmt_tree statement.now)) }
{
    statements_by_parts();
    match statement {
        Stmt::Accept(place, _) => found.note_rule(TASK_ENTRY, *place, true),
        Stmt::Delay(place, _) => found.note_rule(RELATIVE_DELAY, *place, true),
        Stmt::Select(place) => found.note_rule(SELECT_STATEMENT, *place, true),
        Stmt::Abort(place, _) => found.note_rule(ABORT_STATEMENT, *place, true),
        Stmt::Requeue(place, _, _) => found.note_rule(REQUEUE_STATEMENT, *place, true),
        _ => {}
    }
}

#[cycle(statement)]
fn elsifs_faults(all: &[ElsifPart], found: &mut Findings)
    ensures { found.new ≡ noted found.old (elsifs_faults (elsif_trees all.now)) }
{
    noted_by_parts();
    for part in all {
        statements_faults(&part.statements, found);
    }
}

#[cycle(statement)]
fn alternatives_faults(all: &[Alternative], found: &mut Findings)
    ensures { found.new ≡ noted found.old (alternatives_faults (alternative_trees all.now)) }
{
    noted_by_parts();
    for one in all {
        statements_faults(&one.statements, found);
    }
}

#[cycle(statement)]
fn handlers_faults(all: &[Handler], found: &mut Findings)
    ensures { found.new ≡ noted found.old (handlers_faults (handler_trees all.now)) }
{
    noted_by_parts();
    for one in all {
        statements_faults(&one.statements, found);
    }
}

#[cycle(statement)]
fn statement_faults(one: &Stmt, found: &mut Findings)
    ensures { found.new ≡ noted found.old (stmt_faults (stmt_tree one.now)) }
{
    noted_by_parts();
    statements_by_parts();
    match one {
        Stmt::If(_, _, body, elsifs, others) => {
            statements_faults(body, found);
            elsifs_faults(elsifs, found);
            statements_faults(others, found);
        }
        Stmt::Case(_, _, all) => alternatives_faults(all, found),
        Stmt::Loop(_, _, body) => statements_faults(body, found),
        Stmt::Block(_, declarations, body, all) => {
            locals_faults(declarations, found);
            statements_faults(body, found);
            handlers_faults(all, found);
        }
        _ => simple_faults(one, found),
    }
}

#[cycle(statement)]
fn statements_faults(all: &[Stmt], found: &mut Findings)
    ensures { found.new ≡ noted found.old (stmts_faults (stmt_trees all.now)) }
{
    noted_by_parts();
    for one in all {
        statement_faults(one, found);
    }
}

/// Notes each restriction that the declarations, statements and handlers of a body break.
pub fn body_faults(body: &Body, found: &mut Findings)
    ensures { found.new ≡ noted found.old (body_faults (body_tree body.now)) }
{
    noted_by_parts();
    locals_faults(&body.declarations, found);
    statements_faults(&body.statements, found);
    handlers_faults(&body.handlers, found);
}

fn is_truth_value(name: &Text) -> bool
    ensures { result ≡ is_truth_value name.now }
{
    name.as_bytes() == "TRUE".as_bytes() || name.as_bytes() == "FALSE".as_bytes()
}

fn is_component(components: &[RecordComponent], name: &Text) -> bool
    ensures { result ≡ is_component components.now name.now }
{
    components
        .iter()
        .any(|component| component.name.as_bytes() == name.as_bytes())
}

fn is_simple_name(components: &[RecordComponent], name: Option<&Identifier>) -> bool
    ensures { result ≡ is_simple_name components.now (option_map (λ n. n.now) name.entry) }
{
    match name {
        Some(name) => is_truth_value(&name.name) || is_component(components, &name.name),
        None => false,
    }
}

fn barrier_rule(components: &[RecordComponent], barrier: &Expr, found: &mut Findings)
    ensures { found.new ≡ noted found.old (barrier_rule components.now (expr_tree barrier.now)) }
{
    let is_simple = is_simple_name(components, barrier.bare_name());
    found.note_rule(WRONG_BARRIER, start_of(barrier), !is_simple);
}

fn operation_faults(components: &[RecordComponent], item: &ProtectedBodyItem, found: &mut Findings)
    ensures { found.new ≡ noted found.old (operation_faults components.now (protected_item_tree item.now)) }
{
    noted_by_parts();
    match item {
        ProtectedBodyItem::Subprogram(_, body) => body_faults(body, found),
        ProtectedBodyItem::Entry(_, barrier, body) => {
            barrier_rule(components, barrier, found);
            body_faults(body, found);
        }
    }
}

/// Notes each restriction that the operations in the body of a protected object with these components break.
pub fn operations_faults(
    components: &[RecordComponent],
    items: &[ProtectedBodyItem],
    found: &mut Findings,
)
    ensures { found.new ≡ noted found.old (operations_faults components.now (map protected_item_tree items.now)) }
{
    noted_by_parts();
    for item in items {
        operation_faults(components, item, found);
    }
}
