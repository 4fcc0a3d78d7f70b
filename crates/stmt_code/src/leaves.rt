//! Which statements leave the loop around them (RM 5.7), or return from the body in which they are (RM 6.5).
ghost use Rattle.std.specs.Prelude.{◌≡◌, ◌||◌, ◌&&◌};
ghost use Rattle.ada_tree.specs.StatementTree.{alternative_trees, elsif_trees, handler_trees, stmt_tree, stmt_trees};
ghost use Rattle.stmt_code.specs.Leaves.{alternatives_leave, any_leave, elsifs_leave, handlers_leave, is_return, leaves};
ghost use Rattle.stmt_code.specs.declared.leaves.WayOut.TheVariants as way;

use ada_tree::laws::statements_by_parts;
use ada_tree::{Alternative, ElsifPart, Handler, Stmt};

/// A way out of statements: after the loop around them, or to the end of the body.
#[derive(Clone, Copy, PartialEq, Eq, Debug)]
pub enum WayOut {
    Exit,
    Return,
}

fn is_return(way: WayOut) -> bool
    ensures { result ≡ is_return way }
{
    match way {
        WayOut::Exit => false,
        WayOut::Return => true,
    }
}

// Whether statements of a loop that take this way out, if there are any, lead out of what stands around it.
fn returns_from(way: WayOut, inside: bool) -> bool
    ensures { result ≡ (is_return way && inside) }
{
    match way {
        WayOut::Exit => false,
        WayOut::Return => inside,
    }
}

fn either(one: bool, other: bool) -> bool
    ensures { result ≡ (one || other) }
{
    one || other
}

#[cycle(leaves)]
fn elsifs_leave(way: WayOut, all: &[ElsifPart]) -> bool
    ensures { result ≡ elsifs_leave (elsif_trees all.now) way }
{
    for part in all {
        if any_leave(way, &part.statements) {
            return true;
        }
    }
    false
}

#[cycle(leaves)]
fn alternatives_leave(way: WayOut, all: &[Alternative]) -> bool
    ensures { result ≡ alternatives_leave (alternative_trees all.now) way }
{
    for one in all {
        if any_leave(way, &one.statements) {
            return true;
        }
    }
    false
}

#[cycle(leaves)]
fn handlers_leave(way: WayOut, all: &[Handler]) -> bool
    ensures { result ≡ handlers_leave (handler_trees all.now) way }
{
    for one in all {
        if any_leave(way, &one.statements) {
            return true;
        }
    }
    false
}

// Whether it takes this way out, or a statement within it does.
#[cycle(leaves)]
fn leaves(way: WayOut, one: &Stmt) -> bool
    ensures { result ≡ leaves (stmt_tree one.now) way }
{
    statements_by_parts();
    match one {
        Stmt::Exit(..) => !is_return(way),
        Stmt::Return(..) => is_return(way),
        Stmt::If(_, _, body, elsifs, others) => {
            let behind = either(elsifs_leave(way, elsifs), any_leave(way, others));
            either(any_leave(way, body), behind)
        }
        Stmt::Case(_, _, all) => alternatives_leave(way, all),
        Stmt::Loop(_, _, body) => returns_from(way, any_leave(way, body)),
        Stmt::Block(_, _, body, all) => either(any_leave(way, body), handlers_leave(way, all)),
        _ => false,
    }
}

#[cycle(leaves)]
fn any_leave(way: WayOut, all: &[Stmt]) -> bool
    ensures { result ≡ any_leave (stmt_trees all.now) way }
{
    for one in all {
        if leaves(way, one) {
            return true;
        }
    }
    false
}

/// Whether one of the statements of a loop leaves it.
pub(crate) fn any_exits(body: &[Stmt]) -> bool
    ensures { result ≡ any_leave (stmt_trees body.now) way.Exit }
{
    any_leave(WayOut::Exit, body)
}

/// Whether one of the statements of a body, or of its handlers, returns from it.
pub(crate) fn body_returns(statements: &[Stmt], all: &[Handler]) -> bool
    ensures { result ≡ (any_leave (stmt_trees statements.now) way.Return || handlers_leave (handler_trees all.now) way.Return) }
{
    either(
        any_leave(WayOut::Return, statements),
        handlers_leave(WayOut::Return, all),
    )
}
