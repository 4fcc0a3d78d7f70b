//! Where the code of statements is, for what is reported of the instruction that raised an exception.
ghost use Rattle.std.specs.Prelude.{◌≡◌};
ghost use Rattle.ada_tree.specs.StatementTree.{stmt_tree};
ghost use Rattle.stmt_code.specs.Placing.{stmt_place};

use ada_tree::Stmt;
use ada_tree::laws::statements_by_parts;

/// The place of a statement in the source: that of its first token.
pub fn stmt_place(statement: &Stmt) -> u32
    ensures { result ≡ stmt_place (stmt_tree statement.now) }
{
    statements_by_parts();
    match statement {
        Stmt::Null(place) => *place,
        Stmt::Assignment(name, _) => name.first.place,
        Stmt::Call(name) => name.first.place,
        Stmt::Exit(place, _) => *place,
        Stmt::Return(place, _) => *place,
        Stmt::Raise(place, _) => *place,
        Stmt::Delay(place, _) => *place,
        Stmt::DelayUntil(place, _) => *place,
        Stmt::If(place, _, _, _, _) => *place,
        Stmt::Case(place, _, _) => *place,
        Stmt::Loop(place, _, _) => *place,
        Stmt::Block(place, _, _, _) => *place,
        Stmt::Abort(place, _) => *place,
        Stmt::Requeue(place, _, _) => *place,
        Stmt::Accept(place, _) => *place,
        Stmt::Select(place) => *place,
    }
}
