//! Statements (RM 5). The place of a statement is that of its first token.

ghost use Rattle.std.specs.Prelude.{◌≡◌, map};
ghost use Rattle.ada_tree.specs.ExpressionTree.{expr_tree};
ghost use Rattle.ada_tree.specs.StatementTree.{stmt_tree, stmt_trees, elsif_trees, alternative_trees, handler_trees, iteration_tree, declaration_tree, If, Case, Loop, Block};

use crate::declaration::Declaration;
use crate::expression::{Expr, Identifier, NameExpr};

/// A range (RM 3.5).
pub struct Range {
    pub first: Expr,
    pub last: Expr,
}

/// How often a loop turns (RM 5.5).
pub enum Iteration {
    Forever,
    While(Expr),
    /// The parameter, whether it goes from the last value to the first, and the range.
    For(Identifier, bool, Range),
}

/// For which values an alternative is taken (RM 5.4).
pub enum CaseChoices {
    /// One or more expressions.
    Values(Vec<Expr>),
    /// The place of `others`.
    Others(u32),
}

/// An alternative of a case statement (RM 5.4): the place of `when`, the choices and the statements.
#[cycle(statement)]
pub struct Alternative {
    pub place: u32,
    pub choices: CaseChoices,
    pub statements: Vec<Stmt>,
}

/// A condition of an if statement after its first, and its statements (RM 5.3).
#[cycle(statement)]
pub struct ElsifPart {
    pub condition: Expr,
    pub statements: Vec<Stmt>,
}

/// What a handler is for (RM 11.2).
pub enum ExceptionChoice {
    Exception(Identifier),
    /// The place of `others`.
    Others(u32),
}

/// An exception handler (RM 11.2): one or more choices, and one or more statements.
#[cycle(statement)]
pub struct Handler {
    pub choices: Vec<ExceptionChoice>,
    pub statements: Vec<Stmt>,
}

/// A statement (RM 5.1). The first `u32` of a variant is its place.
#[cycle(statement)]
pub enum Stmt {
    Null(u32),
    /// The target and the expression.
    Assignment(NameExpr, Expr),
    /// A call of a procedure or an entry.
    Call(NameExpr),
    /// The condition, if there is one.
    Exit(u32, Option<Expr>),
    Return(u32, Option<Expr>),
    /// The exception, or none where the one that is handled is raised again.
    Raise(u32, Option<Identifier>),
    /// A relative delay.
    Delay(u32, Expr),
    DelayUntil(u32, Expr),
    /// The first condition and its statements, the parts after `elsif`, and the statements after `else`: none where there is no `else`.
    If(u32, Expr, Vec<Stmt>, Vec<ElsifPart>, Vec<Stmt>),
    /// The expression, and one or more alternatives.
    Case(u32, Expr, Vec<Alternative>),
    Loop(u32, Iteration, Vec<Stmt>),
    /// The declarations, one or more statements, and the handlers.
    Block(u32, Vec<Declaration>, Vec<Stmt>, Vec<Handler>),
    Abort(u32, Identifier),
    /// The name, of one or two identifiers.
    Requeue(u32, Identifier, Option<Identifier>),
    Accept(u32, Identifier),
    /// A select statement. What is in it is not kept.
    Select(u32),
}

impl Stmt {
    /// The if statement of these parts, which begins at this place.
    pub fn conditional(
        place: u32,
        condition: Expr,
        then_part: Vec<Stmt>,
        elsif_parts: Vec<ElsifPart>,
        else_part: Vec<Stmt>,
    ) -> Stmt
        ensures { stmt_tree result ≡ If place (expr_tree condition) (stmt_trees then_part.items) (elsif_trees elsif_parts.items) (stmt_trees else_part.items) }
    {
        Stmt::If(place, condition, then_part, elsif_parts, else_part)
    }

    /// The case statement of these parts, which begins at this place.
    pub fn case(place: u32, value: Expr, alternatives: Vec<Alternative>) -> Stmt
        ensures { stmt_tree result ≡ Case place (expr_tree value) (alternative_trees alternatives.items) }
    {
        Stmt::Case(place, value, alternatives)
    }

    /// The loop of these statements, which begins at this place.
    pub fn iterated(place: u32, iteration: Iteration, statements: Vec<Stmt>) -> Stmt
        ensures { stmt_tree result ≡ Loop place (iteration_tree iteration) (stmt_trees statements.items) }
    {
        Stmt::Loop(place, iteration, statements)
    }

    /// The block of these parts, which begins at this place.
    pub fn block(
        place: u32,
        declarations: Vec<Declaration>,
        statements: Vec<Stmt>,
        handlers: Vec<Handler>,
    ) -> Stmt
        ensures { stmt_tree result ≡ Block place (map declaration_tree declarations.items) (stmt_trees statements.items) (handler_trees handlers.items) }
    {
        Stmt::Block(place, declarations, statements, handlers)
    }
}

// Dropping. It is written out here, so that code that holds a tree calls it.

impl Drop for Range {
    fn drop(self) {
        let Self { first: _, last: _ } = self;
    }
}

impl Drop for Iteration {
    fn drop(self) {
        match self {
            Iteration::Forever => {}
            Iteration::While(_) => {}
            Iteration::For(_, _, _) => {}
        }
    }
}

impl Drop for CaseChoices {
    fn drop(self) {
        match self {
            CaseChoices::Values(_) => {}
            CaseChoices::Others(_) => {}
        }
    }
}

impl Drop for Alternative {
    #[cycle(statement)]
    fn drop(self) {
        let Self {
            place: _,
            choices: _,
            statements: _,
        } = self;
    }
}

impl Drop for ElsifPart {
    #[cycle(statement)]
    fn drop(self) {
        let Self {
            condition: _,
            statements: _,
        } = self;
    }
}

impl Drop for ExceptionChoice {
    fn drop(self) {
        match self {
            ExceptionChoice::Exception(_) => {}
            ExceptionChoice::Others(_) => {}
        }
    }
}

impl Drop for Handler {
    #[cycle(statement)]
    fn drop(self) {
        let Self {
            choices: _,
            statements: _,
        } = self;
    }
}

impl Drop for Stmt {
    #[cycle(statement)]
    fn drop(self) {
        match self {
            Stmt::Null(_) => {}
            Stmt::Assignment(_, _) => {}
            Stmt::Call(_) => {}
            Stmt::Exit(_, _) => {}
            Stmt::Return(_, _) => {}
            Stmt::Raise(_, _) => {}
            Stmt::Delay(_, _) => {}
            Stmt::DelayUntil(_, _) => {}
            Stmt::If(_, _, _, _, _) => {}
            Stmt::Case(_, _, _) => {}
            Stmt::Loop(_, _, _) => {}
            Stmt::Block(_, _, _, _) => {}
            Stmt::Abort(_, _) => {}
            Stmt::Requeue(_, _, _) => {}
            Stmt::Accept(_, _) => {}
            Stmt::Select(_) => {}
        }
    }
}
