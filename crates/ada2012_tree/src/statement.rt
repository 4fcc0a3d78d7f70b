//! Statements and bodies (RM 5, 6.3, 11.2).
ghost use Rattle.std.specs.Prelude.{◌≡◌, map};
ghost use Rattle.ada2012_tree.specs.Spans.{MoreTrees, Node, joined, only, trees_of};
ghost use Rattle.ada2012_tree.specs.ExpressionSpans.{expr_spans, identifier_spans};
ghost use Rattle.ada2012_tree.specs.SubtypeSpans.{optional};
ghost use Rattle.ada2012_tree.specs.DeclarationSpans.{iteration_spans};
ghost use Rattle.ada2012_tree.specs.StatementSpans.{alternative_spans, body_spans, branch_spans, declaration_spans, handler_spans, statement_spans};

use crate::declaration::Declaration;
use crate::expression::{Choice, Expr, Identifier, Name};
use crate::subtype::{DiscreteRange, Pragma};
use ada2012_lexer::Span;

/// A statement (RM 5.1). Each has its span first, which has the name of a loop or block and the semicolon.
#[cycle(statement)]
pub enum Statement {
    Null(Span),
    Assignment(Span, Name, Expr),
    /// A call of a procedure or an entry.
    Call(Span, Name),
    Return(Span, Option<Expr>),
    /// The name of a loop, and a condition.
    Exit(Span, Option<Identifier>, Option<Expr>),
    /// An exception, and the expression of its message.
    Raise(Span, Option<Name>, Option<Expr>),
    Delay(Span, Expr),
    DelayUntil(Span, Expr),
    Pragma(Pragma),
    /// The branches with a condition, and the statements of the else part, of which there are none where it is left out.
    If(Span, Vec<Branch>, Vec<Statement>),
    Case(Span, Expr, Vec<Alternative>),
    /// The name of the loop, what it goes over, and its statements.
    Loop(Span, Option<Identifier>, Iteration, Vec<Statement>),
    /// The name of the block, and what is in it.
    Block(Span, Option<Identifier>, Body),
}

/// A condition and its statements. The span begins with `if` or `elsif`.
#[cycle(statement)]
pub struct Branch {
    pub span: Span,
    pub condition: Expr,
    pub statements: Vec<Statement>,
}

/// An alternative of a case statement.
#[cycle(statement)]
pub struct Alternative {
    pub span: Span,
    pub choices: Vec<Choice>,
    pub statements: Vec<Statement>,
}

/// How often a loop goes round (RM 5.5).
pub enum Iteration {
    Forever,
    While(Expr),
    /// The parameter, whether it goes down, and its range.
    For(Identifier, bool, DiscreteRange),
    /// The parameter, which is each component of this array.
    Of(Identifier, Name),
}

/// Exceptions that a handler takes (RM 11.2).
pub enum ExceptionChoice {
    Name(Name),
    Others(Span),
}

/// A handler of exceptions: the name of the occurrence, which exceptions it takes, and its statements.
#[cycle(statement)]
pub struct Handler {
    pub span: Span,
    pub occurrence: Option<Identifier>,
    pub choices: Vec<ExceptionChoice>,
    pub statements: Vec<Statement>,
}

/// Declarations, statements and handlers. The span is that of these, up to the `end` that closes them.
#[cycle(statement)]
pub struct Body {
    pub span: Span,
    pub declarations: Vec<Declaration>,
    pub statements: Vec<Statement>,
    pub handlers: Vec<Handler>,
}

impl Statement {
    /// An if statement of these branches and these statements of the else part.
    pub fn conditional(span: Span, branches: Vec<Branch>, other: Vec<Statement>) -> Statement
        ensures { statement_spans result ≡ Node span (joined (trees_of (map branch_spans branches.items)) (trees_of (map statement_spans other.items))) }
    {
        Statement::If(span, branches, other)
    }

    /// A case statement.
    pub fn case(span: Span, value: Expr, alternatives: Vec<Alternative>) -> Statement
        ensures { statement_spans result ≡ Node span (MoreTrees (expr_spans value) (trees_of (map alternative_spans alternatives.items))) }
    {
        Statement::Case(span, value, alternatives)
    }

    /// A loop statement.
    pub fn iterated(
        span: Span,
        name: Option<Identifier>,
        iteration: Iteration,
        statements: Vec<Statement>,
    ) -> Statement
        ensures { statement_spans result ≡ Node span (joined (optional identifier_spans name)
            (joined (iteration_spans iteration) (trees_of (map statement_spans statements.items)))) }
    {
        Statement::Loop(span, name, iteration, statements)
    }

    /// A block.
    pub fn block(span: Span, name: Option<Identifier>, body: Body) -> Statement
        ensures { statement_spans result ≡ Node span (joined (optional identifier_spans name) (only (body_spans body))) }
    {
        Statement::Block(span, name, body)
    }
}

impl Body {
    /// A body of these declarations, statements and handlers.
    pub fn new(
        span: Span,
        declarations: Vec<Declaration>,
        statements: Vec<Statement>,
        handlers: Vec<Handler>,
    ) -> Body
        ensures { body_spans result ≡ Node span (joined (trees_of (map declaration_spans declarations.items))
            (joined (trees_of (map statement_spans statements.items)) (trees_of (map handler_spans handlers.items)))) }
    {
        Body {
            span,
            declarations,
            statements,
            handlers,
        }
    }
}

// Dropping. It is written out here, so that code that holds a tree calls it.

impl Drop for Statement {
    #[cycle(statement)]
    fn drop(self) {
        match self {
            Statement::Null(_) => {}
            Statement::Assignment(_, _, _) => {}
            Statement::Call(_, _) => {}
            Statement::Return(_, _) => {}
            Statement::Exit(_, _, _) => {}
            Statement::Raise(_, _, _) => {}
            Statement::Delay(_, _) => {}
            Statement::DelayUntil(_, _) => {}
            Statement::Pragma(_) => {}
            Statement::If(_, _, _) => {}
            Statement::Case(_, _, _) => {}
            Statement::Loop(_, _, _, _) => {}
            Statement::Block(_, _, _) => {}
        }
    }
}

impl Drop for Branch {
    #[cycle(statement)]
    fn drop(self) {
        let Self {
            span: _,
            condition: _,
            statements: _,
        } = self;
    }
}

impl Drop for Alternative {
    #[cycle(statement)]
    fn drop(self) {
        let Self {
            span: _,
            choices: _,
            statements: _,
        } = self;
    }
}

impl Drop for Iteration {
    fn drop(self) {
        match self {
            Iteration::Forever => {}
            Iteration::While(_) => {}
            Iteration::For(_, _, _) => {}
            Iteration::Of(_, _) => {}
        }
    }
}

impl Drop for ExceptionChoice {
    fn drop(self) {
        match self {
            ExceptionChoice::Name(_) => {}
            ExceptionChoice::Others(_) => {}
        }
    }
}

impl Drop for Handler {
    #[cycle(statement)]
    fn drop(self) {
        let Self {
            span: _,
            occurrence: _,
            choices: _,
            statements: _,
        } = self;
    }
}

impl Drop for Body {
    #[cycle(statement)]
    fn drop(self) {
        let Self {
            span: _,
            declarations: _,
            statements: _,
            handlers: _,
        } = self;
    }
}
