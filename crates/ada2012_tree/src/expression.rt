//! Expressions and names (RM 4).
ghost use Rattle.std.specs.Prelude.{◌≡◌, ◌∷◌, ◌++◌, [], map, IfOk};
ghost use Rattle.ada2012_tree.specs.Spans.{Node, NoTrees, MoreTrees, joined, only, trees_of};
ghost use Rattle.ada2012_tree.specs.ExpressionSpans.{association_spans, choice_spans, condition_spans, expr_spans, identifier_spans, name_spans, operand_spans, range_spans, selector_spans};
ghost use Rattle.std.specs.Prelude.{◌≡◌, ◌∷◌, ◌++◌, [], map, IfOk};

use ada_tree::UnaryOperator;
use ada2012_lexer::Span;
use base::Text;
use lexer::Word;
use std::alloc::{AllocError, Global};

/// An identifier, by its characters with the letters in upper case.
pub struct Identifier {
    pub span: Span,
    pub name: Text,
}

/// An operator between its operands, or a short-circuit control form (RM 4.5).
#[derive(Clone, Copy, PartialEq, Eq)]
pub enum BinaryOperator {
    And,
    Or,
    Xor,
    AndThen,
    OrElse,
    Equal,
    NotEqual,
    Less,
    LessOrEqual,
    Greater,
    GreaterOrEqual,
    Add,
    Subtract,
    Concatenate,
    Multiply,
    Divide,
    Mod,
    Rem,
    Power,
}

/// A name (RM 4.1): an identifier, and what follows it.
#[cycle(expression)]
pub struct Name {
    pub span: Span,
    pub prefix: Identifier,
    pub selectors: Vec<Selector>,
}

/// One of the things that follow the beginning of a name. Its span begins with the delimiter.
#[cycle(expression)]
pub enum Selector {
    /// A dot and an identifier.
    Component(Span, Identifier),
    /// One or more in parentheses: indexes, actual parameters, constraints, or the operand of a conversion.
    Arguments(Span, Vec<Association>),
    /// An apostrophe and the name of an attribute, whose arguments are the next selector.
    Attribute(Span, AttributeName),
    /// An apostrophe and the operand of a qualified expression, which is a parenthesized expression or an aggregate.
    Qualified(Span, Box<Expr>),
}

/// The name of an attribute (RM 4.1.4).
pub enum AttributeName {
    Identifier(Identifier),
    /// A reserved word, as in `A'Range`.
    Word(Word, Span),
}

/// One of several in parentheses, or of a case: `E`, `F => E`, `A | B => E`, `others => E`.
#[cycle(expression)]
pub struct Association {
    pub span: Span,
    /// None where it is positional.
    pub choices: Vec<Choice>,
    pub value: Expr,
}

/// A choice of an association, a case or a membership test.
#[cycle(expression)]
pub enum Choice {
    Value(Expr),
    Range(Range),
    Others(Span),
}

/// Two bounds (RM 3.5).
#[cycle(expression)]
pub struct Range {
    pub span: Span,
    pub first: Expr,
    pub last: Expr,
}

/// A condition of an if expression, and the expression for it (RM 4.5.7). Its span begins with `if` or `elsif`.
#[cycle(expression)]
pub struct Condition {
    pub span: Span,
    pub condition: Expr,
    pub value: Expr,
}

/// An operator, and the operand after it (RM 4.4).
#[cycle(expression)]
pub struct Operand {
    pub span: Span,
    pub operator: BinaryOperator,
    pub value: Expr,
}

/// An expression (RM 4.4).
#[cycle(expression)]
pub struct Expr {
    pub span: Span,
    pub kind: ExprKind,
}

/// What an expression is.
#[cycle(expression)]
pub enum ExprKind {
    /// An integer literal, by its value where that is at most 2**63 - 1.
    Integer(Option<u64>),
    Real,
    Character(u8),
    StringLiteral,
    Name(Name),
    Parenthesized(Box<Expr>),
    /// An aggregate (RM 4.3): two associations or more, or one with a choice.
    Aggregate(Vec<Association>),
    /// An if expression in its parentheses: its conditions, and the value of its else part.
    Conditional(Vec<Condition>, Box<Expr>),
    Unary(UnaryOperator, Box<Expr>),
    /// A first operand and one or more operators of one precedence, each with the operand after it. They group to the left: all that precedes an operator is
    /// its left operand.
    Chain(Box<Expr>, Vec<Operand>),
    /// A membership test (RM 4.5.2): `in`, or `not in`, of any of these choices.
    Membership(Box<Expr>, Membership, Vec<Choice>),
}

/// The operator of a membership test (RM 4.5.2).
#[derive(Clone, Copy, PartialEq, Eq)]
pub enum Membership {
    In,
    NotIn,
}

impl Expr {
    /// A literal: an expression without parts.
    pub fn integer(span: Span, value: Option<u64>) -> Expr
        ensures { expr_spans result ≡ Node span NoTrees }
    {
        Expr {
            span,
            kind: ExprKind::Integer(value),
        }
    }

    /// A real literal.
    pub fn real(span: Span) -> Expr
        ensures { expr_spans result ≡ Node span NoTrees }
    {
        Expr {
            span,
            kind: ExprKind::Real,
        }
    }

    /// A character literal.
    pub fn character(span: Span, character: u8) -> Expr
        ensures { expr_spans result ≡ Node span NoTrees }
    {
        Expr {
            span,
            kind: ExprKind::Character(character),
        }
    }

    /// A string literal.
    pub fn string_literal(span: Span) -> Expr
        ensures { expr_spans result ≡ Node span NoTrees }
    {
        Expr {
            span,
            kind: ExprKind::StringLiteral,
        }
    }

    /// The expression that a name is.
    pub fn of_name(span: Span, name: Name) -> Expr
        ensures { expr_spans result ≡ Node span (only (name_spans name)) }
    {
        Expr {
            span,
            kind: ExprKind::Name(name),
        }
    }

    /// Is the expression nothing but a name?
    pub fn is_name(&self) -> bool {
        matches!(self.kind, ExprKind::Name(_))
    }

    /// An expression in parentheses. Memory is the only error.
    pub fn parenthesized(alloc: Global, span: Span, inner: Expr) -> Result<Expr, AllocError>
        ensures { IfOk result (λ e. expr_spans e ≡ Node span (only (expr_spans inner))) }
    {
        let inner = Box::new(alloc, inner)?;
        Ok(Expr {
            span,
            kind: ExprKind::Parenthesized(inner),
        })
    }

    /// An aggregate of these associations.
    pub fn aggregate(span: Span, associations: Vec<Association>) -> Expr
        ensures { expr_spans result ≡ Node span (trees_of (map association_spans associations.items)) }
    {
        Expr {
            span,
            kind: ExprKind::Aggregate(associations),
        }
    }

    /// An if expression of these conditions and this value of the else part. Memory is the only error.
    pub fn conditional(
        alloc: Global,
        span: Span,
        conditions: Vec<Condition>,
        other: Expr,
    ) -> Result<Expr, AllocError>
        ensures { IfOk result (λ e. expr_spans e ≡ Node span (joined (trees_of (map condition_spans conditions.items)) (only (expr_spans other)))) }
    {
        let other = Box::new(alloc, other)?;
        Ok(Expr {
            span,
            kind: ExprKind::Conditional(conditions, other),
        })
    }

    /// The operation of this operator on this operand. Memory is the only error.
    pub fn unary(
        alloc: Global,
        span: Span,
        operator: UnaryOperator,
        operand: Expr,
    ) -> Result<Expr, AllocError>
        ensures { IfOk result (λ e. expr_spans e ≡ Node span (only (expr_spans operand))) }
    {
        let operand = Box::new(alloc, operand)?;
        Ok(Expr {
            span,
            kind: ExprKind::Unary(operator, operand),
        })
    }

    /// The operations of these operands on a first one. Memory is the only error.
    pub fn chain(
        alloc: Global,
        span: Span,
        first: Expr,
        operands: Vec<Operand>,
    ) -> Result<Expr, AllocError>
        ensures { IfOk result (λ e. expr_spans e ≡ Node span (MoreTrees (expr_spans first) (trees_of (map operand_spans operands.items)))) }
    {
        let first = Box::new(alloc, first)?;
        Ok(Expr {
            span,
            kind: ExprKind::Chain(first, operands),
        })
    }

    /// The test whether a value is among these choices. Memory is the only error.
    pub fn membership(
        alloc: Global,
        span: Span,
        value: Expr,
        membership: Membership,
        choices: Vec<Choice>,
    ) -> Result<Expr, AllocError>
        ensures { IfOk result (λ e. expr_spans e ≡ Node span (MoreTrees (expr_spans value) (trees_of (map choice_spans choices.items)))) }
    {
        let value = Box::new(alloc, value)?;
        Ok(Expr {
            span,
            kind: ExprKind::Membership(value, membership, choices),
        })
    }
}

impl Selector {
    /// These arguments.
    pub fn arguments(span: Span, arguments: Vec<Association>) -> Selector
        ensures { selector_spans result ≡ Node span (trees_of (map association_spans arguments.items)) }
    {
        Selector::Arguments(span, arguments)
    }

    /// The operand of a qualified expression. Memory is the only error.
    pub fn qualified(alloc: Global, span: Span, operand: Expr) -> Result<Selector, AllocError>
        ensures { IfOk result (λ s. selector_spans s ≡ Node span (only (expr_spans operand))) }
    {
        let operand = Box::new(alloc, operand)?;
        Ok(Selector::Qualified(span, operand))
    }
}

impl Choice {
    /// A value.
    pub fn value(value: Expr) -> Choice
        ensures { choice_spans result ≡ expr_spans value }
    {
        Choice::Value(value)
    }

    /// A range.
    pub fn range(range: Range) -> Choice
        ensures { choice_spans result ≡ range_spans range }
    {
        Choice::Range(range)
    }
}

// Dropping. It is written out here, so that code that holds a tree calls it.

impl Drop for Identifier {
    fn drop(self) {
        let Self { span: _, name: _ } = self;
    }
}

impl Drop for AttributeName {
    fn drop(self) {
        match self {
            AttributeName::Identifier(_) => {}
            AttributeName::Word(_, _) => {}
        }
    }
}

impl Drop for Name {
    #[cycle(expression)]
    fn drop(self) {
        let Self {
            span: _,
            prefix: _,
            selectors: _,
        } = self;
    }
}

impl Drop for Selector {
    #[cycle(expression)]
    fn drop(self) {
        match self {
            Selector::Component(_, _) => {}
            Selector::Arguments(_, _) => {}
            Selector::Attribute(_, _) => {}
            Selector::Qualified(_, _) => {}
        }
    }
}

impl Drop for Association {
    #[cycle(expression)]
    fn drop(self) {
        let Self {
            span: _,
            choices: _,
            value: _,
        } = self;
    }
}

impl Drop for Choice {
    #[cycle(expression)]
    fn drop(self) {
        match self {
            Choice::Value(_) => {}
            Choice::Range(_) => {}
            Choice::Others(_) => {}
        }
    }
}

impl Drop for Range {
    #[cycle(expression)]
    fn drop(self) {
        let Self {
            span: _,
            first: _,
            last: _,
        } = self;
    }
}

impl Drop for Condition {
    #[cycle(expression)]
    fn drop(self) {
        let Self {
            span: _,
            condition: _,
            value: _,
        } = self;
    }
}

impl Drop for Operand {
    #[cycle(expression)]
    fn drop(self) {
        let Self {
            span: _,
            operator: _,
            value: _,
        } = self;
    }
}

impl Drop for Expr {
    #[cycle(expression)]
    fn drop(self) {
        let Self { span: _, kind: _ } = self;
    }
}

impl Drop for ExprKind {
    #[cycle(expression)]
    fn drop(self) {
        match self {
            ExprKind::Integer(_) => {}
            ExprKind::Real => {}
            ExprKind::Character(_) => {}
            ExprKind::StringLiteral => {}
            ExprKind::Name(_) => {}
            ExprKind::Parenthesized(_) => {}
            ExprKind::Aggregate(_) => {}
            ExprKind::Conditional(_, _) => {}
            ExprKind::Unary(_, _) => {}
            ExprKind::Chain(_, _) => {}
            ExprKind::Membership(_, _, _) => {}
        }
    }
}
