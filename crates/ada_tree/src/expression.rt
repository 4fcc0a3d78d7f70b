//! Expressions (RM 4).

ghost use Rattle.std.specs.Prelude.{◌≡◌, IfOk, option_map};
ghost use Rattle.ada_tree.specs.ExpressionTree.{expr_tree, bare_name, name_tree, selector_tree, argument_trees, elsif_value_trees, Named, Arguments, Binary, Unary, Parenthesized, Conditional};

use lexer::Text;
use std::alloc::{AllocError, Global};

/// An identifier, and the place of its first byte.
pub struct Identifier {
    pub name: Text,
    pub place: u32,
}

/// An operator before its operand (RM 4.5).
#[derive(Clone, Copy, Debug, PartialEq, Eq)]
pub enum UnaryOperator {
    Plus,
    Minus,
    Abs,
    Not,
}

/// An operator between its operands, or a short-circuit control form (RM 4.5).
#[derive(Clone, Copy, Debug, PartialEq, Eq)]
pub enum BinaryOperator {
    And,
    Or,
    Xor,
    AndThen,
    OrElse,
    Equal,
    NotEqual,
    Less,
    LessOrEqual,
    Greater,
    GreaterOrEqual,
    Add,
    Subtract,
    Multiply,
    Divide,
    Mod,
    Rem,
}

/// A name (RM 4.1): an identifier, and what follows it.
#[cycle(expression)]
pub struct NameExpr {
    pub first: Identifier,
    pub selectors: Vec<Selector>,
}

/// What follows the beginning of a name (RM 4.1).
#[cycle(expression)]
pub enum Selector {
    /// A dot and an identifier.
    Component(Identifier),
    /// One or more arguments in parentheses: indexes, actual parameters, or the operand of a conversion.
    Arguments(Vec<Argument>),
    /// An apostrophe and an identifier.
    Attribute(Identifier),
}

/// One of the things in the parentheses of a name.
#[cycle(expression)]
pub enum Argument {
    /// An expression.
    Expr(Expr),
    /// A string literal, and the place of its quotation mark.
    Label(Text, u32),
}

/// A condition of an if expression after its first, and the expression for it (RM 4.5.7).
#[cycle(expression)]
pub struct ElsifValue {
    pub condition: Expr,
    pub value: Expr,
}

/// An operator, and the operand after it (RM 4.4).
#[cycle(expression)]
pub struct Operand {
    pub operator: BinaryOperator,
    pub value: Expr,
}

/// An expression (RM 4.4). The place of a unary operation is its operator's, that of a binary operation its left operand's.
#[cycle(expression)]
pub enum Expr {
    /// A number, and its place.
    Number(i64, u32),
    /// A name.
    Name(NameExpr),
    /// The place of the parenthesis, and the expression in it.
    Parenthesized(u32, Box<Expr>),
    /// An if expression in its parentheses (RM 4.5.7): the place of the parenthesis, the first condition and its value, those after it, and the value
    /// of the else part.
    Conditional(u32, Box<Expr>, Box<Expr>, Vec<ElsifValue>, Box<Expr>),
    /// An operator, its place and its operand.
    Unary(UnaryOperator, u32, Box<Expr>),
    /// The first operand, the first operator with the operand after it, and those after it, from left to right. They group to the left: all that
    /// is before an operator is its left operand.
    Chain(Box<Expr>, Box<Operand>, Vec<Operand>),
}

impl Expr {
    /// The expression that a name is.
    pub fn of_name(name: NameExpr) -> Expr
        ensures { expr_tree result ≡ Named (name_tree name).first (name_tree name).selectors }
    {
        Expr::Name(name)
    }

    /// The identifier that the expression is, if it is nothing else.
    pub fn bare_name(&self) -> Option<&Identifier>
        ensures { option_map (λ name. name.now) result ≡ bare_name (expr_tree self.now) }
    {
        match self {
            Expr::Name(name) => name.bare(),
            _ => None,
        }
    }

    /// The operation of this operator on these operands. Memory is the only refusal.
    pub fn binary(
        alloc: Global,
        operator: BinaryOperator,
        left: Expr,
        right: Expr,
    ) -> Result<Expr, AllocError>
        ensures { IfOk result (λ e. expr_tree e ≡ Binary operator (expr_tree left) (expr_tree right)) }
    {
        let last = Operand {
            operator,
            value: right,
        };
        match left {
            Expr::Chain(first, second, mut more) => {
                more.push(last)?;
                Ok(Expr::Chain(first, second, more))
            }
            left => {
                let first = Box::new(alloc, left)?;
                let second = Box::new(alloc, last)?;
                Ok(Expr::Chain(first, second, Vec::new(alloc)))
            }
        }
    }

    /// The operation of this operator, at this place, on this operand. Memory is the only refusal.
    pub fn unary(
        alloc: Global,
        operator: UnaryOperator,
        place: u32,
        operand: Expr,
    ) -> Result<Expr, AllocError>
        ensures { IfOk result (λ e. expr_tree e ≡ Unary operator place (expr_tree operand)) }
    {
        let operand = Box::new(alloc, operand)?;
        Ok(Expr::Unary(operator, place, operand))
    }

    /// The expression in parentheses, the first of which is at this place. Memory is the only refusal.
    pub fn parenthesized(alloc: Global, place: u32, inner: Expr) -> Result<Expr, AllocError>
        ensures { IfOk result (λ e. expr_tree e ≡ Parenthesized place (expr_tree inner)) }
    {
        let inner = Box::new(alloc, inner)?;
        Ok(Expr::Parenthesized(place, inner))
    }

    /// The if expression of these parts, whose parenthesis is at this place. Memory is the only refusal.
    pub fn conditional(
        alloc: Global,
        place: u32,
        condition: Expr,
        value: Expr,
        elsif_values: Vec<ElsifValue>,
        else_value: Expr,
    ) -> Result<Expr, AllocError>
        ensures { IfOk result (λ e. expr_tree e ≡ Conditional place (expr_tree condition) (expr_tree value) (elsif_value_trees elsif_values.items)
            (expr_tree else_value)) }
    {
        let condition = Box::new(alloc, condition)?;
        let value = Box::new(alloc, value)?;
        let else_value = Box::new(alloc, else_value)?;
        Ok(Expr::Conditional(place, condition, value, elsif_values, else_value))
    }
}

impl NameExpr {
    /// The identifier that the name is, if nothing follows it.
    pub fn bare(&self) -> Option<&Identifier>
        ensures { option_map (λ name. name.now) result ≡ bare_name (Named (name_tree self.now).first (name_tree self.now).selectors) }
    {
        match self.selectors.as_slice() {
            [] => Some(&self.first),
            _ => None,
        }
    }
}

impl Selector {
    /// These arguments.
    pub fn of_arguments(arguments: Vec<Argument>) -> Selector
        ensures { selector_tree result ≡ Arguments (argument_trees arguments.items) }
    {
        Selector::Arguments(arguments)
    }
}

// Dropping. It is written out here, so that code that holds a tree calls it.

impl Drop for Identifier {
    fn drop(self) {
        let Self { name: _, place: _ } = self;
    }
}

impl Drop for NameExpr {
    #[cycle(expression)]
    fn drop(self) {
        let Self {
            first: _,
            selectors: _,
        } = self;
    }
}

impl Drop for Selector {
    #[cycle(expression)]
    fn drop(self) {
        match self {
            Selector::Component(_) => {}
            Selector::Arguments(_) => {}
            Selector::Attribute(_) => {}
        }
    }
}

impl Drop for Argument {
    #[cycle(expression)]
    fn drop(self) {
        match self {
            Argument::Expr(_) => {}
            Argument::Label(_, _) => {}
        }
    }
}

impl Drop for ElsifValue {
    #[cycle(expression)]
    fn drop(self) {
        let Self {
            condition: _,
            value: _,
        } = self;
    }
}

impl Drop for Operand {
    #[cycle(expression)]
    fn drop(self) {
        let Self {
            operator: _,
            value: _,
        } = self;
    }
}

impl Drop for Expr {
    #[cycle(expression)]
    fn drop(self) {
        match self {
            Expr::Number(_, _) => {}
            Expr::Name(_) => {}
            Expr::Parenthesized(_, _) => {}
            Expr::Conditional(_, _, _, _, _) => {}
            Expr::Unary(_, _, _) => {}
            Expr::Chain(_, _, _) => {}
        }
    }
}
