//! The trees of texts of whole Ada 2012. Each node has the span of its part of the text.
#![tactic(auto)]

mod declaration;
mod expression;
mod program;
mod statement;
mod subtype;

pub use ada_tree::{Mode, UnaryOperator};
pub use ada2012_lexer::Span;
pub use declaration::{
    Declaration, Form, ObjectDeclaration, ProtectedDeclaration, ProtectedItem, TaskDeclaration,
    TypeDeclaration, TypeDefinition, UseClause,
};
pub use expression::{
    Association, AttributeName, BinaryOperator, Choice, Condition, Expr, ExprKind, Identifier,
    Membership, Name, Operand, Range, Selector,
};
pub use program::{Clause, Package, PackageBody, Program, Unit, UnitItem, UnitSubprogram};
pub use statement::{Alternative, Body, Branch, ExceptionChoice, Handler, Iteration, Statement};
pub use subtype::{
    ArrayDefinition, Aspect, Component, DiscreteRange, Formal, ObjectSubtype, Pragma,
    Specification, SubtypeIndication,
};
