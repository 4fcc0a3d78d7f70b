//! The trees that token lists spell (docs/LANGUAGE.md, "Grammar"). Places are byte offsets from the text's start.
#![tactic(auto)]

mod declaration;
mod expression;
pub mod laws;
mod parsed;
mod program;
mod statement;

pub use declaration::{
    ArrayIndex, Aspect, Body, Component, Declaration, EntryDeclaration, Formal, Item, Mode,
    ObjectDeclaration, Operation, ProtectedComponent, ProtectedDeclaration, Subprogram,
    TaskDeclaration, TaskDefinition, TaskEntry, TypeDeclaration, TypeDefinition,
};
pub use expression::{
    Argument, BinaryOperator, ElsifValue, Expr, Identifier, NameExpr, Operand, Selector,
    UnaryOperator,
};
pub use parsed::Parsed;
pub use program::{
    BodyItem, Main, MainStatement, Package, PackageBody, PackageDeclaration, Pragma, Program,
    ProtectedBodyItem, UnitClause, UnitName,
};
pub use statement::{
    Alternative, CaseChoices, ElsifPart, ExceptionChoice, Handler, Iteration, Range, Stmt,
};
