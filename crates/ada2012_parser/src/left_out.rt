//! What is Ada and isn't taken.

use thiserror::Error;

/// A construct of Ada that the trees don't have. It is refused at its first token, or at the first one that shows what it is.
#[derive(Clone, Copy, Debug, PartialEq, Eq, Error)]
pub enum LeftOut {
    #[error("an abort statement")]
    Abort,
    #[error("an accept statement")]
    Accept,
    #[error("an access type or value")]
    Access,
    #[error("an aliased object or component")]
    Aliased,
    #[error("a case expression")]
    CaseExpression,
    #[error("a component that takes its default in an aggregate")]
    DefaultComponent,
    #[error("a derived type")]
    Derived,
    #[error("an entry of a task")]
    TaskEntry,
    #[error("an extended return statement")]
    ExtendedReturn,
    #[error("a generic unit or an instance of one")]
    Generic,
    #[error("a goto statement or a label for one")]
    Goto,
    #[error("an interface type")]
    Interface,
    #[error("a limited type or a limited with clause")]
    Limited,
    #[error("a package in a declarative part")]
    NestedPackage,
    #[error("an object that is renamed")]
    Renaming,
    #[error("a function that is an operator")]
    Operator,
    #[error("an overriding indicator")]
    Overriding,
    #[error("a private type")]
    PrivateType,
    #[error("a private unit or private with clause")]
    PrivateUnit,
    #[error("a quantified expression")]
    QuantifiedExpression,
    #[error("a raise expression")]
    RaiseExpression,
    #[error("a real type")]
    RealType,
    #[error("a representation clause")]
    RepresentationClause,
    #[error("a requeue statement")]
    Requeue,
    #[error("a select statement")]
    Select,
    #[error("a separate body")]
    Separate,
    #[error("a slice of an array")]
    Slice,
    #[error("a tagged or abstract type")]
    Tagged,
    #[error("an array type without bounds")]
    UnconstrainedArray,
    #[error("a variant part of a record")]
    Variant,
}
