//! Declarations (RM 3, 6, 9, 11).

use crate::expression::{Expr, Identifier};
use crate::statement::{Handler, Range, Stmt};

/// An aspect specification (RM 13.1.1): the place of `with`, the aspect's name and its value.
pub struct Aspect {
    pub place: u32,
    pub name: Identifier,
    pub value: Expr,
}

/// The declaration of an object (RM 3.3.1).
pub struct ObjectDeclaration {
    pub name: Identifier,
    pub constant: bool,
    pub subtype: Identifier,
    pub value: Option<Expr>,
}

/// A component of a record type (RM 3.8).
pub struct Component {
    pub name: Identifier,
    pub subtype: Identifier,
}

/// The index of an array type (RM 3.6).
pub enum ArrayIndex {
    Range(Range),
    Subtype(Identifier),
}

/// What a type or subtype is (RM 3.2).
pub enum TypeDefinition {
    /// An integer type (RM 3.5.4).
    Integer(Range),
    /// The index, and the subtype of the components.
    Array(ArrayIndex, Identifier),
    /// One or more components.
    Record(Vec<Component>),
    /// The subtype that it is made from, and its range, if there is one.
    Subtype(Identifier, Option<Range>),
}

/// The declaration of a type or a subtype (RM 3.2).
pub struct TypeDeclaration {
    pub name: Identifier,
    pub definition: TypeDefinition,
}

/// The mode of a formal parameter (RM 6.2).
#[derive(Clone, Copy, Debug, PartialEq, Eq)]
pub enum Mode {
    In,
    Out,
    InOut,
}

/// A formal parameter (RM 6.1).
pub struct Formal {
    pub name: Identifier,
    pub mode: Mode,
    pub subtype: Identifier,
}

/// The specification of a procedure, or of a function with its result (RM 6.1), and the place of its first token.
pub struct Subprogram {
    pub place: u32,
    pub name: Identifier,
    pub formals: Vec<Formal>,
    pub result: Option<Identifier>,
}

/// The declaration of a protected object's entry (RM 9.5.2), and the place of `entry`.
pub struct EntryDeclaration {
    pub place: u32,
    pub name: Identifier,
    pub formals: Vec<Formal>,
}

/// An entry of a task, and the place of `entry`.
pub struct TaskEntry {
    pub place: u32,
    pub name: Identifier,
}

/// What is between `is` and the semicolon of a task's declaration (RM 9.1).
pub struct TaskDefinition {
    pub entries: Vec<TaskEntry>,
    pub end_name: Identifier,
}

/// The declaration of a task (RM 9.1), and the place of `task`.
pub struct TaskDeclaration {
    pub place: u32,
    pub name: Identifier,
    pub aspect: Option<Aspect>,
    pub definition: Option<TaskDefinition>,
}

/// An operation of a protected object (RM 9.4); a procedure may have an aspect that makes it the handler of an interrupt (RM C.3.1).
pub enum Operation {
    Subprogram(Subprogram, Option<Aspect>),
    Entry(EntryDeclaration),
}

/// A component of a protected object (RM 9.4).
pub struct ProtectedComponent {
    pub name: Identifier,
    pub subtype: Identifier,
    pub value: Option<Expr>,
}

/// The declaration of a protected object (RM 9.4), and the place of `protected`.
pub struct ProtectedDeclaration {
    pub place: u32,
    pub name: Identifier,
    pub aspect: Option<Aspect>,
    pub operations: Vec<Operation>,
    pub components: Vec<ProtectedComponent>,
    pub end_name: Identifier,
}

/// A declaration in a body or a block (RM 3.11).
pub enum Declaration {
    Object(ObjectDeclaration),
    Task(TaskDeclaration),
    Protected(ProtectedDeclaration),
}

/// A body (RM 6.3): declarations, one or more statements, handlers, and the name after `end`.
pub struct Body {
    pub declarations: Vec<Declaration>,
    pub statements: Vec<Stmt>,
    pub handlers: Vec<Handler>,
    pub end_name: Identifier,
}

/// A declaration in a package (RM 7.1).
pub enum Item {
    Type(TypeDeclaration),
    Object(ObjectDeclaration),
    Exception(Identifier),
    Subprogram(Subprogram),
    Task(TaskDeclaration),
    Protected(ProtectedDeclaration),
}

// Dropping. It is written out here, so that code that holds a tree calls it.

impl Drop for Aspect {
    fn drop(self) {
        let Self {
            place: _,
            name: _,
            value: _,
        } = self;
    }
}

impl Drop for ObjectDeclaration {
    fn drop(self) {
        let Self {
            name: _,
            constant: _,
            subtype: _,
            value: _,
        } = self;
    }
}

impl Drop for Component {
    fn drop(self) {
        let Self {
            name: _,
            subtype: _,
        } = self;
    }
}

impl Drop for ArrayIndex {
    fn drop(self) {
        match self {
            ArrayIndex::Range(_) => {}
            ArrayIndex::Subtype(_) => {}
        }
    }
}

impl Drop for TypeDefinition {
    fn drop(self) {
        match self {
            TypeDefinition::Integer(_) => {}
            TypeDefinition::Array(_, _) => {}
            TypeDefinition::Record(_) => {}
            TypeDefinition::Subtype(_, _) => {}
        }
    }
}

impl Drop for TypeDeclaration {
    fn drop(self) {
        let Self {
            name: _,
            definition: _,
        } = self;
    }
}

impl Drop for Formal {
    fn drop(self) {
        let Self {
            name: _,
            mode: _,
            subtype: _,
        } = self;
    }
}

impl Drop for Subprogram {
    fn drop(self) {
        let Self {
            place: _,
            name: _,
            formals: _,
            result: _,
        } = self;
    }
}

impl Drop for EntryDeclaration {
    fn drop(self) {
        let Self {
            place: _,
            name: _,
            formals: _,
        } = self;
    }
}

impl Drop for TaskEntry {
    fn drop(self) {
        let Self { place: _, name: _ } = self;
    }
}

impl Drop for TaskDefinition {
    fn drop(self) {
        let Self {
            entries: _,
            end_name: _,
        } = self;
    }
}

impl Drop for TaskDeclaration {
    fn drop(self) {
        let Self {
            place: _,
            name: _,
            aspect: _,
            definition: _,
        } = self;
    }
}

impl Drop for Operation {
    fn drop(self) {
        match self {
            Operation::Subprogram(_, _) => {}
            Operation::Entry(_) => {}
        }
    }
}

impl Drop for ProtectedComponent {
    fn drop(self) {
        let Self {
            name: _,
            subtype: _,
            value: _,
        } = self;
    }
}

impl Drop for ProtectedDeclaration {
    fn drop(self) {
        let Self {
            place: _,
            name: _,
            aspect: _,
            operations: _,
            components: _,
            end_name: _,
        } = self;
    }
}

impl Drop for Declaration {
    fn drop(self) {
        match self {
            Declaration::Object(_) => {}
            Declaration::Task(_) => {}
            Declaration::Protected(_) => {}
        }
    }
}

impl Drop for Body {
    fn drop(self) {
        let Self {
            declarations: _,
            statements: _,
            handlers: _,
            end_name: _,
        } = self;
    }
}

impl Drop for Item {
    fn drop(self) {
        match self {
            Item::Type(_) => {}
            Item::Object(_) => {}
            Item::Exception(_) => {}
            Item::Subprogram(_) => {}
            Item::Task(_) => {}
            Item::Protected(_) => {}
        }
    }
}
