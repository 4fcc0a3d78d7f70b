//! Declarations (RM 3, 6, 8.4, 9).
ghost use Rattle.std.specs.Prelude.{◌≡◌, map};
ghost use Rattle.ada2012_tree.specs.Spans.{MoreTrees, Node, joined, only, trees_of};
ghost use Rattle.ada2012_tree.specs.ExpressionSpans.{expr_spans, identifier_spans};
ghost use Rattle.ada2012_tree.specs.SubtypeSpans.{aspect_spans, formal_spans, specification_spans};
ghost use Rattle.ada2012_tree.specs.StatementSpans.{body_spans, declaration_spans};

use crate::expression::{Expr, Identifier, Name, Range};
use crate::statement::Body;
use crate::subtype::{
    ArrayDefinition, Aspect, Component, Formal, ObjectSubtype, Pragma, Specification,
    SubtypeIndication,
};
use ada2012_lexer::Span;

/// A declaration or a body. The span of each has its semicolon.
#[cycle(statement)]
pub enum Declaration {
    Object(ObjectDeclaration),
    /// Names of one number (RM 3.3.2).
    Number(Span, Vec<Identifier>, Expr),
    Exception(Span, Vec<Identifier>),
    Type(TypeDeclaration),
    Subtype(Span, Identifier, SubtypeIndication, Vec<Aspect>),
    Subprogram(Span, Specification, Vec<Aspect>),
    NullProcedure(Span, Specification, Vec<Aspect>),
    /// A function by an expression, which has its parentheses.
    ExpressionFunction(Span, Specification, Expr, Vec<Aspect>),
    SubprogramBody(Span, Specification, Vec<Aspect>, Body),
    Task(TaskDeclaration),
    TaskBody(Span, Identifier, Body),
    Protected(ProtectedDeclaration),
    ProtectedBody(Span, Identifier, Vec<Declaration>),
    /// The body of an entry: its name, formal parameters and barrier.
    EntryBody(Span, Identifier, Vec<Formal>, Expr, Body),
    Use(UseClause),
    Pragma(Pragma),
}

/// Objects with one subtype and value (RM 3.3.1).
pub struct ObjectDeclaration {
    pub span: Span,
    pub names: Vec<Identifier>,
    pub constant: bool,
    pub subtype: ObjectSubtype,
    pub value: Option<Expr>,
    pub aspects: Vec<Aspect>,
}

/// A type and its discriminants (RM 3.2.1).
pub struct TypeDeclaration {
    pub span: Span,
    pub name: Identifier,
    pub discriminants: Vec<Formal>,
    pub definition: TypeDefinition,
    pub aspects: Vec<Aspect>,
}

/// What a type is. An array has its span; the others have none.
pub enum TypeDefinition {
    Enumeration(Vec<Identifier>),
    Integer(Range),
    Modular(Expr),
    Array(ArrayDefinition),
    /// A record with these components; a null record has none.
    Record(Vec<Component>),
}

/// Whether a task or protected declaration is of one object or of a type.
#[derive(Clone, Copy, PartialEq, Eq)]
pub enum Form {
    Single,
    Type,
}

/// A task or a task type (RM 9.1), and the pragmas in it.
pub struct TaskDeclaration {
    pub span: Span,
    pub form: Form,
    pub name: Identifier,
    pub discriminants: Vec<Formal>,
    pub aspects: Vec<Aspect>,
    pub pragmas: Vec<Pragma>,
}

/// A protected object or a protected type (RM 9.4), its visible part and its private part.
pub struct ProtectedDeclaration {
    pub span: Span,
    pub form: Form,
    pub name: Identifier,
    pub discriminants: Vec<Formal>,
    pub aspects: Vec<Aspect>,
    pub visible: Vec<ProtectedItem>,
    pub hidden: Vec<ProtectedItem>,
}

/// What a protected object declares. The span of each has its semicolon.
pub enum ProtectedItem {
    Subprogram(Span, Specification, Vec<Aspect>),
    Entry(Span, Identifier, Vec<Formal>, Vec<Aspect>),
    Component(Component),
    Pragma(Pragma),
}

/// A use clause of packages, or of types by `use type` (RM 8.4).
pub struct UseClause {
    pub span: Span,
    pub types: bool,
    pub names: Vec<Name>,
}

impl Declaration {
    /// The body of a protected object.
    pub fn protected_body(span: Span, name: Identifier, items: Vec<Declaration>) -> Declaration
        ensures { declaration_spans result ≡ Node span (MoreTrees (identifier_spans name) (trees_of (map declaration_spans items.items))) }
    {
        Declaration::ProtectedBody(span, name, items)
    }

    /// The body of a task.
    pub fn task_body(span: Span, name: Identifier, body: Body) -> Declaration
        ensures { declaration_spans result ≡ Node span (MoreTrees (identifier_spans name) (only (body_spans body))) }
    {
        Declaration::TaskBody(span, name, body)
    }

    /// The body of a subprogram.
    pub fn subprogram_body(
        span: Span,
        specification: Specification,
        aspects: Vec<Aspect>,
        body: Body,
    ) -> Declaration
        ensures { declaration_spans result ≡ Node span (MoreTrees (specification_spans specification)
            (joined (trees_of (map aspect_spans aspects.items)) (only (body_spans body)))) }
    {
        Declaration::SubprogramBody(span, specification, aspects, body)
    }

    /// The body of an entry.
    pub fn entry_body(
        span: Span,
        name: Identifier,
        formals: Vec<Formal>,
        barrier: Expr,
        body: Body,
    ) -> Declaration
        ensures { declaration_spans result ≡ Node span (MoreTrees (identifier_spans name)
            (joined (trees_of (map formal_spans formals.items)) (MoreTrees (expr_spans barrier) (only (body_spans body))))) }
    {
        Declaration::EntryBody(span, name, formals, barrier, body)
    }
}

// Dropping. It is written out here, so that code that holds a tree calls it.

impl Drop for Declaration {
    #[cycle(statement)]
    fn drop(self) {
        match self {
            Declaration::Object(_) => {}
            Declaration::Number(_, _, _) => {}
            Declaration::Exception(_, _) => {}
            Declaration::Type(_) => {}
            Declaration::Subtype(_, _, _, _) => {}
            Declaration::Subprogram(_, _, _) => {}
            Declaration::NullProcedure(_, _, _) => {}
            Declaration::ExpressionFunction(_, _, _, _) => {}
            Declaration::SubprogramBody(_, _, _, _) => {}
            Declaration::Task(_) => {}
            Declaration::TaskBody(_, _, _) => {}
            Declaration::Protected(_) => {}
            Declaration::ProtectedBody(_, _, _) => {}
            Declaration::EntryBody(_, _, _, _, _) => {}
            Declaration::Use(_) => {}
            Declaration::Pragma(_) => {}
        }
    }
}

impl Drop for ObjectDeclaration {
    fn drop(self) {
        let Self {
            span: _,
            names: _,
            constant: _,
            subtype: _,
            value: _,
            aspects: _,
        } = self;
    }
}

impl Drop for TypeDeclaration {
    fn drop(self) {
        let Self {
            span: _,
            name: _,
            discriminants: _,
            definition: _,
            aspects: _,
        } = self;
    }
}

impl Drop for TypeDefinition {
    fn drop(self) {
        match self {
            TypeDefinition::Enumeration(_) => {}
            TypeDefinition::Integer(_) => {}
            TypeDefinition::Modular(_) => {}
            TypeDefinition::Array(_) => {}
            TypeDefinition::Record(_) => {}
        }
    }
}

impl Drop for TaskDeclaration {
    fn drop(self) {
        let Self {
            span: _,
            form: _,
            name: _,
            discriminants: _,
            aspects: _,
            pragmas: _,
        } = self;
    }
}

impl Drop for ProtectedDeclaration {
    fn drop(self) {
        let Self {
            span: _,
            form: _,
            name: _,
            discriminants: _,
            aspects: _,
            visible: _,
            hidden: _,
        } = self;
    }
}

impl Drop for ProtectedItem {
    fn drop(self) {
        match self {
            ProtectedItem::Subprogram(_, _, _) => {}
            ProtectedItem::Entry(_, _, _, _) => {}
            ProtectedItem::Component(_) => {}
            ProtectedItem::Pragma(_) => {}
        }
    }
}

impl Drop for UseClause {
    fn drop(self) {
        let Self {
            span: _,
            types: _,
            names: _,
        } = self;
    }
}
