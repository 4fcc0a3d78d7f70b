//! Subtypes as they are written, and parts of declarations that have one (RM 3.2, 3.6, 3.8, 6.1).

use crate::expression::{Association, Expr, Identifier, Name, Range};
use ada_tree::Mode;
use ada2012_lexer::Span;

/// A discrete range (RM 3.6.1).
pub enum DiscreteRange {
    /// Two bounds.
    Bounds(Range),
    /// A name as an expression: of a subtype, or the range of an array by its attribute.
    Name(Expr),
    /// A subtype and the range that constrains it.
    Constrained(Span, Expr, Range),
}

/// The name of a subtype, and the range that constrains it (RM 3.2.2). A constraint of indexes or discriminants is a selector of the name.
pub struct SubtypeIndication {
    pub span: Span,
    pub name: Name,
    pub range: Option<Range>,
}

/// An array type (RM 3.6). Its span begins with `array`.
pub struct ArrayDefinition {
    pub span: Span,
    pub indexes: Vec<DiscreteRange>,
    pub component: SubtypeIndication,
}

/// What an object is declared of: a subtype, or an array type without a name.
pub enum ObjectSubtype {
    Subtype(SubtypeIndication),
    Array(ArrayDefinition),
}

/// Components of a record or of a protected object, with one subtype (RM 3.8). The span has the semicolon.
pub struct Component {
    pub span: Span,
    pub names: Vec<Identifier>,
    pub subtype: ObjectSubtype,
    pub value: Option<Expr>,
    pub aspects: Vec<Aspect>,
}

/// Formal parameters or discriminants with one subtype (RM 6.1, 3.7). The mode of discriminants is `in`.
pub struct Formal {
    pub span: Span,
    pub names: Vec<Identifier>,
    pub mode: Mode,
    pub subtype: Name,
    pub default: Option<Expr>,
}

/// An aspect, and its value if one is given (RM 13.1.1).
pub struct Aspect {
    pub span: Span,
    pub name: Identifier,
    pub value: Option<Expr>,
}

/// A pragma (RM 2.8). The span has the semicolon.
pub struct Pragma {
    pub span: Span,
    pub name: Identifier,
    pub arguments: Vec<Association>,
}

/// What is said of a subprogram before its body: its name, formal parameters, and the subtype of its result if it is a function (RM 6.1). The span begins with
/// `procedure` or `function`.
pub struct Specification {
    pub span: Span,
    pub name: Identifier,
    pub formals: Vec<Formal>,
    pub result: Option<Name>,
}

// Dropping. It is written out here, so that code that holds a tree calls it.

impl Drop for DiscreteRange {
    fn drop(self) {
        match self {
            DiscreteRange::Bounds(_) => {}
            DiscreteRange::Name(_) => {}
            DiscreteRange::Constrained(_, _, _) => {}
        }
    }
}

impl Drop for SubtypeIndication {
    fn drop(self) {
        let Self {
            span: _,
            name: _,
            range: _,
        } = self;
    }
}

impl Drop for ArrayDefinition {
    fn drop(self) {
        let Self {
            span: _,
            indexes: _,
            component: _,
        } = self;
    }
}

impl Drop for ObjectSubtype {
    fn drop(self) {
        match self {
            ObjectSubtype::Subtype(_) => {}
            ObjectSubtype::Array(_) => {}
        }
    }
}

impl Drop for Component {
    fn drop(self) {
        let Self {
            span: _,
            names: _,
            subtype: _,
            value: _,
            aspects: _,
        } = self;
    }
}

impl Drop for Formal {
    fn drop(self) {
        let Self {
            span: _,
            names: _,
            mode: _,
            subtype: _,
            default: _,
        } = self;
    }
}

impl Drop for Aspect {
    fn drop(self) {
        let Self {
            span: _,
            name: _,
            value: _,
        } = self;
    }
}

impl Drop for Pragma {
    fn drop(self) {
        let Self {
            span: _,
            name: _,
            arguments: _,
        } = self;
    }
}

impl Drop for Specification {
    fn drop(self) {
        let Self {
            span: _,
            name: _,
            formals: _,
            result: _,
        } = self;
    }
}
