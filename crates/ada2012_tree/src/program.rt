//! Compilations (RM 10.1).

use crate::declaration::{Declaration, UseClause};
use crate::expression::Name;
use crate::statement::Body;
use crate::subtype::{Aspect, Pragma, Specification};
use ada2012_lexer::Span;

/// What precedes a unit (RM 10.1.2). The span of each has its semicolon.
pub enum Clause {
    With(Span, Vec<Name>),
    Use(UseClause),
    Pragma(Pragma),
}

/// The specification of a package (RM 7.1), its visible part and its private part.
pub struct Package {
    pub span: Span,
    pub name: Name,
    pub aspects: Vec<Aspect>,
    pub visible: Vec<Declaration>,
    pub hidden: Vec<Declaration>,
}

/// The body of a package (RM 7.2).
pub struct PackageBody {
    pub span: Span,
    pub name: Name,
    pub aspects: Vec<Aspect>,
    pub body: Body,
}

/// A subprogram that is a unit.
pub struct UnitSubprogram {
    pub span: Span,
    pub specification: Specification,
    pub aspects: Vec<Aspect>,
    pub body: Body,
}

/// A unit. The span of each has its semicolon.
pub enum UnitItem {
    Package(Package),
    PackageBody(PackageBody),
    Subprogram(UnitSubprogram),
}

/// A unit, and the clauses before it.
pub struct Unit {
    pub span: Span,
    pub clauses: Vec<Clause>,
    pub item: UnitItem,
}

/// All units of a text.
pub struct Program {
    pub span: Span,
    pub units: Vec<Unit>,
}

// Dropping. It is written out here, so that code that holds a tree calls it.

impl Drop for Clause {
    fn drop(self) {
        match self {
            Clause::With(_, _) => {}
            Clause::Use(_) => {}
            Clause::Pragma(_) => {}
        }
    }
}

impl Drop for Package {
    fn drop(self) {
        let Self {
            span: _,
            name: _,
            aspects: _,
            visible: _,
            hidden: _,
        } = self;
    }
}

impl Drop for PackageBody {
    fn drop(self) {
        let Self {
            span: _,
            name: _,
            aspects: _,
            body: _,
        } = self;
    }
}

impl Drop for UnitSubprogram {
    fn drop(self) {
        let Self {
            span: _,
            specification: _,
            aspects: _,
            body: _,
        } = self;
    }
}

impl Drop for UnitItem {
    fn drop(self) {
        match self {
            UnitItem::Package(_) => {}
            UnitItem::PackageBody(_) => {}
            UnitItem::Subprogram(_) => {}
        }
    }
}

impl Drop for Unit {
    fn drop(self) {
        let Self {
            span: _,
            clauses: _,
            item: _,
        } = self;
    }
}

impl Drop for Program {
    fn drop(self) {
        let Self { span: _, units: _ } = self;
    }
}
