//! Whole texts (RM 10).

use crate::declaration::{Aspect, Body, EntryDeclaration, Item, Subprogram};
use crate::expression::{Expr, Identifier};

/// A pragma with one argument (RM 2.8), and the place of `pragma`.
pub struct Pragma {
    pub place: u32,
    pub name: Identifier,
    pub argument: Identifier,
}

/// The name of a library unit, of one or two identifiers.
pub struct UnitName {
    pub first: Identifier,
    pub second: Option<Identifier>,
}

/// The clauses `with` and `use` for a library unit (RM 10.1.2), and the place of `with`.
pub struct UnitClause {
    pub place: u32,
    pub unit: UnitName,
    pub used: UnitName,
}

/// The declaration of a package (RM 7.1), and the place of `package`.
pub struct PackageDeclaration {
    pub place: u32,
    pub name: Identifier,
    pub items: Vec<Item>,
    pub end_name: Identifier,
}

/// What is in the body of a protected object (RM 9.4).
pub enum ProtectedBodyItem {
    Subprogram(Subprogram, Body),
    /// The entry, its barrier and its body.
    Entry(EntryDeclaration, Expr, Body),
}

/// What is in the body of a package (RM 7.2).
pub enum BodyItem {
    Item(Item),
    Subprogram(Subprogram, Body),
    Task(Identifier, Body),
    /// The object's name, its operations, and the name after `end`.
    Protected(Identifier, Vec<ProtectedBodyItem>, Identifier),
}

/// The body of a package (RM 7.2), and the place of `package`.
pub struct PackageBody {
    pub place: u32,
    pub name: Identifier,
    pub items: Vec<BodyItem>,
    pub end_name: Identifier,
}

/// A package, with the clauses before it and the name in main's `with` after it.
pub struct Package {
    pub clauses: Vec<UnitClause>,
    pub declaration: PackageDeclaration,
    pub body: PackageBody,
    pub with_name: Identifier,
}

/// A statement of main.
pub enum MainStatement {
    /// Its place.
    Null(u32),
    /// The package and its procedure.
    Call(Identifier, Identifier),
}

/// The main procedure (RM 10.2), and the place of `procedure`.
pub struct Main {
    pub place: u32,
    pub name: Identifier,
    pub aspect: Option<Aspect>,
    pub statements: Vec<MainStatement>,
    pub end_name: Identifier,
}

/// A whole text (RM 10.1).
pub struct Program {
    pub pragmas: Vec<Pragma>,
    pub package_: Option<Package>,
    pub main: Main,
}

// Dropping. It is written out here, so that code that holds a tree calls it.

impl Drop for Pragma {
    fn drop(self) {
        let Self {
            place: _,
            name: _,
            argument: _,
        } = self;
    }
}

impl Drop for UnitName {
    fn drop(self) {
        let Self {
            first: _,
            second: _,
        } = self;
    }
}

impl Drop for UnitClause {
    fn drop(self) {
        let Self {
            place: _,
            unit: _,
            used: _,
        } = self;
    }
}

impl Drop for PackageDeclaration {
    fn drop(self) {
        let Self {
            place: _,
            name: _,
            items: _,
            end_name: _,
        } = self;
    }
}

impl Drop for ProtectedBodyItem {
    fn drop(self) {
        match self {
            ProtectedBodyItem::Subprogram(_, _) => {}
            ProtectedBodyItem::Entry(_, _, _) => {}
        }
    }
}

impl Drop for BodyItem {
    fn drop(self) {
        match self {
            BodyItem::Item(_) => {}
            BodyItem::Subprogram(_, _) => {}
            BodyItem::Task(_, _) => {}
            BodyItem::Protected(_, _, _) => {}
        }
    }
}

impl Drop for PackageBody {
    fn drop(self) {
        let Self {
            place: _,
            name: _,
            items: _,
            end_name: _,
        } = self;
    }
}

impl Drop for Package {
    fn drop(self) {
        let Self {
            clauses: _,
            declaration: _,
            body: _,
            with_name: _,
        } = self;
    }
}

impl Drop for MainStatement {
    fn drop(self) {
        match self {
            MainStatement::Null(_) => {}
            MainStatement::Call(_, _) => {}
        }
    }
}

impl Drop for Main {
    fn drop(self) {
        let Self {
            place: _,
            name: _,
            aspect: _,
            statements: _,
            end_name: _,
        } = self;
    }
}

impl Drop for Program {
    fn drop(self) {
        let Self {
            pragmas: _,
            package_: _,
            main: _,
        } = self;
    }
}
