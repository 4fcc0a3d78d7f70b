//! Units and the clauses before them (RM 10.1).

use crate::entity::{Denoted, EntityId, EntityKind};
use crate::part::Part;
use crate::resolver::{Region, Resolver};
use crate::visibility::{ClauseKind, Mark};
use ada2012_tree::{Clause, Identifier, Name, Package, PackageBody, Selector, Unit, UnitItem};
use base::Text;
use std::alloc::AllocError;

// The name of a unit that has a name of several parts in other units.
fn item_name(item: &UnitItem) -> Option<&Name> {
    match item {
        UnitItem::Package(package) => Some(&package.name),
        UnitItem::PackageBody(package) => Some(&package.name),
        UnitItem::Subprogram(_) => None,
    }
}

impl Resolver {
    // The unit of this name that is no child.
    fn root(&self, name: &Text) -> Option<EntityId> {
        self.names.declared_within(None, name)
    }

    // The child of a unit that a selector names.
    fn child(&self, parent: EntityId, selector: &Selector) -> Option<EntityId> {
        match selector {
            Selector::Component(_, identifier) => {
                self.names.declared_within(Some(parent), &identifier.name)
            }
            _ => None,
        }
    }

    // Notes the root of the name of a unit.
    fn resolve_root(&mut self, identifier: &Identifier) -> Result<Part, AllocError> {
        let denoted = match self.root(&identifier.name) {
            Some(id) => Denoted::Entity(id),
            None => Denoted::Unknown,
        };
        self.note(identifier, denoted)
    }

    // Notes selectors of the name of a unit.
    fn resolve_children(&mut self, root: Part, selectors: &[Selector]) -> Result<Part, AllocError> {
        let mut part = root;
        for selector in selectors {
            if let Selector::Component(_, identifier) = selector {
                part = self.select(part, identifier, None)?;
            }
        }
        Ok(part)
    }

    // Resolves the name of a unit that was declared before.
    fn unit_name(&mut self, name: &Name) -> Result<Part, AllocError> {
        let root = self.resolve_root(&name.prefix)?;
        self.resolve_children(root, &name.selectors)
    }

    // Resolves the names of a with clause: the first part of each is visible from here on (RM 10.1.2).
    fn with_clause(&mut self, names: &[Name]) -> Result<(), AllocError> {
        for name in names {
            self.unit_name(name)?;
            if let Some(root) = self.root(&name.prefix.name) {
                self.visibility.apply(ClauseKind::With, root)?;
            }
        }
        Ok(())
    }

    fn clauses(&mut self, clauses: &[Clause]) -> Result<(), AllocError> {
        for clause in clauses {
            match clause {
                Clause::With(_, names) => self.with_clause(names)?,
                Clause::Use(clause) => self.use_clause(clause)?,
                Clause::Pragma(pragma) => self.pragma(pragma)?,
            }
        }
        Ok(())
    }

    // Applies the clauses of the units that the parts of a name denote, as far as these have been declared.
    fn apply_inherited(&mut self, name: &Name) -> Result<(), AllocError> {
        let mut unit = self.root(&name.prefix.name);
        if let Some(root) = unit {
            self.visibility.apply_kept(root)?;
        }
        for selector in &name.selectors {
            unit = match unit {
                Some(parent) => self.child(parent, selector),
                None => None,
            };
            if let Some(child) = unit {
                self.visibility.apply_kept(child)?;
            }
        }
        Ok(())
    }

    // Makes visible the first part of the name of a package, and what its parents declare (RM 8.1(9), 10.1.1(3)).
    fn show_parents(&mut self, name: &Name) -> Result<(), AllocError> {
        let mut unit = self.root(&name.prefix.name);
        if let Some(root) = unit {
            self.visibility.show(root)?;
        }
        for selector in &name.selectors {
            if let Some(parent) = unit {
                self.visibility.show_region(&self.names, parent)?;
                unit = self.child(parent, selector);
            }
        }
        Ok(())
    }

    // Declares a package within this parent.
    fn declare_child(
        &mut self,
        identifier: &Identifier,
        parent: Option<EntityId>,
    ) -> Result<EntityId, AllocError> {
        let around = self.enter(Region {
            owner: parent,
            hides: false,
            result: None,
        });
        let id = self.declare(identifier, EntityKind::Package, None)?;
        self.leave(around);
        Ok(id)
    }

    // Resolves the name of a package specification, and declares the package.
    fn package_name(&mut self, name: &Name) -> Result<EntityId, AllocError> {
        match name.selectors.as_slice() {
            [between @ .., Selector::Component(_, identifier)] => {
                let root = self.resolve_root(&name.prefix)?;
                let parent = match self.resolve_children(root, between)? {
                    Part::Entity(id) => Some(id),
                    _ => None,
                };
                self.declare_child(identifier, parent)
            }
            _ => self.declare_child(&name.prefix, None),
        }
    }

    // Declares a package whose clauses were applied since this mark, and what is in it (RM 7.1).
    fn package(&mut self, package: &Package, mark: Mark) -> Result<(), AllocError> {
        let id = self.package_name(&package.name)?;
        self.visibility.keep_since(mark, id)?;
        self.show_parents(&package.name)?;
        let around = self.enter_entity(id, false)?;
        self.aspects(&package.aspects)?;
        self.declarations(&package.visible)?;
        self.region.hides = true;
        self.declarations(&package.hidden)?;
        self.leave(around);
        Ok(())
    }

    // Resolves the body of a package (RM 7.2).
    fn package_body(&mut self, package: &PackageBody) -> Result<(), AllocError> {
        let part = self.unit_name(&package.name)?;
        self.show_parents(&package.name)?;
        let around = match part {
            Part::Entity(id) => {
                self.completed.push(id)?;
                self.enter_entity(id, true)?
            }
            _ => self.enter_statement(),
        };
        self.aspects(&package.aspects)?;
        self.body(&package.body)?;
        self.leave(around);
        Ok(())
    }

    /// Resolves a unit and the clauses before it.
    pub(crate) fn unit(&mut self, unit: &Unit) -> Result<(), AllocError> {
        let around = self.enter_statement();
        let mark = self.visibility.mark();
        if let Some(name) = item_name(&unit.item) {
            self.apply_inherited(name)?;
        }
        self.clauses(&unit.clauses)?;
        match &unit.item {
            UnitItem::Package(package) => self.package(package, mark)?,
            UnitItem::PackageBody(package) => self.package_body(package)?,
            UnitItem::Subprogram(subprogram) => self.subprogram_body(
                &subprogram.body,
                &subprogram.specification,
                &subprogram.aspects,
            )?,
        }
        self.leave(around);
        Ok(())
    }
}
