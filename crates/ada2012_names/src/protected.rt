//! Declarations of tasks and of protected objects, and of their types (RM 9.1, 9.4).

use crate::entity::{EntityKind, TypeForm};
use crate::resolver::Resolver;
use ada2012_tree::{Form, ProtectedDeclaration, ProtectedItem, TaskDeclaration};
use std::alloc::AllocError;

impl Resolver {
    /// Declares a task or a task type.
    pub(crate) fn task(&mut self, task: &TaskDeclaration) -> Result<(), AllocError> {
        let kind = match task.form {
            Form::Single => EntityKind::Task,
            Form::Type => EntityKind::Type(TypeForm::Task),
        };
        let id = self.introduce(&task.name, kind, None)?;
        let around = self.enter_entity(id, false)?;
        self.discriminants(&task.discriminants)?;
        self.aspects(&task.aspects)?;
        self.pragmas(&task.pragmas)?;
        self.leave(around);
        Ok(())
    }

    // Declares what is in a protected object.
    fn protected_item(&mut self, item: &ProtectedItem) -> Result<(), AllocError> {
        match item {
            ProtectedItem::Subprogram(_, specification, aspects) => {
                let id = self.specification(specification)?;
                self.aspects_of(id, aspects)
            }
            ProtectedItem::Entry(_, name, formals, aspects) => {
                let id = self.entry(name, formals)?;
                self.aspects_of(id, aspects)
            }
            ProtectedItem::Component(component) => self.component(component),
            ProtectedItem::Pragma(pragma) => self.pragma(pragma),
        }
    }

    fn protected_items(&mut self, items: &[ProtectedItem]) -> Result<(), AllocError> {
        for item in items {
            self.protected_item(item)?;
        }
        Ok(())
    }

    /// Declares a protected object or a protected type, and what is in it.
    pub(crate) fn protected(&mut self, protected: &ProtectedDeclaration) -> Result<(), AllocError> {
        let kind = match protected.form {
            Form::Single => EntityKind::Protected,
            Form::Type => EntityKind::Type(TypeForm::Protected),
        };
        let id = self.introduce(&protected.name, kind, None)?;
        let around = self.enter_entity(id, false)?;
        self.discriminants(&protected.discriminants)?;
        self.aspects(&protected.aspects)?;
        self.protected_items(&protected.visible)?;
        self.region.hides = true;
        self.protected_items(&protected.hidden)?;
        self.leave(around);
        Ok(())
    }
}
