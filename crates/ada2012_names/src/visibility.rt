//! Which declarations are visible at a place (RM 8.3, 8.4).

use crate::candidates::Candidates;
use crate::entity::EntityId;
use crate::table::Names;
use base::Text;
use std::alloc::{AllocError, Global};

/// What a clause makes visible.
#[derive(Clone, Copy, PartialEq, Eq)]
pub(crate) enum ClauseKind {
    With,
    Use,
}

// A clause of a package, which holds in its body and in its children, too (RM 8.4(3), 10.1.2(9)).
#[derive(Clone, Copy, PartialEq, Eq)]
struct KeptClause {
    of: EntityId,
    kind: ClauseKind,
    unit: EntityId,
}

/// How many declarations and use clauses were visible where a region began.
#[derive(Clone, Copy)]
pub(crate) struct Mark {
    visible: usize,
    used: usize,
}

/// The declarations that are visible at a place.
#[derive(Drop)]
pub(crate) struct Visibility {
    // The declarations that are directly visible, or would be if none of the same name came later.
    visible: Vec<EntityId>,
    // The packages of the use clauses that hold.
    used: Vec<EntityId>,
    // The clauses of packages.
    kept: Vec<KeptClause>,
}

impl Visibility {
    /// Nothing is visible.
    pub(crate) fn new(alloc: Global) -> Visibility {
        Visibility {
            visible: Vec::new(alloc),
            used: Vec::new(alloc),
            kept: Vec::new(alloc),
        }
    }

    /// A region begins.
    pub(crate) fn mark(&self) -> Mark {
        Mark {
            visible: self.visible.len(),
            used: self.used.len(),
        }
    }

    /// The region that began here ends.
    pub(crate) fn leave(&mut self, mark: Mark) {
        self.visible.truncate(mark.visible);
        self.used.truncate(mark.used);
    }

    /// A declaration is visible from here on.
    pub(crate) fn show(&mut self, id: EntityId) -> Result<(), AllocError> {
        self.visible.push(id)?;
        Ok(())
    }

    /// All that is declared within an entity is visible from here on.
    pub(crate) fn show_region(&mut self, names: &Names, of: EntityId) -> Result<(), AllocError> {
        for (number, entity) in names.entities().iter().enumerate() {
            if entity.within == Some(of) {
                self.visible.push(EntityId { number })?;
            }
        }
        Ok(())
    }

    /// What a clause says holds from here on.
    pub(crate) fn apply(&mut self, kind: ClauseKind, unit: EntityId) -> Result<(), AllocError> {
        match kind {
            ClauseKind::With => self.visible.push(unit)?,
            ClauseKind::Use => self.used.push(unit)?,
        }
        Ok(())
    }

    /// Keeps all clauses that were applied since a region began as those of a package.
    pub(crate) fn keep_since(&mut self, mark: Mark, of: EntityId) -> Result<(), AllocError> {
        for at in mark.visible..self.visible.len() {
            if let Some(unit) = self.visible.get(at).copied() {
                self.keep(of, ClauseKind::With, unit)?;
            }
        }
        for at in mark.used..self.used.len() {
            if let Some(unit) = self.used.get(at).copied() {
                self.keep(of, ClauseKind::Use, unit)?;
            }
        }
        Ok(())
    }

    /// Keeps a clause of a package, for its body and its children.
    pub(crate) fn keep(
        &mut self,
        of: EntityId,
        kind: ClauseKind,
        unit: EntityId,
    ) -> Result<(), AllocError> {
        self.kept.push(KeptClause { of, kind, unit })?;
        Ok(())
    }

    /// What the clauses of a package say holds from here on.
    pub(crate) fn apply_kept(&mut self, of: EntityId) -> Result<(), AllocError> {
        for at in 0..self.kept.len() {
            if let Some(kept) = self.kept.get(at).copied()
                && kept.of == of
            {
                self.apply(kept.kind, kept.unit)?;
            }
        }
        Ok(())
    }

    // Adds the declarations of a name that are directly visible: the innermost one, and those outside of it, as long as all can be overloaded.
    fn add_direct(&self, names: &Names, name: &Text, found: &mut Candidates) {
        for id in self.visible.iter().rev() {
            if names.is_named(*id, name) {
                let inner = found.first();
                if names.is_overloadable(*id) {
                    found.add(names, *id, inner);
                } else {
                    if inner.is_none() {
                        found.add(names, *id, None);
                    }
                    return;
                }
            }
        }
    }

    // Adds the declarations of a name that use clauses make visible beside what is directly visible.
    fn add_used(&self, names: &Names, name: &Text, found: &mut Candidates) {
        let direct = found.first();
        for package in &self.used {
            for (number, entity) in names.entities().iter().enumerate() {
                let id = EntityId { number };
                if entity.within == Some(*package)
                    && !entity.hidden
                    && names.is_named(id, name)
                    && (direct.is_none() || entity.kind.is_overloadable())
                {
                    found.add(names, id, direct);
                }
            }
        }
    }

    /// The declarations of a name that are visible here, at a place where a value of this type is expected.
    pub(crate) fn candidates(
        &self,
        names: &Names,
        name: &Text,
        expected: Option<EntityId>,
    ) -> Candidates {
        let mut found = Candidates::new(expected);
        self.add_direct(names, name, &mut found);
        let goes_on = match found.first() {
            Some(first) => names.is_overloadable(first),
            None => true,
        };
        if goes_on {
            self.add_used(names, name, &mut found);
        }
        found
    }
}
