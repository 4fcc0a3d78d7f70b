//! Where a walk over a text is, and what it does with an identifier.

use crate::candidates::Candidates;
use crate::entity::{Denoted, Entity, EntityId, EntityKind};
use crate::part::Part;
use crate::table::Names;
use crate::visibility::{Mark, Visibility};
use ada2012_tree::{Identifier, Span};
use base::Text;
use std::alloc::{AllocError, Global};

/// A walk over a text in its order.
#[derive(Drop)]
pub(crate) struct Resolver {
    pub(crate) alloc: Global,
    pub(crate) names: Names,
    pub(crate) visibility: Visibility,
    pub(crate) region: Region,
    // The declarations that have a body.
    pub(crate) completed: Vec<EntityId>,
}

/// The declarative region in which a walk is (RM 8.1).
#[derive(Clone, Copy)]
pub(crate) struct Region {
    /// What is declared in the region is within this entity.
    pub(crate) owner: Option<EntityId>,
    /// Is what is declared not visible outside of the region?
    pub(crate) hides: bool,
    /// The subtype that the function around gives.
    pub(crate) result: Option<EntityId>,
}

/// What was around a region that the walk has entered.
#[derive(Clone, Copy)]
pub(crate) struct Around {
    region: Region,
    mark: Mark,
}

impl Resolver {
    /// A walk at its beginning, at which nothing is visible.
    pub(crate) fn new(alloc: Global, names: Names) -> Resolver {
        Resolver {
            alloc,
            names,
            visibility: Visibility::new(alloc),
            region: Region {
                owner: None,
                hides: false,
                result: None,
            },
            completed: Vec::new(alloc),
        }
    }

    /// Enters a region, of which nothing is visible yet.
    pub(crate) fn enter(&mut self, region: Region) -> Around {
        let around = Around {
            region: self.region,
            mark: self.visibility.mark(),
        };
        self.region = region;
        around
    }

    /// Enters the region of an entity. What is declared in it so far is visible.
    pub(crate) fn enter_entity(&mut self, id: EntityId, hides: bool) -> Result<Around, AllocError> {
        let around = self.enter(Region {
            owner: Some(id),
            hides,
            result: None,
        });
        self.visibility.show_region(&self.names, id)?;
        Ok(around)
    }

    /// Enters a region within that in which the walk is, for what is declared in a statement.
    pub(crate) fn enter_statement(&mut self) -> Around {
        let region = self.region;
        self.enter(region)
    }

    /// Leaves a region.
    pub(crate) fn leave(&mut self, around: Around) {
        self.region = around.region;
        self.visibility.leave(around.mark);
    }

    /// Declares something without a name.
    pub(crate) fn declare_unnamed(
        &mut self,
        span: Span,
        kind: EntityKind,
        subtype: Option<EntityId>,
    ) -> Result<EntityId, AllocError> {
        self.names.declare(Entity {
            span,
            name: None,
            kind,
            within: self.region.owner,
            subtype,
            hidden: self.region.hides,
            predefined: None,
        })
    }

    /// Declares what an identifier names, which isn't visible yet.
    pub(crate) fn declare(
        &mut self,
        identifier: &Identifier,
        kind: EntityKind,
        subtype: Option<EntityId>,
    ) -> Result<EntityId, AllocError> {
        let name = identifier.name.clone()?;
        self.names.declare(Entity {
            span: identifier.span,
            name: Some(name),
            kind,
            within: self.region.owner,
            subtype,
            hidden: self.region.hides,
            predefined: None,
        })
    }

    /// Declares what an identifier names, which is visible from here on.
    pub(crate) fn introduce(
        &mut self,
        identifier: &Identifier,
        kind: EntityKind,
        subtype: Option<EntityId>,
    ) -> Result<EntityId, AllocError> {
        let id = self.declare(identifier, kind, subtype)?;
        self.visibility.show(id)?;
        Ok(id)
    }

    /// Declares what each of these identifiers names, which are visible from here on.
    pub(crate) fn introduce_all(
        &mut self,
        identifiers: &[Identifier],
        kind: EntityKind,
        subtype: Option<EntityId>,
    ) -> Result<(), AllocError> {
        for identifier in identifiers {
            self.introduce(identifier, kind, subtype)?;
        }
        Ok(())
    }

    /// Notes what an identifier denotes.
    pub(crate) fn note(
        &mut self,
        identifier: &Identifier,
        denoted: Denoted,
    ) -> Result<Part, AllocError> {
        self.names.note_use(identifier.span, denoted)?;
        Ok(Part::of(denoted))
    }

    /// Notes that an identifier denotes this entity, or is unknown where that is none.
    pub(crate) fn note_entity(
        &mut self,
        identifier: &Identifier,
        id: Option<EntityId>,
    ) -> Result<(), AllocError> {
        let denoted = match id {
            Some(id) => Denoted::Entity(id),
            None => Denoted::Unknown,
        };
        self.names.note_use(identifier.span, denoted)
    }

    /// Looks for the declaration of an identifier that is directly visible or visible by a use clause, and notes it (RM 8.3, 8.4).
    pub(crate) fn resolve(
        &mut self,
        identifier: &Identifier,
        expected: Option<EntityId>,
    ) -> Result<Part, AllocError> {
        let found = self
            .visibility
            .candidates(&self.names, &identifier.name, expected);
        self.note(identifier, found.denoted())
    }

    // Is the walk in the region of this entity?
    fn is_inside(&self, id: EntityId) -> bool {
        let mut around = self.region.owner;
        for _ in 0..self.names.entities().len() {
            match around {
                None => return false,
                Some(region) => {
                    if region == id {
                        return true;
                    }
                    around = self.names.within(region);
                }
            }
        }
        false
    }

    // Adds the declarations of a name within an entity that are visible by selection.
    fn add_selected(&self, region: EntityId, name: &Text, found: &mut Candidates) {
        let shows_all = self.is_inside(region);
        for (number, entity) in self.names.entities().iter().enumerate() {
            let id = EntityId { number };
            if entity.within == Some(region)
                && (shows_all || !entity.hidden)
                && self.names.is_named(id, name)
            {
                found.add(&self.names, id, None);
            }
        }
    }

    /// Looks for the declaration of a selector, in the type of what is before it, or in the package, task or the like that this is, and notes it (RM 4.1.3).
    pub(crate) fn select(
        &mut self,
        part: Part,
        identifier: &Identifier,
        expected: Option<EntityId>,
    ) -> Result<Part, AllocError> {
        let mut found = Candidates::new(expected);
        if let Some(of) = self.names.type_of_part(part) {
            self.add_selected(of, &identifier.name, &mut found);
        }
        if let Part::Entity(id) = part
            && found.first().is_none()
        {
            self.add_selected(id, &identifier.name, &mut found);
        }
        self.note(identifier, found.denoted())
    }

    /// The first entity of this name that is declared in the region in which the walk is.
    pub(crate) fn declared_here(&self, name: &Text) -> Option<EntityId> {
        self.names.declared_within(self.region.owner, name)
    }
}
