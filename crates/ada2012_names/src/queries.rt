//! Questions about the entities of a table.
ghost use Rattle.std.specs.Prelude.{◌≡◌, ◌&&◌, option_map, position, slice_get};
ghost use Rattle.ada2012_names.specs.Queries.{form, form_of, has_name, is_part_of, leads_to, parent, parent_of, part_at, part_named, parts_from, told_by, type_of};

use crate::entity::{Entity, EntityId, EntityKind, TypeForm};
use crate::table::Names;
use base::Text;

// Does a link lead to this entity?
fn leads_to(id: EntityId, link: Option<EntityId>) -> bool
    ensures { result ≡ leads_to id link }
{
    match link {
        Some(link) => link.number == id.number,
        None => false,
    }
}

fn parent(kind: EntityKind, subtype: Option<EntityId>) -> Option<EntityId>
    ensures { result ≡ parent kind subtype }
{
    match kind {
        EntityKind::Subtype => subtype,
        _ => None,
    }
}

fn form(kind: EntityKind) -> Option<TypeForm>
    ensures { result ≡ form kind }
{
    match kind {
        EntityKind::Type(form) => Some(form),
        _ => None,
    }
}

fn is_part_of(owner: EntityId, entity: &Entity) -> bool
    ensures { result ≡ is_part_of owner entity.now }
{
    leads_to(owner, entity.within) && entity.kind.is_part()
}

fn has_name(name: &Text, own: &Option<Text>) -> bool
    ensures { result ≡ has_name name.now own.now }
{
    match own {
        Some(own) => own.as_bytes() == name.as_bytes(),
        None => false,
    }
}

fn first_part_named(entities: &[Entity], owner: EntityId, name: &Text) -> Option<usize>
    ensures { result ≡ position (λ e. is_part_of owner e && has_name name.now e.name) entities.now }
{
    entities.iter().position(|entity| is_part_of(owner, entity) && has_name(name, &entity.name))
}

fn nth_part(entities: &[Entity], owner: EntityId, place: usize) -> Option<usize>
    ensures { result ≡ slice_get (parts_from owner 0 entities.now) place }
{
    let mut left = place;
    for (number, entity) in entities.iter().enumerate() {
        if is_part_of(owner, entity) {
            if left == 0 {
                return Some(number);
            }
            left -= 1;
        }
    }
    None
}

impl Names {
    /// What an entity is, if it is one of the table.
    pub fn kind_of(&self, id: EntityId) -> Option<EntityKind>
        ensures { result ≡ option_map (λ e. e.kind) (slice_get self.now.entities id.number) }
    {
        match self.entity(id) {
            Some(entity) => Some(entity.kind),
            None => None,
        }
    }

    /// In what an entity is declared, if that is an entity of the table.
    pub fn within(&self, id: EntityId) -> Option<EntityId>
        ensures { result ≡ told_by (λ e. e.within) (slice_get self.now.entities id.number) }
    {
        match self.entity(id) {
            Some(entity) => entity.within,
            None => None,
        }
    }

    /// The subtype of an entity, if it has one that is known.
    pub fn subtype_of(&self, id: EntityId) -> Option<EntityId>
        ensures { result ≡ told_by (λ e. e.subtype) (slice_get self.now.entities id.number) }
    {
        match self.entity(id) {
            Some(entity) => entity.subtype,
            None => None,
        }
    }

    // What a subtype is a subtype of.
    fn parent_of(&self, id: EntityId) -> Option<EntityId>
        ensures { result ≡ parent_of self.now.entities id }
    {
        match self.entity(id) {
            Some(entity) => parent(entity.kind, entity.subtype),
            None => None,
        }
    }

    /// The type of a subtype, which of a type is itself.
    #[tactic(auto, using(crate::proofs::Types::goes_on, crate::proofs::Types::stops))]
    pub fn type_of(&self, id: EntityId) -> EntityId
        ensures { result ≡ type_of self.now.entities id }
    {
        let mut found = id;
        let mut left = self.entities().len();
        while left > 0 {
            match self.parent_of(found) {
                Some(next) => found = next,
                None => return found,
            }
            left -= 1;
        }
        found
    }

    /// The definition of the type of a subtype.
    pub fn form_of(&self, id: EntityId) -> Option<TypeForm>
        ensures { result ≡ form_of self.now.entities id }
    {
        match self.entity(self.type_of(id)) {
            Some(entity) => form(entity.kind),
            None => None,
        }
    }

    /// The component, discriminant, formal parameter or index of an entity that has this place among them, counted from 0.
    pub fn part_at(&self, owner: EntityId, place: usize) -> Option<EntityId>
        ensures { result ≡ part_at owner place self.now.entities }
    {
        match nth_part(self.entities(), owner, place) {
            Some(number) => Some(EntityId { number }),
            None => None,
        }
    }

    /// The component, discriminant or formal parameter of an entity with this name.
    pub fn part_named(&self, owner: EntityId, name: &Text) -> Option<EntityId>
        ensures { result ≡ part_named owner name.now self.now.entities }
    {
        match first_part_named(self.entities(), owner, name) {
            Some(number) => Some(EntityId { number }),
            None => None,
        }
    }

    /// The first entity of this name that is declared within another one, or is a unit that is no child.
    pub(crate) fn declared_within(&self, owner: Option<EntityId>, name: &Text) -> Option<EntityId> {
        for (number, entity) in self.entities().iter().enumerate() {
            let id = EntityId { number };
            if entity.within == owner && self.is_named(id, name) {
                return Some(id);
            }
        }
        None
    }

    /// Has an entity this name?
    pub(crate) fn is_named(&self, id: EntityId, name: &Text) -> bool {
        match self.entity(id) {
            Some(entity) => has_name(name, &entity.name),
            None => false,
        }
    }

    /// Can several entities with its name be visible?
    pub(crate) fn is_overloadable(&self, id: EntityId) -> bool {
        match self.kind_of(id) {
            Some(kind) => kind.is_overloadable(),
            None => false,
        }
    }

    /// Is its value of the type that is expected?
    pub(crate) fn fits(&self, id: EntityId, expected: Option<EntityId>) -> bool {
        match (self.subtype_of(id), expected) {
            (Some(subtype), Some(expected)) => self.type_of(subtype) == self.type_of(expected),
            _ => false,
        }
    }

    // Are two subtypes, which may be none, of one type?
    fn are_alike(&self, left: Option<EntityId>, right: Option<EntityId>) -> bool {
        match (left, right) {
            (Some(left), Some(right)) => self.type_of(left) == self.type_of(right),
            (None, None) => true,
            _ => false,
        }
    }

    // Have two overloadable entities the same profile (RM 8.3(8))?
    fn are_homographs(&self, left: EntityId, right: EntityId) -> bool {
        if !self.are_alike(self.subtype_of(left), self.subtype_of(right)) {
            return false;
        }
        for place in 0..self.entities().len() {
            match (self.part_at(left, place), self.part_at(right, place)) {
                (Some(left), Some(right)) => {
                    if !self.are_alike(self.subtype_of(left), self.subtype_of(right)) {
                        return false;
                    }
                }
                (None, None) => return true,
                _ => return false,
            }
        }
        true
    }

    /// Does an inner declaration, if there is one, hide an overloadable one of the same name (RM 8.3(9))?
    pub(crate) fn hides(&self, inner: Option<EntityId>, outer: EntityId) -> bool {
        match inner {
            Some(inner) => self.are_homographs(inner, outer),
            None => false,
        }
    }
}
