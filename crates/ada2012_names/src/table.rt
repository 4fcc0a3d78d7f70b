//! The table of entities and of the uses of their names.
ghost use Rattle.std.specs.Prelude.{◌≡◌, ◌≤◌, IfOk, find, length, option_map, position, slice_get, true};
ghost use Rattle.ada2012_names.specs.Tables.{AreLinked, AreUses, DenotesKnown, HaveKnownTypes, IsKnownEntity, declared_at, is_same, type_at, use_at};

use crate::entity::{Denoted, Entity, EntityId, EntityKind, TypedSpan, Use};
use ada2012_tree::Span;
use base::Text;
use std::alloc::{AllocError, Global};
use std::marker::Model;

fn is_same(left: Span, right: Span) -> bool
    ensures { result ≡ is_same left right }
{
    left.start == right.start && left.end_ == right.end_
}

fn first_use(uses: &[Use], span: Span) -> Option<Use>
    ensures { result ≡ find (λ u. is_same u.span span) uses.now }
{
    uses.iter().copied().find(|use_| is_same(use_.span, span))
}

fn first_type(types: &[TypedSpan], span: Span) -> Option<TypedSpan>
    ensures { result ≡ find (λ t. is_same t.span span) types.now }
{
    types
        .iter()
        .copied()
        .find(|typed| is_same(typed.span, span))
}

fn first_declared(entities: &[Entity], span: Span) -> Option<usize>
    ensures { result ≡ position (λ e. is_same e.span span) entities.now }
{
    entities
        .iter()
        .position(|entity| is_same(entity.span, span))
}

// Does a span lie between two places?
fn lies_between(from: u32, to: u32, span: Span) -> bool
    ensures { result ≡ true → (from ≤ span.start) × (span.start ≤ span.end_) × (span.end_ ≤ to) }
{
    if span.start < from {
        return false;
    }
    if span.end_ < span.start {
        return false;
    }
    span.end_ <= to
}

/// What the names of a whole text denote. Contracts see its lists.
#[derive(Drop)]
pub struct Names {
    whole: Span,
    entities: Vec<Entity>,
    uses: Vec<Use>,
    // Where the last use ends.
    last: u32,
    types: Vec<TypedSpan>,
}

impl Model for Names {
    ghost use Rattle.ada2012_names.specs.Tables.{IsNameTable, Rows};

    ghost Value = { Rows };

    ghost view = { λ n. record { whole = n.whole; entities = n.entities.items; uses = n.uses.items; types = n.types.items } };

    ghost invariant = { λ n. IsNameTable n.whole n.entities.items n.uses.items n.last n.types.items };
}

impl Names {
    /// A table without entities, of a text that may be anywhere.
    pub(crate) fn new(alloc: Global) -> Names {
        Names {
            whole: Span {
                start: 0,
                end_: u32::MAX,
            },
            entities: Vec::new(alloc),
            uses: Vec::new(alloc),
            last: 0,
            types: Vec::new(alloc),
        }
    }

    /// The table of a text with this span: the uses that lie in it.
    #[tactic(auto, using(crate::proofs::Tables::without_uses))]
    pub(crate) fn of_text(self, alloc: Global, whole: Span) -> Result<Names, AllocError>
        ensures { IfOk result (λ names. names.whole ≡ whole) }
    {
        let Names {
            entities,
            uses,
            types,
            ..
        } = self;
        let mut names = Names {
            whole,
            entities,
            uses: Vec::new(alloc),
            last: whole.start,
            types,
        };
        for use_ in &uses {
            names.note_use(use_.span, use_.denoted)?;
        }
        Ok(names)
    }

    /// The entities, in the order in which they were declared. Those that are predefined are the first ones.
    pub fn entities(&self) -> &[Entity]
        ensures same { result.now ≡ self.now.entities }
        // What each is declared in, and its subtype, are among them.
        ensures linked { AreLinked (length result.now) result.now }
    {
        &self.entities
    }

    /// The uses of names, in the order of the text.
    pub fn uses(&self) -> &[Use]
        ensures same { result.now ≡ self.now.uses }
        // They lie in the span of the whole text, one after the other, and denote entities of the table.
        ensures ordered { AreUses (length self.now.entities) self.now.whole.start self.now.whole.end_ result.now }
    {
        &self.uses
    }

    /// The expressions of which the type is known, in the order in which they end.
    pub fn types(&self) -> &[TypedSpan]
        ensures same { result.now ≡ self.now.types }
        // Their types are entities of the table.
        ensures typed { HaveKnownTypes (length self.now.entities) result.now }
    {
        &self.types
    }

    /// An entity, if it is one of the table.
    pub fn entity(&self, id: EntityId) -> Option<&Entity>
        ensures { option_map (λ e. e.now) result ≡ slice_get self.now.entities id.number }
    {
        self.entities.get(id.number)
    }

    /// What the identifier with this span denotes, where it is a use of a name.
    pub fn use_at(&self, span: Span) -> Option<Denoted>
        ensures { result ≡ use_at span self.now.uses }
    {
        match first_use(&self.uses, span) {
            Some(use_) => Some(use_.denoted),
            None => None,
        }
    }

    /// The entity that the identifier with this span declares.
    pub fn declared_at(&self, span: Span) -> Option<EntityId>
        ensures { result ≡ declared_at span self.now.entities }
    {
        match first_declared(&self.entities, span) {
            Some(number) => Some(EntityId { number }),
            None => None,
        }
    }

    /// The type or subtype of the expression with this span, where it is known.
    pub fn type_at(&self, span: Span) -> Option<EntityId>
        ensures { result ≡ type_at span self.now.types }
    {
        match first_type(&self.types, span) {
            Some(typed) => Some(typed.subtype),
            None => None,
        }
    }

    // This entity, where it is one of the table.
    fn known(&self, id: Option<EntityId>) -> Option<EntityId>
        ensures { IsKnownEntity (length self.now.entities) result }
    {
        match id {
            Some(id) if id.number < self.entities.len() => Some(id),
            _ => None,
        }
    }

    // What is denoted, where it is an entity of the table.
    fn known_denoted(&self, denoted: Denoted) -> Denoted
        ensures { DenotesKnown (length self.now.entities) result }
    {
        match denoted {
            Denoted::Entity(id) if id.number < self.entities.len() => Denoted::Entity(id),
            Denoted::Ambiguous(id) if id.number < self.entities.len() => Denoted::Ambiguous(id),
            _ => Denoted::Unknown,
        }
    }

    /// Adds an entity.
    #[tactic(auto, using(crate::proofs::Tables::same_entities))]
    pub(crate) fn declare(&mut self, entity: Entity) -> Result<EntityId, AllocError> {
        let within = self.known(entity.within);
        let subtype = self.known(entity.subtype);
        let mut entity = entity;
        entity.within = within;
        entity.subtype = subtype;
        let number = self.entities.len();
        self.entities.push(entity)?;
        Ok(EntityId { number })
    }

    /// Adds a use of a name. One that isn't after the last one, or not in the whole text, is left out: a tree whose spans nest has none.
    #[tactic(auto, using(crate::proofs::Tables::same_uses))]
    pub(crate) fn note_use(&mut self, span: Span, denoted: Denoted) -> Result<(), AllocError>
        ensures { self.new.whole ≡ self.old.whole }
    {
        let denoted = self.known_denoted(denoted);
        if lies_between(self.last, self.whole.end_, span) {
            self.uses.push(Use { span, denoted })?;
            self.last = span.end_;
        }
        Ok(())
    }

    /// Adds an expression, where its type is known.
    #[tactic(auto, using(crate::proofs::Tables::types, crate::proofs::Tables::same_types))]
    pub(crate) fn note_type(
        &mut self,
        span: Span,
        subtype: Option<EntityId>,
    ) -> Result<(), AllocError> {
        if let Some(subtype) = self.known(subtype) {
            self.types.push(TypedSpan { span, subtype })?;
        }
        Ok(())
    }
}
