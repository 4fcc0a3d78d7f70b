//! Names that clash where all packages are one, or that hide a name (RM 8.3), which the language's don't: later ones are renamed.

use crate::units::{Layout, layout_of};
use ada2012_lexer::Span;
use ada2012_names::{Denoted, Entity, EntityId, EntityKind, Predefined, TypeForm};
use ada2012_tree::{Clause, Declaration, Identifier, Name, Statement, UnitItem};
use base::Text;
use lowering_text::{
    Changes, NoteKind, Whole, beginning_of, begins_in, is_name, last_identifier, span_of,
};
use std::alloc::AllocError;

/// A text, and which units are visible in the one package that is made of it.
#[derive(Clone, Copy)]
struct Region<'a> {
    whole: Whole<'a>,
    first: Span,
    real_time: bool,
    control_io: bool,
}

/// An entity, where it is declared, and its new name.
#[derive(Clone, Copy)]
struct Renamed<'a> {
    id: EntityId,
    span: Span,
    new: &'a [u8],
}

fn is_unit(whole: &Whole<'_>, name: &Name, wanted: Predefined) -> bool {
    let Some(last) = last_identifier(name) else {
        return false;
    };
    match whole.denoted(last.span) {
        Some(id) => whole.names.predefined(id) == Some(wanted),
        None => false,
    }
}

fn has_unit(clauses: &[Clause], whole: &Whole<'_>, wanted: Predefined) -> bool {
    clauses.iter().any(|clause| match clause {
        Clause::With(_, names) => names.iter().any(|name| is_unit(whole, name, wanted)),
        _ => false,
    })
}

/// Does a with clause of the text name this unit?
pub(crate) fn is_named(whole: &Whole<'_>, wanted: Predefined) -> bool {
    whole
        .program
        .units
        .iter()
        .any(|unit| has_unit(&unit.clauses, whole, wanted))
}

fn are_same_spans(left: Span, right: Span) -> bool {
    left.start == right.start && left.end_ == right.end_
}

fn has_same_name(left: &Entity, right: &Entity) -> bool {
    match (&left.name, &right.name) {
        (Some(left), Some(right)) => left.as_bytes() == right.as_bytes(),
        _ => false,
    }
}

// Can the names that are made up for two entities be one?
fn have_same_beginning(left: &Entity, right: &Entity) -> bool {
    match (&left.name, &right.name) {
        (Some(left), Some(right)) => beginning_of(left.as_bytes())
            == beginning_of(right.as_bytes()),
        _ => false,
    }
}

fn is_protected(kind: Option<EntityKind>) -> bool {
    matches!(
        kind,
        Some(EntityKind::Protected | EntityKind::Type(TypeForm::Protected))
    )
}

impl<'a> Region<'a> {
    fn kind_of_owner(&self, entity: &Entity) -> Option<EntityKind> {
        self.whole.names.kind_of(entity.within?)
    }

    // Is it declared in a package of the text, or a unit?
    fn is_in_package(&self, entity: &Entity) -> bool {
        matches!(self.kind_of_owner(entity), Some(EntityKind::Package))
    }

    fn is_in_protected(&self, entity: &Entity) -> bool {
        is_protected(self.kind_of_owner(entity))
    }

    // Is it declared in something, or in what that is declared in?
    fn is_around(&self, owner: EntityId, inner: &Entity) -> bool {
        let mut around = inner.within;
        for _ in 0..self.whole.names.entities().len() {
            match around {
                Some(id) if id == owner => return true,
                Some(id) => around = self.whole.names.within(id),
                None => return false,
            }
        }
        false
    }

    // Can its name clash with another one, or hide it?
    fn is_judged(&self, entity: &Entity) -> bool {
        if entity.predefined.is_some() || entity.span.end_ == 0 {
            return false;
        }
        match entity.kind {
            EntityKind::Component => self.is_in_protected(entity),
            EntityKind::Discriminant => matches!(
                self.kind_of_owner(entity),
                Some(EntityKind::Type(TypeForm::Task))
            ),
            EntityKind::Package
            | EntityKind::Index
            | EntityKind::Loop
            | EntityKind::Block
            | EntityKind::Occurrence => false,
            _ => true,
        }
    }

    // Where the last use of an entity is, or its declaration where it has none.
    fn last_use(&self, id: EntityId, entity: &Entity) -> u32 {
        let mut place = entity.span.start;
        for use_ in self.whole.names.uses() {
            if use_.denoted == Denoted::Entity(id) {
                place = use_.span.start;
            }
        }
        place
    }

    // Where the body of a protected object ends, or a place before all where it has none.
    fn body_end(&self, object: EntityId) -> u32 {
        for declaration in self.whole.parts.declarations.as_slice() {
            if let Declaration::ProtectedBody(span, name, _) = declaration {
                if self.whole.denoted(name.span) == Some(object) {
                    return span.end_;
                }
            }
        }
        0
    }

    // Names that are declared before this place in the package clash with that of an entity.
    fn reach(&self, id: EntityId, entity: &Entity) -> u32 {
        let start = entity.span.start;
        match (entity.kind, entity.within) {
            (EntityKind::Formal(_) | EntityKind::Discriminant, _) => self.last_use(id, entity),
            (_, Some(owner)) if self.is_in_protected(entity) => start.max(self.body_end(owner)),
            _ => start,
        }
    }

    // Where the innermost block or loop ends in which this is declared.
    fn scope_end(&self, entity: &Entity) -> u32 {
        let mut end = u32::MAX;
        for statement in self.whole.parts.statements.as_slice() {
            let span = match statement {
                Statement::Loop(span, _, _, _) => *span,
                Statement::Block(span, _, _) => *span,
                _ => continue,
            };
            if begins_in(span, entity.span) {
                end = span.end_;
            }
        }
        end
    }

    // Is a predefined entity visible in each text, or in one package with the clauses of this one?
    fn is_shown(&self, predefined: Predefined) -> bool {
        match predefined {
            Predefined::Boolean
            | Predefined::False
            | Predefined::True
            | Predefined::Integer
            | Predefined::Natural
            | Predefined::Positive
            | Predefined::ConstraintError
            | Predefined::ProgramError
            | Predefined::StorageError
            | Predefined::TaskingError => true,
            Predefined::Time
            | Predefined::TimeSpan
            | Predefined::Clock
            | Predefined::Milliseconds
            | Predefined::Microseconds => self.real_time,
            Predefined::LabelledPut | Predefined::Read => self.control_io,
            _ => false,
        }
    }

    // Is an entity of the package visible where another one is declared, or used in a body?
    fn is_before(&self, own: &Entity, id: EntityId, entity: &Entity) -> bool {
        if entity.within.is_none() {
            return matches!(own.kind, EntityKind::Task);
        }
        own.span.start < self.reach(id, entity)
    }

    // Is an entity of a body or an object visible where another one is declared?
    fn is_near(&self, own: &Entity, entity: &Entity) -> bool {
        let Some(owner) = own.within else {
            return false;
        };
        if !self.is_around(owner, entity) {
            return false;
        }
        let is_inner = own.span.start < entity.span.start
            || (self.is_in_protected(own) && !self.is_in_protected(entity));
        is_inner && entity.span.start < self.scope_end(own)
    }

    // Does the name of one entity clash with that of another one, which is renamed then?
    fn is_like(&self, before: &Entity, id: EntityId, entity: &Entity) -> bool {
        if are_same_spans(before.span, entity.span) || !has_same_name(before, entity) {
            return false;
        }
        if let Some(predefined) = before.predefined {
            return self.is_shown(predefined);
        }
        if are_same_spans(before.span, self.first) {
            return true;
        }
        if !self.is_judged(before) {
            false
        } else if self.is_in_package(before) {
            self.is_before(before, id, entity)
        } else {
            self.is_near(before, entity)
        }
    }

    // Is it declared like a name that is visible in the one package, or hides one?
    fn clashes(&self, id: EntityId, entity: &Entity) -> bool {
        self.is_judged(entity)
            && self
                .whole
                .names
                .entities()
                .iter()
                .any(|before| self.is_like(before, id, entity))
    }
}

/// Is it known of each use of the name of an entity what it denotes?
pub(crate) fn is_told(whole: &Whole<'_>, entity: &Entity) -> bool {
    whole.names.uses().iter().all(|use_| match use_.denoted {
        Denoted::Ambiguous(id) => match whole.names.entity(id) {
            Some(other) => !has_same_name(other, entity),
            None => true,
        },
        _ => true,
    })
}

// The name of a construct that repeats it at its end.
fn ended(declaration: &Declaration) -> Option<(Span, &Identifier)> {
    match declaration {
        Declaration::SubprogramBody(span, specification, _, _) => {
            Some((*span, &specification.name))
        }
        Declaration::Task(task) => Some((task.span, &task.name)),
        Declaration::TaskBody(span, name, _) => Some((*span, name)),
        Declaration::Protected(object) => Some((object.span, &object.name)),
        Declaration::ProtectedBody(span, name, _) => Some((*span, name)),
        Declaration::EntryBody(span, name, _, _, _) => Some((*span, name)),
        _ => None,
    }
}

// What is visible in the one package of a text.
fn region_of<'a>(whole: &Whole<'a>, layout: &Layout<'_>) -> Region<'a> {
    Region {
        whole: *whole,
        first: layout.name.span,
        real_time: is_named(whole, Predefined::RealTime),
        control_io: is_named(whole, Predefined::ControlIo) || is_named(whole, Predefined::TextIo),
    }
}

// Renames what is after the `end` of a construct whose name is that of the entity.
fn rename_end(
    changes: &mut Changes<'_>,
    whole: &Whole<'_>,
    renamed: &Renamed<'_>,
    span: Span,
    name: &Identifier,
) -> Result<(), AllocError> {
    let is_its = are_same_spans(name.span, renamed.span)
        || whole.denoted(name.span) == Some(renamed.id);
    match changes.source.end_name(span) {
        Some(token) if is_its && is_name(token, &name.name) => {
            changes.write(span_of(token), renamed.new)
        }
        _ => Ok(()),
    }
}

fn rename_ends(
    changes: &mut Changes<'_>,
    whole: &Whole<'_>,
    renamed: &Renamed<'_>,
) -> Result<(), AllocError> {
    for declaration in whole.parts.declarations.as_slice() {
        if let Some((span, name)) = ended(declaration) {
            rename_end(changes, whole, renamed, span, name)?;
        }
    }
    for unit in whole.program.units.as_slice() {
        if let UnitItem::Subprogram(main) = &unit.item {
            rename_end(changes, whole, renamed, main.span, &main.specification.name)?;
        }
    }
    Ok(())
}

/// Renames an entity everywhere, with a note at its declaration.
pub(crate) fn rename(
    changes: &mut Changes<'_>,
    whole: &Whole<'_>,
    id: EntityId,
    entity: &Entity,
) -> Result<(), AllocError> {
    let new = changes.source.fresh_name(changes.alloc, entity.span, &[])?;
    let Some(old) = Text::new(changes.source.bytes(entity.span)) else {
        return Ok(());
    };
    let Some(now) = Text::new(&new) else {
        return Ok(());
    };
    for use_ in whole.names.uses() {
        if use_.denoted == Denoted::Entity(id) {
            changes.write(use_.span, &new)?;
        }
    }
    let renamed = Renamed {
        id,
        span: entity.span,
        new: &new,
    };
    rename_ends(changes, whole, &renamed)?;
    let note = NoteKind::Renamed(old, now);
    changes.replace(entity.span, new, Some(note))
}

/// Renames what clashes with a name that is visible in the one package of a text: of each name the first such entity.
pub fn lower_clashes(changes: &mut Changes<'_>, whole: &Whole<'_>) -> Result<(), AllocError> {
    let Some(layout) = layout_of(whole.program) else {
        return Ok(());
    };
    let region = region_of(whole, &layout);
    let mut renamed: Vec<&Entity> = Vec::new(changes.alloc);
    for entity in whole.names.entities() {
        if renamed
            .iter()
            .any(|other| have_same_beginning(other, entity))
        {
            continue;
        }
        let Some(id) = whole.names.declared_at(entity.span) else {
            continue;
        };
        if region.clashes(id, entity) && is_told(whole, entity) {
            rename(changes, whole, id, entity)?;
            renamed.push(entity)?;
        }
    }
    Ok(())
}
