//! What rules ask of a text whose names are known.

use crate::parts::Parts;
use crate::places::{begins_in, declaration_span};
use ada2012_lexer::Span;
use ada2012_names::{Denoted, Entity, EntityId, EntityKind, Names, TypeForm, Use};
use ada2012_tree::{
    Association, AttributeName, Declaration, Expr, ExprKind, Identifier, Name, Program, Selector,
    Unit, UnitItem,
};
use base::Text;

/// A text as rules see it that look at names: its tree, the lists of its parts, and what its names denote.
#[derive(Clone, Copy)]
pub struct Whole<'a> {
    pub program: &'a Program,
    pub parts: &'a Parts<'a>,
    pub names: &'a Names,
}

impl<'a> Whole<'a> {
    /// What the identifier with this span denotes, where it is a use of a name and can be told.
    pub fn denoted(&self, span: Span) -> Option<EntityId> {
        let uses = self.names.uses();
        let found = uses.get(uses.partition_point(|use_| use_.span.start < span.start))?;
        match found.denoted {
            Denoted::Entity(id) if found.span.start == span.start => Some(id),
            _ => None,
        }
    }

    /// What an identifier declares, or completes.
    pub fn declared(&self, span: Span) -> Option<EntityId> {
        match self.names.declared_at(span) {
            Some(id) => Some(id),
            None => self.denoted(span),
        }
    }

    /// Is an object declared in a body, and not in a package?
    pub fn is_local(&self, id: EntityId) -> bool {
        let Some(owner) = self.names.within(id) else {
            return false;
        };
        !matches!(self.names.kind_of(owner), Some(EntityKind::Package) | None)
    }

    /// Is a component one of a record?
    pub fn is_of_record(&self, id: EntityId) -> bool {
        let Some(owner) = self.names.within(id) else {
            return false;
        };
        matches!(
            self.names.kind_of(owner),
            Some(EntityKind::Type(TypeForm::Record))
        )
    }

    /// The type or subtype that a name denotes, if it denotes one.
    pub fn denoted_subtype(&self, name: &Name) -> Option<EntityId> {
        let id = self.denoted(last_of(&name.prefix, &name.selectors)?.span)?;
        if self.is_subtype(id) { Some(id) } else { None }
    }

    /// Is it a type or a subtype?
    pub fn is_subtype(&self, id: EntityId) -> bool {
        matches!(
            self.names.kind_of(id),
            Some(EntityKind::Type(_) | EntityKind::Subtype)
        )
    }

    /// Is it a subprogram or an entry?
    pub fn is_callable(&self, id: EntityId) -> bool {
        matches!(
            self.names.kind_of(id),
            Some(EntityKind::Procedure | EntityKind::Function | EntityKind::Entry)
        )
    }

    /// Is it of an enumeration type that the text declares?
    pub fn is_of_enumeration(&self, id: EntityId) -> bool {
        matches!(self.names.form_of(id), Some(TypeForm::Enumeration))
            && self.names.predefined(self.names.type_of(id)).is_none()
    }

    /// Is it of an integer type, or of an enumeration type that the text declares?
    pub fn is_counted(&self, id: EntityId) -> bool {
        match self.names.form_of(id) {
            Some(TypeForm::Integer | TypeForm::Modular) => true,
            _ => self.is_of_enumeration(id),
        }
    }

    /// The use of an attribute of a subtype with arguments that a name is.
    pub fn attribute_use<'b>(&self, name: &'b Name) -> Option<AttributeUse<'b>> {
        let [
            before @ ..,
            Selector::Attribute(own, AttributeName::Identifier(attribute)),
            Selector::Arguments(list, arguments),
        ] = name.selectors.as_slice()
        else {
            return None;
        };
        let subtype = self.denoted(last_of(&name.prefix, before)?.span)?;
        if !self.is_subtype(subtype) {
            return None;
        }
        Some(AttributeUse {
            subtype,
            attribute,
            prefix: Span {
                start: name.span.start,
                end_: own.end_,
            },
            arguments,
            list: *list,
        })
    }

    fn is_call(&self, use_: &Use) -> bool {
        match use_.denoted {
            Denoted::Entity(id) => self.is_callable(id),
            _ => true,
        }
    }

    /// May there be a call in what has this span? A name that isn't known may be one.
    pub fn may_call(&self, span: Span) -> bool {
        let uses = self.names.uses();
        let Some(rest) = uses.get(uses.partition_point(|use_| use_.span.start < span.start)..)
        else {
            return false;
        };
        rest.iter()
            .any(|use_| use_.span.start < span.end_ && self.is_call(use_))
    }
}

/// The last identifier of a name that has nothing but identifiers in it.
pub fn last_of<'b>(prefix: &'b Identifier, selectors: &'b [Selector]) -> Option<&'b Identifier> {
    let mut last = prefix;
    for selector in selectors {
        match selector {
            Selector::Component(_, identifier) => last = identifier,
            _ => return None,
        }
    }
    Some(last)
}

/// The name that an expression is, if it is one.
pub fn name_of(e: &Expr) -> Option<&Name> {
    match &e.kind {
        ExprKind::Name(name) => Some(name),
        _ => None,
    }
}

/// A use of an attribute of a subtype with arguments.
#[derive(Clone, Copy)]
pub struct AttributeUse<'b> {
    pub subtype: EntityId,
    pub attribute: &'b Identifier,
    /// What is before the arguments.
    pub prefix: Span,
    pub arguments: &'b [Association],
    /// The arguments with their parentheses.
    pub list: Span,
}

/// Has an attribute this name, which is in upper case?
pub fn is_attribute(attribute: &Identifier, name: &str) -> bool {
    attribute.name.as_bytes() == name.as_bytes()
}

/// Has an entity this name?
pub fn is_called(entity: &Entity, name: &Text) -> bool {
    match &entity.name {
        Some(own) => own.as_bytes() == name.as_bytes(),
        None => false,
    }
}

/// The place at which a span ends.
pub fn after(span: Span) -> Span {
    Span {
        start: span.end_,
        end_: span.end_,
    }
}

// The declaration of these that has a place in it.
fn item_among(declarations: &[Declaration], place: Span) -> Option<&Declaration> {
    for declaration in declarations {
        if begins_in(declaration_span(declaration), place) {
            return Some(declaration);
        }
    }
    None
}

fn item_in(unit: &Unit, place: Span) -> Option<&Declaration> {
    match &unit.item {
        UnitItem::Package(package) => match item_among(&package.visible, place) {
            Some(item) => Some(item),
            None => item_among(&package.hidden, place),
        },
        UnitItem::PackageBody(package) => item_among(&package.body.declarations, place),
        UnitItem::Subprogram(_) => None,
    }
}

/// The declaration of a package that has a place in it.
pub fn item_around<'a>(whole: &Whole<'a>, place: Span) -> Option<&'a Declaration> {
    for unit in whole.program.units.as_slice() {
        if let Some(item) = item_in(unit, place) {
            return Some(item);
        }
    }
    None
}

/// Where the declaration of a package begins that has a place in it.
pub fn start_of_item(whole: &Whole<'_>, place: Span) -> Option<u32> {
    let item = item_around(whole, place)?;
    Some(declaration_span(item).start)
}
