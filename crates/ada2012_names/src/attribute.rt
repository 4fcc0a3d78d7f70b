//! The types of attributes (RM K).

use crate::entity::{EntityId, TypeForm};
use crate::part::Part;
use crate::predefined::Predefined;
use crate::table::Names;
use ada2012_tree::AttributeName;
use lexer::Word;

// What an attribute gives.
#[derive(Clone, Copy)]
enum Gives {
    /// A value of the type of the prefix, or of the index where that is an array.
    Bound,
    /// A value of the type, of an argument of it.
    Same,
    /// A value of the type, of an argument of another one.
    FromOther,
    /// A value of another type, of an argument of the type.
    Position,
    /// A string, of an argument of the type.
    Image,
    /// A string, of the prefix.
    OwnImage,
    /// A truth value.
    Test,
}

const ATTRIBUTES: [(&str, Gives); 13] = [
    ("FIRST", Gives::Bound),
    ("LAST", Gives::Bound),
    ("SUCC", Gives::Same),
    ("PRED", Gives::Same),
    ("MIN", Gives::Same),
    ("MAX", Gives::Same),
    ("VAL", Gives::FromOther),
    ("VALUE", Gives::FromOther),
    ("POS", Gives::Position),
    ("IMAGE", Gives::Image),
    ("IMG", Gives::OwnImage),
    ("VALID", Gives::Test),
    ("TERMINATED", Gives::Test),
];

// What the attribute of this name gives, if that has a type that is known.
fn rule_of(name: &AttributeName) -> Option<Gives> {
    match name {
        AttributeName::Word(Word::Range, _) => Some(Gives::Bound),
        AttributeName::Word(_, _) => None,
        AttributeName::Identifier(identifier) => {
            for (name, gives) in ATTRIBUTES {
                if identifier.name.as_bytes() == name.as_bytes() {
                    return Some(gives);
                }
            }
            None
        }
    }
}

impl Names {
    // The subtype of which the bounds of a part are: that of the index of an array, else its own.
    fn bounded(&self, part: Part) -> Option<EntityId> {
        let subtype = self.subtype_of_part(part)?;
        match self.form_of(subtype) {
            Some(TypeForm::Array) => self.subtype_of(self.part_at(self.type_of(subtype), 0)?),
            _ => Some(subtype),
        }
    }

    /// What an attribute of a part is.
    pub(crate) fn attribute(&self, part: Part, name: &AttributeName) -> Part {
        let own = self.subtype_of_part(part);
        let string = self.of_predefined(Predefined::String);
        match rule_of(name) {
            None => Part::Value(None),
            Some(Gives::Bound) => Part::Value(self.bounded(part)),
            Some(Gives::Same) => Part::Attribute {
                of: own,
                gives: own,
            },
            Some(Gives::FromOther) => Part::Attribute {
                of: None,
                gives: own,
            },
            Some(Gives::Position) => Part::Attribute {
                of: own,
                gives: None,
            },
            Some(Gives::Image) => Part::Attribute {
                of: own,
                gives: string,
            },
            Some(Gives::OwnImage) => Part::Value(string),
            Some(Gives::Test) => Part::Value(self.of_predefined(Predefined::Boolean)),
        }
    }
}
