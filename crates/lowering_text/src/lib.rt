//! What rules of lowering see of a text of whole Ada 2012, its tokens, its tree and its names, and what they ask for.
#![tactic(auto)]

mod bodies;
mod changes;
mod forms;
mod fresh;
mod note;
mod parts;
mod places;
mod source;
mod statics;
mod whole;
mod words;

pub use bodies::{body_around, body_of, is_within, span_of_statement, statement_around};
pub use changes::{Changes, Refusal, RefusalKind, Request};
pub use forms::{associations_of, chosen_identifier, is_aggregate, is_scalar, leading_identifier};
pub use fresh::beginning_of;
pub use note::NoteKind;
pub use parts::Parts;
pub use places::{are_same, are_same_names, begins_in, called, declaration_span, last_identifier};
pub use source::{Source, is_mark, is_name, is_word, span_of};
pub use statics::{Known, power, value_of};
pub use whole::{
    AttributeUse, Whole, after, is_attribute, is_called, item_around, last_of, name_of,
    start_of_item,
};
pub use words::put_all;
