//! What the names of texts of whole Ada 2012 denote, and the types of what they denote (RM 8, 3.1).
#![tactic(auto)]

mod attribute;
mod candidates;
mod declaration;
mod entity;
mod expression;
mod name;
mod part;
mod predefined;
mod predefined_rows;
mod protected;
mod queries;
mod resolver;
mod resolving;
mod statement;
mod subprogram;
mod subtype;
mod table;
mod unit;
mod visibility;

pub use entity::{Denoted, Entity, EntityId, EntityKind, TypeForm, TypedSpan, Use};
pub use predefined::Predefined;
pub use resolving::resolve;
pub use table::Names;
