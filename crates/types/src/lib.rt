//! What names, types and values are, and which value an expression has (docs/LANGUAGE.md, "Names, types and values").
#![tactic(auto)]

mod entity;
mod evaluation;
mod extent;
pub mod laws;
mod layout;
mod parts;
mod predefined;
mod scope;
mod seen;
mod standing;
mod statics;

pub use entity::{
    Barrier, Entity, FormalParameter, Operation, PredefinedOperation, Profile, ProtectedObject,
    RecordComponent, Role, Subtype, TypeForm, Value,
};
pub use extent::bounds;
pub use layout::{Layout, LayoutFault};
pub use parts::{Components, Operations};
pub use scope::{MORE_WORDS, Scope};
pub use seen::{NamePlaces, SeenNames};
pub use standing::{Callee, Standing};
pub use statics::{StaticForm, start_of, static_value};
