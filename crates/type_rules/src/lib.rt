//! What declarations of types, objects and subprograms break, and what they make visible (docs/LANGUAGE.md, "Rules of declarations").
#![tactic(auto)]

mod definitions;
mod initial;
mod names;
mod objects;
mod profiles;
mod ranges;

pub use definitions::{declare_type, type_faults};
pub use initial::{fixed_faults, fixed_scalar};
pub use names::{
    declare, named_entity, note_declared_twice, note_end_name, subtype_faults, subtype_of,
    wanted_by,
};
pub use objects::{
    declare_local_object, declare_package_object, fixed_object_faults, local_object_faults,
    object_entity,
};
pub use profiles::{
    declare_subprogram, formal_parameters, formals_faults, profile_faults, profile_with,
    subprogram_faults,
};
