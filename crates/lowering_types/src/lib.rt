//! Rules of lowering for types: enumerations, modular types, arrays without names, ranges.
#![tactic(auto)]

mod array_types;
mod asked;
mod choices;
mod constraints;
mod enumerations;
mod modular;
mod powers;
mod ranges;

pub use array_types::lower_array_types;
pub use asked::{
    Asked, expressions_asked_for, is_array, part_of, subtype_of_object, subtype_of_value,
};
pub use choices::lower_case_ranges;
pub use constraints::lower_constraints;
pub use enumerations::lower_enumerations;
pub use modular::{lower_modular_types, static_value};
pub use powers::lower_powers;
pub use ranges::lower_ranges;
