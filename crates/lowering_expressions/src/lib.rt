//! Rules of lowering for calls, loops, relations, attributes and times.
#![tactic(auto)]

mod attributes;
mod calls;
mod equalities;
mod exits;
mod formal_defaults;
mod loops;
mod memberships;
mod qualifications;
mod spans;

pub use attributes::lower_attributes;
pub use calls::lower_calls;
pub use equalities::lower_equalities;
pub use exits::lower_exits;
pub use formal_defaults::lower_formal_defaults;
pub use loops::{lower_elements, lower_loops};
pub use memberships::lower_memberships;
pub use qualifications::lower_qualifications;
pub use spans::lower_span_operations;
