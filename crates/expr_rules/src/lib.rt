//! The rules of names, types and numbers of actual parameters in one expression (docs/LANGUAGE.md, "Rules of expressions").
#![tactic(auto)]

mod fault;
mod findings;
pub mod laws;
mod names;
mod own;
mod statics;
mod walk;

pub use fault::{rule, sooner};
pub use findings::Findings;
pub use names::{Slot, mismatch, note_mismatch};
pub use own::{
    Own, Wanted, is_boolean, is_integral, is_scalar, is_span, is_time, own_of, own_of_standing,
    typed_wanted,
};
pub use statics::{static_fault, static_faults, static_scalar};
pub use walk::{
    call_fault, call_faults, check_expr, expression_fault, expression_faults, target_fault,
    target_faults,
};
