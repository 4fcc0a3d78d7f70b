//! The other place of a fault that speaks of two: of a name that is declared twice the declaration before it, of a body that doesn't belong to its declaration
//! that declaration, or the body before it.

mod fronts;
mod nested;
mod twice;
mod unmatched;

pub use twice::twice_other;
pub use unmatched::unmatched_other;
