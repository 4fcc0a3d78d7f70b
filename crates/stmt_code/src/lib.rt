//! The code of statements.
#![tactic(auto)]

mod draft;
mod formals;
pub mod initial_values;
mod joining;
pub mod laws;
mod leaves;
mod main_calls;
mod marking;
mod outs;
mod returning;
pub mod selection;
pub mod simple;
pub mod sketch;
mod sketch_alternatives;
mod sketch_bodies;
mod sketch_declarations;
mod sketch_handlers;
mod sketch_loops;
mod sketch_parts;
mod sketch_statements;
mod sketch_subprograms;
mod subprogram;
mod tables;
pub mod turning;

pub use draft::{Draft, Labels};
pub use marking::stmt_place;
pub use subprogram::SubprogramWords;
pub use tables::{CodeTables, PlaceRow};
