//! Pictures of runs: each task and each object over virtual time and over steps, as scalable vector graphics (docs/FORMATS.md, "Pictures").
#![tactic(auto)]

mod drawing;
mod element;
mod event;
mod extent;
mod frame;
mod front;
mod ink;
mod shape;
mod spacing;
mod style;
mod title;

pub use drawing::picture;
