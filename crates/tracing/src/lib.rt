//! Traces of runs: the same run as the machine's, reported event by event (docs/FORMATS.md, "Traces").
#![tactic(auto)]

mod ahead;
mod calls;
mod comparing;
mod event;
pub mod laws;
mod origin;
mod text;
mod tracing_of;

pub use ahead::{Ahead, ahead_of};
pub use calls::{ACTORS, no_calls, note_call};
pub use comparing::{Events, since_clock, starts, until_clock};
pub use event::Event;
pub use origin::{Origin, Origins};
pub use tracing_of::trace;
