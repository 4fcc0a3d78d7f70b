//! Runs as value change dumps, which viewers of waveforms show (docs/FORMATS.md, "Value change dumps").
#![tactic(auto)]

mod axis;
mod before_clock;
mod declarations;
mod inputs;
mod instants;
mod lines;
mod rows;
mod scopes;
mod text;
mod values;
mod waves_of;

pub use instants::time_waves;
pub use scopes::{Scopes, Variable, VariableScope};
pub use waves_of::waves;
